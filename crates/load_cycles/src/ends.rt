// The greatest deadline and offset, and the end of the lengths to test.
#![tactic(auto, using(laws::proofs::Sums::top_none, laws::proofs::Sums::top_take, std::proofs::lemmas::List::take_all), unfolding(rules::specs::Load::greatest_deadline, rules::specs::Load::stream_offset, rules::specs::Load::greatest_offset))]

ghost use Rattle.std.specs.Prelude.{◌≡◌, ◌+◌, ◌≤◌};
ghost use Rattle.rules.specs.Load.{greatest_deadline, stream_offset, greatest_offset};
ghost use Rattle.rules.specs.Streams.{streams_of};

use rules::{Set, Stream};

pub(crate) fn greatest_deadline(x: &Set) -> u32
    ensures { result ≡ greatest_deadline (streams_of x.now) }
{
    let mut most = 0;
    for s in stream_valid::streams_of(x) {
        most = most.max(s.deadline);
    }
    most
}

fn stream_offset(s: &Stream) -> u32
    ensures { result ≡ stream_offset s.now }
{
    let mut most = 0;
    for p in stream_valid::tuples_of(s) {
        most = most.max(stream_valid::offset_of(p.tuple));
    }
    most
}

pub(crate) fn greatest_offset(x: &Set) -> u32
    ensures { result ≡ greatest_offset (streams_of x.now) }
{
    let mut most = 0;
    for s in stream_valid::streams_of(x) {
        most = most.max(stream_offset(s));
    }
    most
}

// The end of the lengths to test: H, the greatest deadline and the greatest offset, and one more.
pub(crate) fn end_after(h: u32, deadline: u32, offset: u32) -> u32
    requires { (h ≤ 1000000) × (deadline ≤ 200000) × (offset ≤ 100000) }
    ensures { result ≡ h + deadline + offset + 1 }
{
    h + deadline + offset + 1
}
