// What the demand of a set at a length is made of: a part for each stream that is due, and one for each task that blocks.
#![tactic(auto)]

ghost use Rattle.std.specs.Prelude.{◌≡◌, true, ltb};
ghost use Rattle.rules.specs.Streams.{stream_at};
ghost use Rattle.load_parts.specs.Parts.{due_part, stream_part, block_part, task_part};

use rules::{Refusal, Set, Stream};

#[derive(Clone, Copy)]
pub enum Part {
    // stream, its cost, how often it is due
    Due(usize, u64, u64),
    // task, units
    Blocks(usize, u64),
}

// A stream of the number k, where it is due.
#[tactic(auto, unfolding(crate::specs::Parts::due_part))]
fn due_part(s: Stream, i: u32, k: usize) -> Option<Part>
    ensures { result ≡ due_part i k s }
{
    if s.deadline <= i {
        Some(Part::Due(
            k,
            load_cycles::stream_cost(s),
            stream_limits::limit_of(s, i - s.deadline),
        ))
    } else {
        None
    }
}

// What stream k adds to the demand at the length i. An invalid set, and a stream that it has not, add nothing.
#[tactic(auto, unfolding(crate::specs::Parts::stream_part))]
pub fn stream_part(x: Set, i: u32, k: usize) -> Option<Part>
    ensures { result ≡ stream_part x i k }
{
    if stream_valid::is_valid(x) & (k < x.count) {
        due_part(stream_valid::stream_at(x, k), i, k)
    } else {
        None
    }
}

fn block_part(a: Result<u64, Refusal>, t: usize) -> Option<Part>
    ensures { result ≡ block_part t a }
{
    match a {
        Ok(b) if b != 0 => Some(Part::Blocks(t, b)),
        _ => None,
    }
}

// What the blocking of task t adds to the demand at the length i. An invalid set adds nothing.
#[tactic(auto, unfolding(crate::specs::Parts::task_part))]
pub fn task_part(x: Set, i: u32, t: usize) -> Option<Part>
    ensures { result ≡ task_part x i t }
{
    block_part(load_check::blocking_of(x, i, t), t)
}
