// How many bits have come, and are they whole bytes?
ghost use Rattle.std.specs.Prelude.{◌≡◌, true, ◌≤◌};
ghost use Rattle.rules.specs.Streams.{valid};
ghost use Rattle.sheet_carried.specs.Left.{came_of, fits, part_room, stream_room, streams_room, whole_bytes};

use crate::{Carried, fitting};
use rules::{Set, Stream};

// The bits of a stream's fields.
#[tactic(auto, unfolding(crate::specs::Left::stream_room))]
fn stream_room(version: u32, s: Stream) -> usize
    requires { (s.depth ≤ 4) × (s.count ≤ 4) }
    ensures { result ≡ stream_room version s }
{
    let own = 20 * s.depth + 37 * s.count;
    if version == 1 { 20 + own } else { 22 + own }
}

// The bits of a set's streams.
fn streams_room(x: Set) -> usize
    requires { valid x ≡ true }
    ensures { (result ≡ streams_room x) × (result ≤ 4000) }
{
    let mut room: usize = 0;
    for s in &x.streams[..x.count] {
        room += stream_room(x.version, *s);
    }
    room
}

// The bits of the stream that is being read, or of the padding, before a row.
fn part_room(version: u32, less: usize, f: usize, n: usize) -> usize
    requires { (less ≤ 3) × (n ≤ 3) × (f ≤ 20) }
    ensures { (result ≡ part_room version less f n) × (result ≤ 4000) }
{
    if 9 <= f {
        return f - 9;
    }
    if version == 1 {
        return fitting::by_row([0, 0, 20, 0, 0, 4, 38, 40 + 37 * n, 60 + 37 * n], f);
    }
    let staged = 20 * less;
    let tupled = 37 * n;
    fitting::by_row(
        [
            0,
            0,
            0,
            18,
            20 + 20 * n,
            24 + 20 * n,
            40 + staged,
            42 + staged + tupled,
            62 + staged + tupled,
        ],
        f,
    )
}

fn came(c: Carried) -> usize
    requires { fits c ≡ true }
    ensures { result ≡ came_of c }
{
    let f = c.point.row;
    let here = fitting::width(f) - c.point.left as usize;
    if f == 0 {
        return here;
    }
    if f == 1 {
        return 4 + here;
    }
    9 + streams_room(c.set)
        + part_room(c.set.version, c.values[3] as usize, f, c.point.whole)
        + here
}

pub(crate) fn whole_bytes(c: Carried) -> bool
    requires { fits c ≡ true }
    ensures { result ≡ whole_bytes c }
{
    17 <= c.point.row || came(c) % 8 == 0
}
