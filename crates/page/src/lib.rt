// A page that lines are put on, one behind the other, before it is written out.
#![tactic(auto)]

ghost use Rattle.std.specs.Prelude.{◌≡◌, ◌+◌, ◌≤◌, length, take, leb, cond};
ghost use Rattle.std.proofs.Math.Seq.{paste};
ghost use Rattle.page.specs.Pages.{appended, end_of, room_for};

use line::Line;

// Is there room for n bytes behind the first `at` bytes of a page?
#[tactic(auto, unfolding(crate::specs::Pages::room_for))]
pub fn has_room(out: &[u8], at: usize, n: usize) -> bool
    ensures { result ≡ room_for out.now at n }
{
    at <= out.len() && n <= out.len() - at
}

// A line behind the first `at` bytes of a page, and where it ends; a page that has no room for it stays as it is.
// kept: no heap, fixed memory: a page is lent by the program, and how far it is filled stands beside it
pub fn append(out: &mut [u8], at: usize, l: Line) -> usize
    ensures { (result ≡ end_of out.old at l) × (out.new ≡ appended out.old at l) }
{
    let n = l.len;
    if line::ROOM < n {
        return at;
    }
    if !has_room(out, at, n) {
        return at;
    }
    out[at..at + n].copy_from_slice(&l.bytes[..n]);
    at + n
}

// A number of bytes at the front of a buffer: n, or 0 where the buffer is shorter.
pub fn within(n: usize, buf: &[u8]) -> usize
    ensures { (result ≡ cond (leb n (length buf.now)) n 0) × ((result ≤ length buf.now) × (result ≡ length (take result buf.now))) }
{
    if n <= buf.len() { n } else { 0 }
}
