// The load check: demand and the verdict of a set, which speaks of every length.
#![tactic(auto)]

mod dues; // dues.rt: a set's tuples laid out in rows, and what is due by a length
mod blocked; // blocked.rt: the blocking of each task
mod lengths; // lengths.rt: the testing of a range of lengths

ghost use Rattle.std.specs.Prelude.{◌≡◌};
ghost use Rattle.rules.specs.Load.{demand_of, VerdictOf};
ghost use Rattle.load_check.specs.Blocked.{blocking_of};
ghost use Rattle.load_check.specs.Lengths.{FoundOf};
ghost use Rattle.load_check.specs.Sheets.{SheetVerdict};

use rules::{Refusal, Set, Verdict};

// A tuple as plain numbers: due first at the length `first`, and again each `cycle`, with `cost` each time.
#[derive(Clone, Copy)]
pub(crate) struct Row {
    pub cost: u32,
    pub first: u32,
    pub cycle: u32,
}

// The tuples of a set as rows: how many there are, and 64 places for them.
// kept: no heap, fixed memory
#[derive(Clone, Copy)]
pub(crate) struct Rows {
    pub count: usize,
    pub rows: [Row; 64],
}

// The demand of a set at a length, 7 for an invalid set.
pub fn demand(x: Set, i: u32) -> Result<u64, Refusal>
    ensures { result ≡ demand_of x i }
{
    if stream_valid::is_valid(x) {
        let t = dues::rows_of(&x);
        Ok(dues::dues_at(dues::used(&t), i) + blocked::blockings(&x, i))
    } else {
        Err(Refusal::OutOfRule)
    }
}

// The blocking of a task at a length, 7 for an invalid set.
pub fn blocking_of(x: Set, i: u32, t: usize) -> Result<u64, Refusal>
    ensures { result ≡ blocking_of x i t }
{
    if stream_valid::is_valid(x) {
        Ok(u64::from(blocked::task_blocking(&x, i, t)))
    } else {
        Err(Refusal::OutOfRule)
    }
}

// The lengths of a set from `from` up to `end`, which is not tested, in order: the first late one and its demand, 7 for an invalid set.
pub fn test_lengths(x: Set, from: u32, end: u32) -> Result<Option<(u64, u64)>, Refusal>
    ensures { FoundOf x from end result }
{
    if stream_valid::is_valid(x) {
        Ok(lengths::test_range(&x, from, end))
    } else {
        Err(Refusal::OutOfRule)
    }
}

// The verdict of a set: accept, late with the least late length and its demand, overload, 8 or 7.
pub fn verdict(x: Set) -> Verdict
    ensures { VerdictOf x result }
{
    match load_cycles::begin(x) {
        Err(v) => v,
        Ok(end) => {
            match lengths::test_range(&x, 1, end) {
                None => Verdict::Accept,
                Some((i, w)) => Verdict::Late(i, w),
            }
        }
    }
}

// The verdict of a sheet, from what it reads as: a refused sheet's is its refusal.
pub fn sheet_verdict(a: Result<(), Refusal>, x: Set) -> Verdict
    ensures { SheetVerdict a x result }
{
    match a {
        Ok(()) => verdict(x),
        Err(why) => Verdict::Refused(why),
    }
}
