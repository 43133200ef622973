// The check in calls: it is opened, and then each call tests a given number of lengths, until the verdict falls.
#![tactic(auto)]

ghost use Rattle.std.specs.Prelude.{◌≡◌, ◌+◌, ◌≤◌, ◌<◌, Ok};
ghost use Rattle.rules.specs.Load.{VerdictOf};
ghost use Rattle.rules.specs.Resumed.{at, OpenOf, GoOf, Underway};
ghost use Rattle.load_cycles.specs.Openings.{UpTo};

use rules::{Position, Progress, Refusal, Set, Verdict};

// 7, 8 and overload are answered here, before any length. Else the position is the set at length 1.
pub fn open(x: Set) -> Result<Position, Verdict>
    ensures { OpenOf x result }
{
    match load_cycles::begin(x) {
        Ok(_) => Ok(Position { set: x, next: 1 }),
        Err(v) => Err(v),
    }
}

// ---- a call

// How many lengths lie from `from` through i.
fn through(from: u32, i: u64) -> u32
    requires { (from ≤ i) × (i < 4294967295) }
    ensures { from + result ≡ i + 1 }
{
    i as u32 - from + 1
}

// At a length of a set whose lengths go up to `end`, which is none of them.
fn go_until(x: Set, from: u32, n: u32, end: u32) -> Progress
    requires { (UpTo x end) × (1 ≤ from) × (from < end) }
    ensures { GoOf (at x from) n (Ok result) }
{
    let count = n.min(end - from);
    let stop = from + count;
    match load_check::test_lengths(x, from, stop) {
        Ok(Some((i, w))) => Progress::Falls(through(from, i), Verdict::Late(i, w)),
        Ok(None) if end <= stop => Progress::Falls(count, Verdict::Accept),
        _ => Progress::Next(count, Position { set: x, next: stop }),
    }
}

// The next lengths of a position, n of them, or fewer where the verdict falls first. 12 for a set that the opening stops, or for a length that is none of its lengths.
pub fn go(p: Position, n: u32) -> Result<Progress, Refusal>
    ensures { GoOf p n result }
{
    match load_cycles::begin(p.set) {
        Ok(end) if (1..end).contains(&p.next) => Ok(go_until(p.set, p.next, n, end)),
        _ => Err(Refusal::IllFormed),
    }
}

// ---- the work divided among calls

// Who is told each next position while the calls go on. A trait and no closure: a function that takes a closure has to require that it may be called.
pub trait Listener {
    fn tell(&mut self, next: Position);
}

// Nobody listens.
#[derive(Clone, Copy)]
struct Nobody;

impl Listener for Nobody {
    fn tell(&mut self, _next: Position) {}
}

// Calls with the number n, one after the other, until the verdict falls. Each next position is told.
fn call_by_call<L: Listener>(begun: Position, n: u32, listener: &mut L) -> Verdict
    requires underway { Underway begun.set begun }
    requires some { 0 < n }
    ensures { VerdictOf begun.set result }
{
    let mut p = begun;
    loop {
        match go(p, n) {
            Ok(Progress::Next(_, next)) => {
                listener.tell(next);
                p = next;
            }
            Ok(Progress::Falls(_, v)) => return v,
            Err(why) => return Verdict::Refused(why),
        }
    }
}

// The verdict of a set, by calls with the number n; each next position is told. With 0 no call would come further, so that it is taken as 1.
pub fn told_in_calls<L: Listener>(x: Set, n: u32, listener: &mut L) -> Verdict
    ensures { VerdictOf x result }
{
    match open(x) {
        Ok(p) => call_by_call(p, n.max(1), listener),
        Err(v) => v,
    }
}

// The same, with nothing told.
pub fn in_calls(x: Set, n: u32) -> Verdict
    ensures { VerdictOf x result }
{
    told_in_calls(x, n, &mut Nobody)
}
