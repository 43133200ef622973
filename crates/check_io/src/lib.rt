// The check program's reading and writing; what is read and written is decided by proved functions.
#![tactic(auto)]

ghost use Rattle.rules.specs.Load.{VerdictOf};
ghost use Rattle.load_check.specs.Sheets.{SheetVerdict};

use load_resume::Listener;
use rules::{Position, ReadResult, Refusal, Set, Verdict};
use std::io;
use std::rt::Files;

// How many lengths are tested between two lines of progress.
const STEP: u32 = 50000;

// How many lengths a set has, 0 where the opening stops it.
fn lengths_of(x: Set) -> u32 {
    load_cycles::begin(x).map_or(0, |end| end.saturating_sub(1))
}

// Who reads standard error, and how many lengths there are.
#[derive(Clone, Copy)]
struct Reader<'a, R: Eprint> {
    rt: &'a R,
    all: u32,
}

impl<R: Eprint> Listener for Reader<'_, R> {
    // Tells on standard error how far the check is. The check goes on where nothing takes that.
    fn tell(&mut self, next: Position) {
        let line = check_lines::progress_line(next.next.saturating_sub(1), self.all);
        let _ = file_io::warn(self.rt, line);
    }
}

// Calls one after the other, each followed by a line of progress, until the verdict falls.
fn check(rt: &impl Eprint, x: Set) -> Verdict
    ensures { VerdictOf x result }
{
    let all = lengths_of(x);
    load_resume::told_in_calls(x, STEP, &mut Reader { rt, all })
}

// The verdict of a sheet, from what it reads as: a refused sheet's is its refusal.
fn sheet_check(rt: &impl Eprint, a: Result<(), Refusal>, x: Set) -> Verdict
    ensures { SheetVerdict a x result }
{
    match a {
        Ok(()) => check(rt, x),
        Err(why) => Verdict::Refused(why),
    }
}

// The verdict of the set in set.bin, and for a late one what the demand is made of.
pub fn run(rt: &(impl Files + Print + Eprint)) -> io::Result<()> {
    let ReadResult { answer, set } = file_io::read_sheet(rt)?;
    let v = sheet_check(rt, answer, set);
    let mut out = [0u8; file_io::LARGE_BUFFER];
    let n = check_lines::show(set, v, &mut out);
    let len = page::within(n, &out);
    rt.write_all(&out[..len])
}
