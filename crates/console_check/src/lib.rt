// The console's check in calls: what each command leaves of the position that the console holds, and what it prints.
#![tactic(auto)]

ghost use Rattle.std.specs.Prelude.{◌≡◌};
ghost use Rattle.console_check.specs.CheckCommands.{first_position, go_keeps, Opens, Goes, Puts, Checked, OnLine};

use console_names::{CheckCommand, NUMBERS};
use line::Line;
use rules::{Position, Progress, Refusal, Set};

// The position that the console holds after a command, and the line that is printed.
#[derive(Clone, Copy)]
pub struct CheckAfter {
    pub position: Position,
    pub line: Line,
}

// What the console holds at first.
pub fn first() -> Position
    ensures { result ≡ first_position }
{
    Position {
        set: stream_valid::empty_set(),
        next: 1,
    }
}

// With a verdict the position stays.
fn opened(x: Set, p: Position) -> CheckAfter
    ensures { OnLine (Opens x p) result }
{
    let begun = load_resume::open(x);
    CheckAfter {
        position: begun.unwrap_or(p),
        line: answer_words::open_line(begun),
    }
}

// Only a next position moves it.
fn moved(tested: Result<Progress, Refusal>, p: Position) -> Position
    ensures { result ≡ go_keeps tested p }
{
    match tested {
        Ok(Progress::Next(_, next)) => next,
        Ok(Progress::Falls(_, _)) => p,
        Err(_) => p,
    }
}

fn gone(p: Position, n: u32) -> CheckAfter
    ensures { OnLine (Goes p n) result }
{
    let tested = load_resume::go(p, n);
    CheckAfter {
        position: moved(tested, p),
        line: answer_words::go_line(tested),
    }
}

// The console's set, at any length.
fn put(x: Set, i: u32) -> CheckAfter
    ensures { OnLine (Puts x i) result }
{
    CheckAfter {
        position: Position { set: x, next: i },
        line: console_words::put_line(),
    }
}

// What a command leaves of the position, where the console holds the set x, and the line that it prints.
pub fn after(x: Set, p: Position, k: CheckCommand, n: [u32; NUMBERS]) -> CheckAfter
    ensures { OnLine (Checked k n x p) result }
{
    match k {
        CheckCommand::Open => opened(x, p),
        CheckCommand::Go => gone(p, n[0]),
        CheckCommand::Resume => put(x, n[0]),
    }
}
