// The console's desk: a line's command is obeyed, and what it prints goes on the page. Which command a line is is decided in
// `console_parse`, what it leaves and prints in the crate of its group.
#![tactic(auto)]

ghost use Rattle.std.specs.Prelude.{◌≡◌, true, ◌≤◌, length};
ghost use Rattle.ascii.specs.Hex.{unhexed};
ghost use Rattle.page.specs.Pages.{appended, end_of, room_for};
ghost use Rattle.console_parse.specs.Lines.{longest};
ghost use Rattle.console_ask.specs.Questions.{answer_room};
ghost use Rattle.console_obey.specs.Obeyed.{first_desk, Stepped, Obeys};

use console_names::{Command, NUMBERS};
use console_replay::Replay;
use console_state::Terms;
use line::Line;
use rules::{Position, Set, State};
use sheet_carried::Carried;

// What the console holds.
#[derive(Clone, Copy)]
pub struct Desk {
    pub set: Set,
    pub state: State,
    pub replay: Replay,
    pub carried: Carried,
    pub position: Position,
    pub terms: Terms,
}

// What the console holds after a command, and where the page ends.
#[derive(Clone, Copy)]
pub struct Step {
    pub desk: Desk,
    pub at: usize,
}

// What the console holds at first.
pub fn first() -> Desk
    ensures { result ≡ first_desk }
{
    let set = stream_valid::empty_set();
    Desk {
        set,
        state: scheduler::start(set).state,
        replay: console_replay::first(),
        carried: sheet_read::cable(),
        position: console_check::first(),
        terms: console_state::first(),
    }
}

// ---- every command

// What a command leaves, and the line that it prints put on the page.
fn put(desk: Desk, line: Line, out: &mut [u8], at: usize) -> Step
    ensures { (result ≡ record { desk = desk; at = end_of out.old at line }) × (out.new ≡ appended out.old at line) }
{
    let end = page::append(out, at, line);
    Step { desk, at: end }
}

// `bytes` are those that stand in hex in the command's text.
fn command_step(
    d: Desk,
    k: Command,
    n: [u32; NUMBERS],
    text: &[u8],
    bytes: &[u8],
    out: &mut [u8],
    at: usize,
) -> Step
    requires { (bytes.now ≡ unhexed text.now) × (room_for out.old at answer_room ≡ true) }
    ensures { Stepped d k n text.now out.old at result out.new }
{
    match k {
        Command::Nothing => Step { desk: d, at },
        Command::Unknown => put(d, console_words::unknown_line(), out, at),
        Command::Set(c) => {
            let a = console_set::after(d.set, c, n, bytes);
            put(Desk { set: a.set, ..d }, a.line, out, at)
        }
        Command::State(c) => {
            let a = console_state::after(d.set, d.state, d.terms, c, n);
            let desk = Desk {
                state: a.state,
                terms: a.terms,
                ..d
            };
            put(desk, a.line, out, at)
        }
        Command::Ask(q) => {
            let end = console_ask::ask(d.set, d.state, q, n, out, at);
            Step { desk: d, at: end }
        }
        Command::Replay(c) => {
            let r = console_replay::after(d.replay, d.state, c, n, bytes);
            let desk = Desk {
                state: r.state,
                replay: r.replay,
                ..d
            };
            put(desk, r.line, out, at)
        }
        Command::Record => {
            let end = console_replay::record_onto(n[0], text, out, at);
            Step { desk: d, at: end }
        }
        Command::Cable(c) => {
            let a = console_cable::after(d.carried, d.set, c, bytes);
            let desk = Desk {
                set: a.set,
                carried: a.carried,
                ..d
            };
            put(desk, a.line, out, at)
        }
        Command::Check(c) => {
            let a = console_check::after(d.set, d.position, c, n);
            let desk = Desk {
                position: a.position,
                ..d
            };
            put(desk, a.line, out, at)
        }
    }
}

// A command with its text, whose bytes are read from hex.
fn text_step(d: Desk, k: Command, n: [u32; NUMBERS], text: &[u8], out: &mut [u8], at: usize) -> Step
    requires { (length text.now ≤ longest) × (room_for out.old at answer_room ≡ true) }
    ensures { Stepped d k n text.now out.old at result out.new }
{
    let mut bytes = [0u8; console_parse::LONGEST / 2];
    let size = page_hex::unhex(text, &mut bytes);
    command_step(d, k, n, text, &bytes[..size], out, at)
}

// A line's command, obeyed: what the console then holds, and what is printed behind the first `at` bytes of a page. On a page that has
// not room for any answer nothing happens.
pub fn obey(d: Desk, line: &[u8], out: &mut [u8], at: usize) -> Step
    ensures { Obeys d line.now out.old at result out.new }
{
    if !page::has_room(out, at, console_ask::ROOM) {
        return Step { desk: d, at };
    }
    let o = console_parse::parse(line);
    text_step(d, o.command, o.numbers, &line[o.text..], out, at)
}
