// The console's service cable: what each command leaves of what is carried and of the set, and what it prints.
#![tactic(auto)]

ghost use Rattle.std.specs.Prelude.{◌≡◌};
ghost use Rattle.sheet_carried.specs.Reader.{start_of};
ghost use Rattle.sheet_read.specs.Cable.{feed_of};
ghost use Rattle.ascii.specs.Decimal.{letters};
ghost use Rattle.line.specs.Line.{holding};
ghost use Rattle.answer_words.specs.Words.{line_of};
ghost use Rattle.console_cable.specs.CableCommands.{fed_line, carried_behind, set_behind, closed_line, cable_after, cable_set_after, cable_line};

use console_names::CableCommand;
use line::Line;
use rules::Set;
use sheet_carried::Carried;

// What the console holds after a command, and the line that is printed.
#[derive(Clone, Copy)]
pub struct CableAfter {
    pub carried: Carried,
    pub set: Set,
    pub line: Line,
}

fn cable(x: Set) -> CableAfter
    ensures { result ≡ record { carried = start_of; set = x; line = holding (line_of (letters "put")) } }
{
    CableAfter {
        carried: sheet_read::cable(),
        set: x,
        line: console_words::put_line(),
    }
}

#[tactic(auto, unfolding(crate::specs::CableCommands::fed_line))]
fn feed(c: Carried, x: Set, piece: &[u8]) -> CableAfter
    ensures { result ≡ record { carried = (feed_of c piece.now).carried; set = x; line = holding (fed_line c piece.now) } }
{
    let r = sheet_read::feed(c, piece);
    CableAfter {
        carried: r.carried,
        set: x,
        line: console_words::feed_line(r.answer),
    }
}

// What no pieces could have left stays, and so does the set.
#[tactic(auto, unfolding(crate::specs::CableCommands::closed_line, crate::specs::CableCommands::set_behind, crate::specs::CableCommands::carried_behind))]
fn close(c: Carried, x: Set) -> CableAfter
    ensures { result ≡ record { carried = carried_behind c; set = set_behind c x; line = holding (closed_line c) } }
{
    let r = sheet_read::close(c);
    let line = console_words::read_line(r.answer, r.set.count);
    if sheet_carried::could_be_left(c) {
        CableAfter {
            carried: sheet_read::cable(),
            set: r.set,
            line,
        }
    } else {
        CableAfter {
            carried: c,
            set: x,
            line,
        }
    }
}

// A command; `piece` is the bytes behind `feed`, and no other looks at it.
pub fn after(c: Carried, x: Set, k: CableCommand, piece: &[u8]) -> CableAfter
    ensures { result ≡ record { carried = cable_after k piece.now c; set = cable_set_after k c x; line = holding (cable_line k piece.now c) } }
{
    match k {
        CableCommand::Cable => cable(x),
        CableCommand::Feed => feed(c, x, piece),
        CableCommand::Close => close(c, x),
    }
}
