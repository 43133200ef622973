// The trace program: the steps that the bytes of a trace ask for, and all that is printed.
#![tactic(auto)]

ghost use Rattle.std.specs.Prelude.{Ok, Err, ◌≡◌, true, false, ◌++◌, [], ◌+◌, ◌*◌, ◌≤◌, length, drop};
ghost use Rattle.line.specs.Line.{line_room, holding};
ghost use Rattle.trace_steps.specs.Turns.{tracing_from, Beginning, going, next_tracing, next_text, tracing_after, text_after, tracing_on, text_on, Ending, PieceTraced};

use line::Line;
use rules::{Call, ReadResult, Refusal, Set, State, Verdict};
use trace_bytes::Heard;

// A trace under way: the scheduler's state, whether a p waits for its digit, and whether the trace goes on.
#[derive(Clone, Copy)]
pub struct Tracing {
    pub state: State,
    pub waiting: bool,
    pub live: bool,
}

// A trace under way, and the line that is printed on the way there.
#[derive(Clone, Copy)]
pub struct Turn {
    pub tracing: Tracing,
    pub line: Line,
}

// ---- the first line

fn tracing_from(x: Set, live: bool) -> Tracing
    ensures { result ≡ tracing_from x live }
{
    Tracing {
        state: scheduler::start(x).state,
        waiting: false,
        live,
    }
}

// The verdict of a sheet, and the trace at the start of its set; a refused sheet has no steps.
pub fn begin_trace(r: ReadResult) -> Turn
    ensures { Beginning r result }
{
    let answer = r.answer;
    let set = r.set;
    let line = answer_words::verdict_line(load_check::sheet_verdict(answer, set));
    let tracing = tracing_from(set, answer.is_ok());
    Turn { tracing, line }
}

// ---- a byte

fn turn_at(state: State, line: Line) -> Turn
    ensures { result ≡ record { tracing = going state false; line = line } }
{
    let tracing = Tracing {
        state,
        waiting: false,
        live: true,
    };
    Turn { tracing, line }
}

fn stepped(s: State, c: Call) -> Turn
    ensures { result ≡ record { tracing = next_tracing s (Ok (Heard.Makes c)); line = holding (next_text s (Ok (Heard.Makes c))) } }
{
    let clock = s.clock;
    let r = scheduler::call(s, c);
    turn_at(r.state, answer_words::call_line(clock, r.answer))
}

fn refused(s: State, why: Refusal) -> Turn
    ensures { result ≡ record { tracing = next_tracing s (Err why); line = holding (next_text s (Err why)) } }
{
    let tracing = Tracing {
        state: s,
        waiting: false,
        live: false,
    };
    let line = answer_words::verdict_line(Verdict::Refused(why));
    Turn { tracing, line }
}

fn skipped(s: State, waiting: bool) -> Turn
    ensures { result ≡ record { tracing = going s waiting; line = holding [] } }
{
    let tracing = Tracing {
        state: s,
        waiting,
        live: true,
    };
    let line = line::blank();
    Turn { tracing, line }
}

fn heard(s: State, h: Result<Heard, Refusal>) -> Turn
    ensures { result ≡ record { tracing = next_tracing s h; line = holding (next_text s h) } }
{
    match h {
        Ok(Heard::Skip) => skipped(s, false),
        Ok(Heard::More) => skipped(s, true),
        Ok(Heard::Makes(c)) => stepped(s, c),
        Err(why) => refused(s, why),
    }
}

// One more byte.
pub fn take_byte(t: Tracing, b: u8) -> Turn
    ensures { result ≡ record { tracing = tracing_after t b; line = holding (text_after t b) } }
{
    let live = t.live;
    if live {
        let s = t.state;
        let waiting = t.waiting;
        heard(s, trace_bytes::hear(waiting, b))
    } else {
        let line = line::blank();
        Turn { tracing: t, line }
    }
}

// ---- a piece

// A trace after a piece of it, and how many bytes of the page it has filled.
#[derive(Clone, Copy)]
pub struct Fed {
    pub tracing: Tracing,
    pub len: usize,
}

// The bytes of a piece one after the other, their lines on the page: a line's room for each is enough.
fn feed(tracing: Tracing, piece: &[u8], out: &mut [u8]) -> Fed
    requires { length piece.now * line_room ≤ length out.old }
    ensures { (result.tracing ≡ tracing_on tracing piece.now) × ((result.len ≡ length (text_on tracing piece.now)) × (out.new ≡ text_on tracing piece.now ++ drop (length (text_on tracing piece.now)) out.old)) }
{
    let mut r = tracing;
    let mut at = 0;
    for b in piece {
        let t = take_byte(r, *b);
        at = page::append(out, at, t.line);
        r = t.tracing;
    }
    Fed {
        tracing: r,
        len: at,
    }
}

// A piece of the trace, where the page has room for whatever it may print; else nothing is taken.
pub fn take_piece(tracing: Tracing, piece: &[u8], out: &mut [u8]) -> Fed
    ensures { PieceTraced tracing piece.now out.old result.tracing result.len out.new }
{
    if piece.len() <= out.len() / line::ROOM {
        feed(tracing, piece, out)
    } else {
        Fed { tracing, len: 0 }
    }
}

// What the end of the trace prints: a line where a p still waits for its digit.
pub fn end_line(t: Tracing) -> Line
    ensures { Ending t result }
{
    let live = t.live;
    if live {
        let s = t.state;
        let waiting = t.waiting;
        let last = heard(s, trace_bytes::at_end(waiting));
        let line = last.line;
        line
    } else {
        line::blank()
    }
}
