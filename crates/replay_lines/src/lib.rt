// The replay program: the steps of a recording, and all that is printed.
#![tactic(auto)]

ghost use Rattle.std.specs.Prelude.{◌≡◌, ◌++◌};
ghost use Rattle.line.specs.Line.{holding};
ghost use Rattle.replay_lines.specs.Replaying.{Begun, goes_on, next_replaying, next_line, replaying_after, line_after, PageFilled};

use line::Line;
use rules::{CallAnswer, Place, ReadResult, Refusal, State};

// A replay under way: the scheduler's state, the reader's place in the recording, and whether the replay goes on.
#[derive(Clone, Copy)]
pub struct Replaying {
    pub state: State,
    pub place: Place,
    pub live: bool,
}

// A replay under way, and the line that is printed on the way there.
#[derive(Clone, Copy)]
pub struct ReplayTurn {
    pub replaying: Replaying,
    pub line: Line,
}

// ---- the first line

// The verdict of a sheet, and the replay at the start of its set; a refused sheet has no steps.
pub fn begin_replay(r: ReadResult) -> ReplayTurn
    ensures { Begun r result }
{
    let first = trace_steps::begin_trace(r);
    let replaying = Replaying {
        state: first.tracing.state,
        place: Place { byte: 0, bit: 0 },
        live: first.tracing.live,
    };
    ReplayTurn {
        replaying,
        line: first.line,
    }
}

// ---- a step

// End and a refusal of the replay itself stop it; a call does not, whatever it answers.
fn goes_on(a: Result<Option<CallAnswer>, Refusal>) -> bool
    ensures { result ≡ goes_on a }
{
    matches!(a, Ok(Some(_)))
}

fn stepped(recording: &[u8], r: Replaying) -> ReplayTurn
    ensures { result ≡ record { replaying = next_replaying recording.now r; line = holding (next_line recording.now r) } }
{
    let clock = r.state.clock;
    let q = replay_step::step(recording, r.place, r.state);
    let line = answer_words::replay_line(clock, q.answer);
    let replaying = Replaying {
        state: q.state,
        place: q.place,
        live: goes_on(q.answer),
    };
    ReplayTurn { replaying, line }
}

// One more step.
pub fn take_step(recording: &[u8], r: Replaying) -> ReplayTurn
    ensures { result ≡ record { replaying = replaying_after recording.now r; line = holding (line_after recording.now r) } }
{
    if r.live {
        stepped(recording, r)
    } else {
        ReplayTurn {
            replaying: r,
            line: line::blank(),
        }
    }
}

// ---- a page

// A replay after a page of its lines, and how many bytes of the page they have filled.
#[derive(Clone, Copy)]
pub struct Filled {
    pub replaying: Replaying,
    pub len: usize,
}

// As many steps as the page has room for lines, their lines on the page.
pub fn fill(recording: &[u8], replaying: Replaying, out: &mut [u8]) -> Filled
    ensures { PageFilled recording.now replaying out.old result.replaying result.len out.new }
{
    let mut r = replaying;
    let mut at = 0;
    let steps = out.len() / line::ROOM;
    for _ in 0..steps {
        let t = take_step(recording, r);
        at = page::append(out, at, t.line);
        r = t.replaying;
    }
    Filled {
        replaying: r,
        len: at,
    }
}
