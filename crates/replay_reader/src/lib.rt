// The office reader: a lent recording together with the place in it. The work of a step stands in `replay_step`.
#![tactic(auto)]

ghost use Rattle.std.specs.Prelude.{◌≡◌};
ghost use Rattle.replay_reader.specs.Readers.{at_start, next_of};

use rules::{CallAnswer, Place, Refusal, State};

// A lent recording, and the place of the next step in it.
#[derive(Clone, Copy)]
pub struct Reader<'a> {
    pub recording: &'a [u8],
    pub place: Place,
}

// What a step gives: the answer, the state, and the reader.
#[derive(Clone, Copy)]
pub struct Step<'a> {
    pub answer: Result<Option<CallAnswer>, Refusal>,
    pub state: State,
    pub reader: Reader<'a>,
}

// A reader at the start of a recording.
pub fn make<'a>(recording: &'a [u8]) -> Reader<'a>
    ensures { result ≡ at_start recording.entry }
{
    Reader {
        recording,
        place: Place { byte: 0, bit: 0 },
    }
}

// One step: the reader stands behind the call, or where it stood if no call is made.
pub fn next<'a>(r: Reader<'a>, s: State) -> Step<'a>
    ensures { result ≡ next_of r.entry s }
{
    let step = replay_step::step(r.recording, r.place, s);
    Step {
        answer: step.answer,
        state: step.state,
        reader: Reader {
            recording: r.recording,
            place: step.place,
        },
    }
}
