// A step of a replay: what the bits at a place of a recording say, and the call that they make.
#![tactic(auto)]

ghost use Rattle.std.specs.Prelude.{◌≡◌, ◌+◌, ◌<◌, ◌^◌, drop};
ghost use Rattle.laws.specs.Bits.{bits};
ghost use Rattle.rules.specs.Recordings.{bit_at, end_mark, post_mark, kind_mark, mark_of, replay_step, begun_by, replay_start};
ghost use Rattle.replay_step.specs.Steps.{Behind};

use rules::{
    Call, CallAnswer, Party, Place, Places, Refusal, ReplayResult, ReplayStart, StartResult, State,
};

// ---- what the bits at a place say

// The end at a place: behind it come fewer than 8 bits, all zero.
fn end_at(recording: &[u8], at: Place) -> Result<Option<Call>, Refusal>
    ensures { result ≡ end_mark (drop (bit_at at) (bits recording.now)) }
{
    let rest = bits::gather(recording, at, 8);
    if (rest.got < 8) & (rest.value == 0) {
        Ok(None)
    } else {
        Err(Refusal::Trailing)
    }
}

// A post: 4 bits of stream.
fn post_at(recording: &[u8], at: Place) -> Result<Option<Call>, Refusal>
    ensures { result ≡ post_mark (drop (bit_at at) (bits recording.now)) }
{
    let k = bits::take(recording, at, 4).map_err(|_| Refusal::StopsEarly)?;
    Ok(Some(Call::Posts(k as usize)))
}

// A kind, and what comes behind it at a place.
fn kind_at(kind: u64, recording: &[u8], at: Place) -> Result<Option<Call>, Refusal>
    ensures { result ≡ kind_mark kind (drop (bit_at at) (bits recording.now)) }
{
    match kind {
        0 => post_at(recording, at),
        1 => Ok(Some(Call::Units(false))),
        2 => Ok(Some(Call::Units(true))),
        _ => end_at(recording, at),
    }
}

fn mark_at(recording: &[u8], at: Place) -> Result<Option<Call>, Refusal>
    requires { at.bit < 8 }
    ensures { result ≡ mark_of (drop (bit_at at) (bits recording.now)) }
{
    let behind = Place {
        byte: at.byte,
        bit: at.bit + 2,
    };
    let kind = bits::take(recording, at, 2).map_err(|_| Refusal::StopsEarly)?;
    kind_at(kind, recording, behind)
}

// ---- a step

// kept: the literal, in four places, is no plainer.
fn standing(a: Result<Option<CallAnswer>, Refusal>, s: State, at: Place) -> ReplayResult
    ensures { result ≡ record { answer = a; state = s; place = at } }
{
    ReplayResult {
        answer: a,
        state: s,
        place: at,
    }
}

// The call is made, and the reader stands behind it.
fn made(s: State, c: Call, at: Place) -> ReplayResult
    requires { (at.bit < 8) × (at.byte + 1 < 2 ^ 64) }
    ensures { result ≡ Behind s c at }
{
    let q = scheduler::call(s, c);
    let behind = bits::after(at, record_call::width(c));
    standing(Ok(Some(q.answer)), q.state, behind)
}

// One step of a replay, or end, 12, 13 or 14, which leave state and place as they are.
pub fn step(recording: &[u8], at: Place, s: State) -> ReplayResult
    ensures { result ≡ replay_step s recording.now at }
{
    let formed = state_formed::well_formed(&s);
    let inside = record_call::place_in(recording, at);
    if !(formed & inside) {
        return standing(Err(Refusal::IllFormed), s, at);
    }
    match mark_at(recording, at) {
        Ok(Some(c)) => made(s, c, at),
        Ok(None) => standing(Ok(None), s, at),
        Err(why) => standing(Err(why), s, at),
    }
}

// ---- the start

// What reading answers, and behind it the start.
fn begun(a: Result<(), Refusal>, r: StartResult) -> ReplayStart
    ensures { result ≡ begun_by a r }
{
    match a {
        Ok(()) => ReplayStart {
            answer: r.answer,
            state: r.state,
        },
        Err(why) => ReplayStart {
            answer: Err(why),
            state: scheduler::start(stream_valid::empty_set()).state,
        },
    }
}

// The start of the set that a sheet reads as, with the cab's owners and places; where either is refused, that of the empty set.
pub fn start(sheet: &[u8], owners: [Party; 16], places: Places) -> ReplayStart
    ensures { result ≡ replay_start sheet.now owners places }
{
    let r = sheet_read::read(sheet);
    let started = scheduler::start_for(r.set, owners, places);
    begun(r.answer, started)
}
