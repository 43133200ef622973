// Is a state well formed? And the readers that the steps use.
#![tactic(auto)]

ghost use Rattle.std.specs.Prelude.{◌≡◌, cond};
ghost use Rattle.std.specs.List.{list_all};
ghost use Rattle.rules.specs.States.{no_message, message_ok, message_unused, posted_at, task_of, well_formed};
ghost use Rattle.state_formed.specs.InRange.{messages_pass, waits_left, tested_of, whole_of};

use rules::{Message, Set, State, Stream};
use state_parties::Held;

pub fn no_message() -> Message
    ensures { result ≡ no_message }
{
    Message {
        stream: 0,
        deadline: 0,
        used: 0,
        stage: 0,
    }
}

#[tactic(auto, unfolding(rules::specs::States::message_unused))]
fn message_unused(m: &Message) -> bool
    ensures { result ≡ message_unused m.now }
{
    m.stream == 0 && m.deadline == 0 && m.used == 0 && m.stage == 0
}

fn places_unused(places: &[Message]) -> bool
    ensures { result ≡ list_all message_unused places.now }
{
    places.iter().all(message_unused)
}

// ---- the pending messages

// The clock at which a message was posted, and the task of its stage, where it keeps the rules of a message behind one that was posted at `before`: it names
// a stream of the set and one of its stages, has used less than that stage's c, and was posted by now and not before the one in front of it.
fn stands(set: &Set, clock: u32, before: u32, m: &Message) -> Option<(u32, usize)>
    ensures { result ≡ cond (message_ok set.now clock before m.now) (Some (posted_at set.now m.now, task_of set.now m.now)) None }
{
    let stream = set.streams.get(m.stream)?;
    let stage = stream.stages.get(m.stage)?;
    let posted = m.deadline.checked_sub(stream.deadline)?;
    if set.count <= m.stream
        || stream.depth <= m.stage
        || stage.cost <= m.used
        || clock < posted
        || posted < before
    {
        return None;
    }
    Some((posted, stage.task))
}

// Each message keeps its rules, and is its task's only started one.
fn messages_pass(set: &Set, clock: u32, pending: &[Message]) -> bool
    ensures { result ≡ messages_pass set.now clock pending.now }
{
    let mut started = [false; 16];
    let mut before = 0;
    for m in pending {
        let Some((posted, task)) = stands(set, clock, before, m) else {
            return false;
        };
        if 0 < m.used && task < 16 {
            if started[task] {
                return false;
            }
            started[task] = true;
        }
        before = posted;
    }
    true
}

// ---- the waits

// What a unit that moves the clock leaves of the waits, where each is at most what its stream's door allows.
fn waits_left(streams: &[Stream; 16], waits: &[u32; 16]) -> Option<[u32; 16]>
    ensures { result ≡ waits_left streams.now waits.now }
{
    let mut later = *waits;
    for (k, stream) in streams.iter().enumerate() {
        let door = stream_doors::door_of(stream);
        if !stream_doors::may_wait(door, waits[k]) {
            return None;
        }
        later[k] = stream_doors::wait_later(door, waits[k]);
    }
    Some(later)
}

// ---- the whole

// What is told of a state whose tests pass: what a unit that moves the clock leaves of the waits, and how many pending messages each party has.
#[derive(Clone, Copy)]
pub struct Tested {
    pub later: [u32; 16],
    pub held: Held,
}

// The tests of a state but for the first, that its set is valid: of its messages, the places behind them, its waits and its parties.
pub fn formed(s: &State) -> Option<Tested>
    ensures { result ≡ tested_of s.now }
{
    if 64 < s.count || rules::LAST_CLOCK < s.clock {
        return None;
    }
    let (pending, unused) = s.messages.split_at(s.count);
    if !messages_pass(&s.set, s.clock, pending) || !places_unused(unused) {
        return None;
    }
    let later = waits_left(&s.set.streams, &s.waits)?;
    let held = state_parties::share(pending, &s.owners, s.set.count, s.places).ok()?;
    Some(Tested { later, held })
}

// What the tests of a state say, its set's first.
pub fn inspect(s: &State) -> Option<Tested>
    ensures { result ≡ whole_of s.now }
{
    if stream_valid::is_valid(s.set) {
        formed(s)
    } else {
        None
    }
}

// Is the state well formed?
pub fn well_formed(s: &State) -> bool
    ensures { result ≡ well_formed s.now }
{
    inspect(s).is_some()
}
