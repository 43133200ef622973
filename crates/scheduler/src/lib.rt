// The steps of the scheduler: start, post, choose and unit.
#![tactic(auto)]

ghost use Rattle.std.specs.Prelude.{◌≡◌, ◌<◌};
ghost use Rattle.rules.specs.Steps.{fresh_for, start_refused, start_for, start_of, post_of, choose_of, laxity_of, unit_of, call_of};
ghost use Rattle.scheduler.specs.Serving.{served_answer, stepped_on};

use rules::{
    Call, CallAnswer, CallResult, Message, Outcome, Party, Places, PostResult, Posted, Refusal,
    Running, Set, StartResult, State, UnitResult,
};
use state_choosing::Looked;

// ---- start

fn fresh_state(x: Set, owners: [Party; 16], places: Places) -> State
    ensures { result ≡ fresh_for x owners places }
{
    let messages = [state_formed::no_message(); 64];
    State {
        set: x,
        clock: 0,
        count: 0,
        messages,
        waits: [0; 16],
        owners,
        places,
    }
}

// The start of the empty set, with the reason why there is no other.
fn no_start(why: Refusal) -> StartResult
    ensures { result ≡ start_refused why }
{
    let state = fresh_state(
        stream_valid::empty_set(),
        state_parties::all_ours(),
        state_parties::all_places(),
    );
    StartResult {
        answer: Err(why),
        state,
    }
}

// A valid set's start, with its streams' owners and the parties' places; 7 for any other set, 16 for more places than there are.
#[tactic(auto, unfolding(rules::specs::Steps::start_for))]
pub fn start_for(x: Set, given: [Party; 16], places: Places) -> StartResult
    ensures { result ≡ start_for x given places }
{
    if !stream_valid::is_valid(x) {
        return no_start(Refusal::OutOfRule);
    }
    if !state_parties::places_fit(places) {
        return no_start(Refusal::Crowded);
    }
    let owners = state_parties::owners_for(x.count, given);
    let state = fresh_state(x, owners, places);
    StartResult {
        answer: Ok(()),
        state,
    }
}

// All streams ours, with all places.
pub fn start(x: Set) -> StartResult
    ensures { result ≡ start_of x }
{
    start_for(x, state_parties::all_ours(), state_parties::all_places())
}

// ---- post

// A message of the stream k, which counts at its door, or 12, 1, 15 or 2, which change nothing.
fn add(s: &mut State, k: usize) -> Result<Posted, Refusal>
    ensures { record { answer = result; state = s.new } ≡ post_of s.old k }
{
    let tested = state_formed::inspect(s).ok_or(Refusal::IllFormed)?;
    if s.set.count <= k {
        return Err(Refusal::NoStream);
    }
    let stream = s.set.streams[k];
    let door = stream_doors::door_of(&stream);
    let wait = s.waits[k];
    if stream_doors::is_shut(door, wait) {
        return Err(Refusal::Early);
    }
    if !state_parties::has_place(s.owners[k], tested.held, s.places) {
        return Err(Refusal::Full);
    }
    let deadline = s.clock + stream.deadline;
    s.messages[s.count] = Message {
        stream: k,
        deadline,
        used: 0,
        stage: 0,
    };
    s.count += 1;
    s.waits[k] = stream_doors::wait_after(door, wait) as u32;
    Ok(Posted {
        stream: k,
        deadline,
    })
}

// A message of the stream k is added, or the post is refused.
pub fn post(s: State, k: usize) -> PostResult
    ensures { result ≡ post_of s k }
{
    let mut state = s;
    let answer = add(&mut state, k);
    PostResult { answer, state }
}

// ---- choose

// The task that runs and the stream of the message that it serves, none, or 12.
pub fn choose(s: State) -> Result<Option<Running>, Refusal>
    ensures { result ≡ choose_of s }
{
    state_choosing::choose(&s)
}

// ---- unit

fn laxity(deadline: u32, clock: u32) -> i64
    ensures { result ≡ laxity_of deadline clock }
{
    i64::from(deadline) - i64::from(clock)
}

// What is answered when the message m of the task was served: now is the clock after the unit, spent whether its used units equal c, last whether its stage
// is its last.
#[tactic(auto, unfolding(crate::specs::Serving::served_answer))]
fn served(task: usize, m: Message, now: u32, done: bool, spent: bool, last: bool) -> Outcome
    ensures { result ≡ served_answer task m now done spent last }
{
    let left = laxity(m.deadline, now);
    if done && last {
        Outcome::Finished(task, m.stream, left)
    } else if done {
        Outcome::Passed(task, m.stream)
    } else if spent {
        Outcome::Cut(task, m.stream, left)
    } else {
        Outcome::Ran(task, m.stream)
    }
}

// A message that stays, after its unit: passed on to its next stage with no unit used, or with a unit more.
#[tactic(auto, unfolding(crate::specs::Serving::stepped_on))]
fn stepped(m: Message, done: bool) -> Message
    requires { (m.used < 65535) × (m.stage < 4) }
    ensures { result ≡ stepped_on m done }
{
    if done {
        Message {
            used: 0,
            stage: m.stage + 1,
            ..m
        }
    } else {
        Message {
            used: m.used + 1,
            ..m
        }
    }
}

// A unit of running, or 12, 3 or 4, which change nothing. Where it moves the clock, less is left to wait at the doors. Where the message leaves, those behind
// it move up, in their order, and the place of the last is zero.
fn run(s: &mut State, done: bool) -> Result<Outcome, Refusal>
    ensures { record { answer = result; state = s.new } ≡ unit_of s.old done }
{
    let Looked {
        served: found,
        later,
    } = state_choosing::look(s)?;
    if rules::LAST_CLOCK <= s.clock {
        return Err(Refusal::LastClock);
    }
    let Some(it) = found else {
        if done {
            return Err(Refusal::NothingPending);
        }
        s.clock += 1;
        s.waits = later;
        return Ok(Outcome::Idle);
    };
    let m = s.messages[it.place];
    let spent = m.used + 1 == it.cost;
    s.clock += 1;
    s.waits = later;
    let outcome = served(it.task, m, s.clock, done, spent, it.last);
    let leaves = if done { it.last } else { spent };
    if leaves {
        let end = s.count - 1;
        for k in it.place..end {
            s.messages[k] = s.messages[k + 1];
        }
        s.messages[end] = state_formed::no_message();
        s.count = end;
    } else {
        s.messages[it.place] = stepped(m, done);
    }
    Ok(outcome)
}

// A unit of running, or why there is none.
pub fn unit(s: State, done: bool) -> UnitResult
    ensures { result ≡ unit_of s done }
{
    let mut state = s;
    let answer = run(&mut state, done);
    UnitResult { answer, state }
}

// ---- a call

// A post or a unit.
#[tactic(auto, unfolding(rules::specs::Steps::call_of))]
pub fn call(s: State, c: Call) -> CallResult
    ensures { result ≡ call_of s c }
{
    match c {
        Call::Posts(k) => {
            let PostResult { answer, state } = post(s, k);
            CallResult {
                answer: CallAnswer::ToPost(answer),
                state,
            }
        }
        Call::Units(done) => {
            let UnitResult { answer, state } = unit(s, done);
            CallResult {
                answer: CallAnswer::ToUnit(answer),
                state,
            }
        }
    }
}
