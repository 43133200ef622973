// A run of the scheduler from a fresh start: calls from a lent slice, one byte each.
#![tactic(auto)]

ghost use Rattle.std.specs.Prelude.{◌≡◌};
ghost use Rattle.rules.specs.Steps.{call_of};
ghost use Rattle.rules.specs.Runs.{start_at, run_from, run_of, missed_now};
ghost use Rattle.scheduler_run.specs.Calls.{call_byte, calls_of, EndOf};

use rules::{Set, State};

// How a run ends: its last state, and whether a message was pending at its deadline at any moment.
#[derive(Clone, Copy)]
pub struct Ended {
    pub state: State,
    pub missed: bool,
}

// The state after the call of a byte: below 16 a post to that stream, 16 a unit, any other a unit with done.
#[tactic(auto, unfolding(crate::specs::Calls::call_byte, rules::specs::Steps::call_of))]
fn called(s: State, b: u8) -> State
    ensures { result ≡ (call_of s (call_byte b)).state }
{
    if b < 16 {
        scheduler::post(s, usize::from(b)).state
    } else {
        scheduler::unit(s, b != 16).state
    }
}

// The state after the calls, one after the other, from a state. A function of its own: with the start beside the loop, the compiler copies the state more often at each call.
fn after(s: State, calls: &[u8]) -> State
    ensures { result ≡ (run_from (start_at s) (calls_of calls.now)).state }
{
    let mut next = s;
    for b in calls {
        next = called(next, *b);
    }
    next
}

// The same from the start of the set.
pub fn last_state(x: Set, calls: &[u8]) -> State
    ensures { result ≡ (run_of x (calls_of calls.now)).state }
{
    after(scheduler::start(x).state, calls)
}

// Has the clock reached the deadline of a pending message?
#[tactic(auto, unfolding(rules::specs::Runs::missed_now))]
pub fn missed_now(s: &State) -> bool
    ensures { result ≡ missed_now s.now }
{
    s.messages
        .iter()
        .take(s.count)
        .any(|m| !(s.clock < m.deadline))
}

// The same run, and whether a message was pending at its deadline, at the start or after any call.
pub fn run(x: Set, calls: &[u8]) -> Ended
    ensures { EndOf x calls.now result }
{
    let mut s = scheduler::start(x).state;
    let mut missed = missed_now(&s);
    for b in calls {
        s = called(s, *b);
        missed |= missed_now(&s);
    }
    Ended { state: s, missed }
}
