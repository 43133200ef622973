// Demand 3 of the code itself: a set is judged, started and run with the library's functions, and the contract carries the promise.
#![tactic(auto)]

ghost use Rattle.promise_code.specs.Promised.{Promised};
ghost use Rattle.scheduler_run.specs.Calls.{calls_of};

use rules::{Set, State, Verdict};

// The verdict on a set, the last state of a run of it, and whether a message was pending at its deadline at any moment.
#[derive(Clone, Copy)]
pub struct JudgedRun {
    pub verdict: Verdict,
    pub missed: bool,
    pub state: State,
}

// The set is judged, and then run from its start; a byte is a call as `scheduler_run` reads it (`call_byte`).
pub fn judged_run(x: Set, calls: &[u8]) -> JudgedRun
    ensures { Promised x (calls_of calls.now) result }
{
    let verdict = load_check::verdict(x);
    let end = scheduler_run::run(x, calls);
    JudgedRun {
        verdict,
        missed: end.missed,
        state: end.state,
    }
}
