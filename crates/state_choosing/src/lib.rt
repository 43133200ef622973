// Which pending message is served.
#![tactic(auto)]

ghost use Rattle.std.specs.Prelude.{◌≡◌, true, ◌<◌, IfOk, IfSome};
ghost use Rattle.rules.specs.States.{well_formed};
ghost use Rattle.rules.specs.Steps.{choose_of};
ghost use Rattle.state_choosing.specs.First.{goes_first};
ghost use Rattle.state_choosing.specs.ToServe.{serve_by, found_of, looked_of};

use rules::{Message, Refusal, Running, Set, State};

// A message that is served: its place, the task and the cost c of its stage, and whether that is its last.
#[derive(Clone, Copy)]
pub struct Served {
    pub place: usize,
    pub task: usize,
    pub cost: u32,
    pub last: bool,
}

// What looking tells of a well formed state: the message that is served, if one is pending, and what a unit that moves the clock leaves of the waits.
#[derive(Clone, Copy)]
pub struct Looked {
    pub served: Option<Served>,
    pub later: [u32; 16],
}

// Does a message of deadline d and task t go before one of deadline e and task u that was posted before it?
#[tactic(auto, unfolding(crate::specs::First::goes_first))]
fn goes_first(d: u32, t: usize, e: u32, u: usize) -> bool
    ensures { result ≡ goes_first d t e u }
{
    d < e || d == e && t < u
}

// The message m at a place, with what is told of its stage.
fn serve(set: &Set, place: usize, m: &Message) -> Served
    requires { (m.now.stream < 16) × (m.now.stage < 4) }
    ensures { result ≡ serve_by set.now place m.now }
{
    let stream = &set.streams[m.stream];
    let stage = &stream.stages[m.stage];
    Served {
        place,
        task: stage.task,
        cost: stage.cost,
        last: m.stage + 1 == stream.depth,
    }
}

// The message that is served, where one is pending. A first pass keeps the best message so far: of the least deadline, on a tie
// of the lowest task, on a tie the earliest posted. A second looks for the started message of its task, which is served before it.
fn found(s: &State) -> Served
    requires formed { well_formed s.now ≡ true }
    requires some { 0 < s.now.count }
    ensures told { result ≡ found_of s.now }
    ensures inside { result.place < s.now.count }
{
    let pending = &s.messages[..s.count];
    let mut best = serve(&s.set, 0, &pending[0]);
    let mut deadline = pending[0].deadline;
    for (k, m) in pending.iter().enumerate() {
        let here = serve(&s.set, k, m);
        if goes_first(m.deadline, here.task, deadline, best.task) {
            best = here;
            deadline = m.deadline;
        }
    }
    for (k, m) in pending.iter().enumerate() {
        if 0 < m.used {
            let started = serve(&s.set, k, m);
            if started.task == best.task {
                return started;
            }
        }
    }
    best
}

// What there is to serve. The state is tested here, once for a call.
pub fn look(s: &State) -> Result<Looked, Refusal>
    ensures told { result ≡ looked_of s.now }
    ensures inside { IfOk result (λ r. IfSome r.served (λ it. it.place < s.now.count)) }
{
    let tested = state_formed::inspect(s).ok_or(Refusal::IllFormed)?;
    let served = if s.count == 0 { None } else { Some(found(s)) };
    let later = tested.later;
    Ok(Looked { served, later })
}

// The task that runs and the stream of the message that it serves, none, or 12.
pub fn choose(s: &State) -> Result<Option<Running>, Refusal>
    ensures { result ≡ choose_of s.now }
{
    match look(s)?.served {
        None => Ok(None),
        Some(it) => Ok(Some(Running {
            task: it.task,
            stream: s.messages[it.place].stream,
        })),
    }
}
