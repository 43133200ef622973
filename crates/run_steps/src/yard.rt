// Sets and states to run on.
use rules::{Call, CallResult, Message, Set, Stage, State, Stream, Tuple, TuplePlace};
use std::io;

// Every 20 from 0.
fn cycle() -> TuplePlace {
    TuplePlace {
        tuple: Tuple::Every(20, 0),
    }
}

pub fn stream(task: usize, cost: u32, deadline: u32) -> Stream {
    let mut s = stream_valid::no_stream();
    s.tuples[0] = cycle();
    s.stages[0] = Stage { task, cost };
    s.depth = 1;
    s.deadline = deadline;
    s.count = 1;
    s
}

// The stream with a further stage, of which it has one.
pub fn then(mut s: Stream, task: usize, cost: u32) -> Stream {
    s.stages[1] = Stage { task, cost };
    s.depth = 2;
    s
}

// The stream with a second cycle: it has no door, and may be posted as one likes.
pub fn open(mut s: Stream) -> Stream {
    s.tuples[1] = cycle();
    s.count = 2;
    s
}

// A set of version 1 with these streams, the first sixteen of them.
pub fn set(streams: &[Stream]) -> Set {
    let mut x = stream_valid::empty_set();
    for (place, s) in x.streams.iter_mut().zip(streams) {
        *place = *s;
    }
    x.count = streams.len();
    x
}

// Document 01's set B.
pub fn set_b() -> Set {
    set(&[stream(0, 2, 5), stream(0, 4, 20), stream(1, 2, 8)])
}

// Version 2: a stream on task 1 and then on task 0, and one on task 0.
pub fn set_of_stages() -> Set {
    let mut x = set(&[open(then(stream(1, 2, 9), 0, 3)), stream(0, 4, 20)]);
    x.version = 2;
    x
}

pub fn begin(x: Set) -> State {
    scheduler::start(x).state
}

pub const UNIT: Call = Call::Units(false);

pub const DONE: Call = Call::Units(true);

// The calls, one after the other; each answer is printed.
pub fn play(rt: &impl Print, s: State, calls: &[Call]) -> io::Result<State> {
    let mut now = s;
    for c in calls {
        let CallResult { answer, state } = scheduler::call(now, *c);
        crate::say::call(rt, answer)?;
        now = state;
    }
    Ok(now)
}

pub fn with_message(mut s: State, at: usize, stream: usize, deadline: u32, used: u32) -> State {
    if let Some(m) = s.messages.get_mut(at) {
        *m = Message {
            stream,
            deadline,
            used,
            stage: 0,
        };
    }
    s
}

pub fn with_wait(mut s: State, k: usize, n: u32) -> State {
    if let Some(wait) = s.waits.get_mut(k) {
        *wait = n;
    }
    s
}

pub fn in_stage(mut s: State, at: usize, stage: usize) -> State {
    if let Some(m) = s.messages.get_mut(at) {
        m.stage = stage;
    }
    s
}
