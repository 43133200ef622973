// The things that documents 01 and 02 name, as the machine holds them. What they mean stands in specs/.
#![tactic(auto)]

// A tuple is either once at an offset, or every cycle z from an offset.
// `Once` comes first: the zero of a place is then once at 0, document 01's unused tuple.
#[derive(Clone, Copy)]
pub enum Tuple {
    // offset
    Once(u32),
    // cycle, offset
    Every(u32, u32),
}

// A place of a stream's array of tuples.
#[derive(Clone, Copy)]
pub struct TuplePlace {
    pub tuple: Tuple,
}

// A stage of a stream: a task and a cost c.
#[derive(Clone, Copy)]
pub struct Stage {
    pub task: usize,
    pub cost: u32,
}

// A stream: its depth, how many stages it has, and 4 places for them; its relative deadline d; how many tuples it has, and 4 places for them.
#[derive(Clone, Copy)]
pub struct Stream {
    pub depth: usize,
    pub stages: [Stage; 4],
    pub deadline: u32,
    pub count: usize,
    pub tuples: [TuplePlace; 4],
}

// A set: how many streams it has, and 16 places for them; the version of its sheet.
#[derive(Clone, Copy)]
pub struct Set {
    pub count: usize,
    pub streams: [Stream; 16],
    pub version: u32,
}

// A message: its stream, its absolute deadline, the units it has used in its stage, and its stage, from 0.
#[derive(Clone, Copy)]
pub struct Message {
    pub stream: usize,
    pub deadline: u32,
    pub used: u32,
    pub stage: usize,
}

// The two parties that share the message table: ours, and the partner's.
#[derive(Clone, Copy)]
pub enum Party {
    Ours,
    Theirs,
}

// How many places each party has.
#[derive(Clone, Copy)]
pub struct Places {
    pub ours: u32,
    pub theirs: u32,
}

// The state: a set, the clock, how many messages are pending, and 64 places for them in posting order; what each stream has left to wait at its door;
// each stream's owner, and the parties' numbers of places.
#[derive(Clone, Copy)]
pub struct State {
    pub set: Set,
    pub clock: u32,
    pub count: usize,
    pub messages: [Message; 64],
    pub waits: [u32; 16],
    pub owners: [Party; 16],
    pub places: Places,
}

// The door of a stream: none, one post for ever, or posts that are spaced by a cycle and an offset.
#[derive(Clone, Copy)]
pub enum Door {
    Unguarded,
    Single,
    // cycle, offset
    Spaced(u32, u32),
}

// "the clock is at most 4,000,000,000"
pub const LAST_CLOCK: u32 = 4000000000;

// "A full sheet is 378 bytes" in version 1; in version 2 it has 502.
pub const LONGEST_SHEET: usize = 502;

// Why a call is refused, and the number that the cab prints for it; specs/Numbers.antt says the same.
#[derive(Clone, Copy)]
pub enum Refusal {
    NoStream = 1,
    Full = 2,
    LastClock = 3,
    NothingPending = 4,
    BitsMissing = 5,
    BadVersion = 6,
    OutOfRule = 7,
    LongCycles = 8,
    BadByte = 9,
    Leftover = 10,
    ShortBuffer = 11,
    IllFormed = 12,
    StopsEarly = 13,
    Trailing = 14,
    Early = 15,
    Crowded = 16,
}

// A call that can be refused answers a `Result`: what it gives, or why it is refused.
#[derive(Clone, Copy)]
pub struct StartResult {
    pub answer: Result<(), Refusal>,
    pub state: State,
}

// An accepted post.
#[derive(Clone, Copy)]
pub struct Posted {
    pub stream: usize,
    pub deadline: u32,
}

#[derive(Clone, Copy)]
pub struct PostResult {
    pub answer: Result<Posted, Refusal>,
    pub state: State,
}

// The task that is chosen, and the stream of the message that it serves.
#[derive(Clone, Copy)]
pub struct Running {
    pub task: usize,
    pub stream: usize,
}

// What a unit did.
#[derive(Clone, Copy)]
pub enum Outcome {
    // task, stream
    Ran(usize, usize),
    // task, stream
    Passed(usize, usize),
    // task, stream, laxity
    Finished(usize, usize, i64),
    // task, stream, laxity
    Cut(usize, usize, i64),
    Idle,
}

#[derive(Clone, Copy)]
pub struct UnitResult {
    pub answer: Result<Outcome, Refusal>,
    pub state: State,
}

// A call: a post to a stream, or a unit, with done or without.
#[derive(Clone, Copy)]
pub enum Call {
    // stream
    Posts(usize),
    // done
    Units(bool),
}

#[derive(Clone, Copy)]
pub enum CallAnswer {
    ToPost(Result<Posted, Refusal>),
    ToUnit(Result<Outcome, Refusal>),
}

#[derive(Clone, Copy)]
pub struct CallResult {
    pub answer: CallAnswer,
    pub state: State,
}

#[derive(Clone, Copy)]
pub enum Verdict {
    Accept,
    // the least length where demand is above it, and that demand
    Late(u64, u64),
    Overload,
    Refused(Refusal),
}

#[derive(Clone, Copy)]
pub struct ReadResult {
    pub answer: Result<(), Refusal>,
    pub set: Set,
}

// A place in a string of bytes: a byte, and a bit behind its first.
#[derive(Clone, Copy)]
pub struct Place {
    pub byte: usize,
    pub bit: u32,
}

// A step of a replay: what the call answers, nothing where the recording ends, or why there is no step; the state, and the reader's place.
#[derive(Clone, Copy)]
pub struct ReplayResult {
    pub answer: Result<Option<CallAnswer>, Refusal>,
    pub state: State,
    pub place: Place,
}

// How a replay begins: what the sheet reads as, and the start of its set.
#[derive(Clone, Copy)]
pub struct ReplayStart {
    pub answer: Result<(), Refusal>,
    pub state: State,
}

// Where a check in calls stands: its set, and the next length to test.
#[derive(Clone, Copy)]
pub struct Position {
    pub set: Set,
    pub next: u32,
}

// What a call of a check comes to.
#[derive(Clone, Copy)]
pub enum Progress {
    // lengths tested, the next position
    Next(u32, Position),
    // lengths tested, the verdict
    Falls(u32, Verdict),
}
