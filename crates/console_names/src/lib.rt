// The console's commands by name, in groups, and what each asks for.
#![tactic(auto)]

ghost use Rattle.std.specs.Prelude.{◌≡◌, slice_set};
ghost use Rattle.console_names.specs.Rows.{wanted, found_in, row_of};

use Command::{Ask, Cable, Check, Replay, Set, State};

// The commands that change the set.
#[derive(Clone, Copy)]
pub enum SetCommand {
    Read,
    Streams,
    Stream,
    Once,
    Every,
    Version,
    Stages,
    Stage,
}

// The commands that change the state, and what a start uses.
#[derive(Clone, Copy)]
pub enum StateCommand {
    Start,
    Clock,
    Pending,
    Message,
    Post,
    Unit,
    Done,
    Staged,
    Door,
    Owner,
    Places,
    Owns,
    Room,
}

// The commands that ask, and change nothing.
#[derive(Clone, Copy)]
pub enum Question {
    Write,
    Valid,
    Limit,
    Demand,
    Jitter,
    Verdict,
    Choose,
    State,
    Formed,
}

// The commands of the replay.
#[derive(Clone, Copy)]
pub enum ReplayCommand {
    Recording,
    Next,
    Reader,
    Where,
}

// The commands of the service cable.
#[derive(Clone, Copy)]
pub enum CableCommand {
    Cable,
    Feed,
    Close,
}

// The commands of a check in calls.
#[derive(Clone, Copy)]
pub enum CheckCommand {
    Open,
    Go,
    Resume,
}

// What a line asks for.
#[derive(Clone, Copy)]
pub enum Command {
    // An empty line.
    Nothing,
    // No command: `?`.
    Unknown,
    Set(SetCommand),
    State(StateCommand),
    Ask(Question),
    Replay(ReplayCommand),
    // The recording of a trace.
    Record,
    Cable(CableCommand),
    Check(CheckCommand),
}

// What stands behind a command's numbers, where anything does.
#[derive(Clone, Copy)]
pub enum Text {
    Hex,
    // The steps of a trace.
    Steps,
}

// No command has more numbers.
pub const NUMBERS: usize = 5;

// A command, what each of its numbers may at most be, and what stands behind them.
#[derive(Clone, Copy)]
pub struct Row {
    pub command: Command,
    pub most: &'static [u32],
    pub text: Option<Text>,
}

// The bytes of the longest buffer.
pub const MOST_BYTES: u32 = 1024;

// The largest number.
const TOP: u32 = 4294967295;

// The commands by name: those that change the set, those that change the state and what a start uses, those that ask, those of the
// replay, of the service cable, and of a check in calls.
static ROWS: [(&[u8], Command, &[u32], Option<Text>); 41] = [
    (b"read", Set(SetCommand::Read), &[], Some(Text::Hex)),
    (b"streams", Set(SetCommand::Streams), &[TOP], None),
    (
        b"stream",
        Set(SetCommand::Stream),
        &[15, TOP, TOP, TOP, TOP],
        None,
    ),
    (b"once", Set(SetCommand::Once), &[15, 3, TOP], None),
    (b"every", Set(SetCommand::Every), &[15, 3, TOP, TOP], None),
    (b"version", Set(SetCommand::Version), &[TOP], None),
    (b"stages", Set(SetCommand::Stages), &[15, TOP], None),
    (b"stage", Set(SetCommand::Stage), &[15, 3, TOP, TOP], None),
    (b"start", State(StateCommand::Start), &[], None),
    (b"clock", State(StateCommand::Clock), &[TOP], None),
    (b"pending", State(StateCommand::Pending), &[TOP], None),
    (
        b"message",
        State(StateCommand::Message),
        &[63, TOP, TOP, TOP],
        None,
    ),
    (b"post", State(StateCommand::Post), &[TOP], None),
    (b"unit", State(StateCommand::Unit), &[], None),
    (b"done", State(StateCommand::Done), &[], None),
    (b"staged", State(StateCommand::Staged), &[63, TOP], None),
    (b"door", State(StateCommand::Door), &[15, TOP], None),
    (b"owner", State(StateCommand::Owner), &[15, 1], None),
    (b"places", State(StateCommand::Places), &[TOP, TOP], None),
    (b"owns", State(StateCommand::Owns), &[15, 1], None),
    (b"room", State(StateCommand::Room), &[TOP, TOP], None),
    (b"write", Ask(Question::Write), &[MOST_BYTES], None),
    (b"valid", Ask(Question::Valid), &[], None),
    (b"limit", Ask(Question::Limit), &[TOP, TOP], None),
    (b"demand", Ask(Question::Demand), &[TOP], None),
    (b"jitter", Ask(Question::Jitter), &[TOP, TOP], None),
    (b"verdict", Ask(Question::Verdict), &[], None),
    (b"choose", Ask(Question::Choose), &[], None),
    (b"state", Ask(Question::State), &[], None),
    (b"formed", Ask(Question::Formed), &[], None),
    (
        b"recording",
        Replay(ReplayCommand::Recording),
        &[],
        Some(Text::Hex),
    ),
    (b"next", Replay(ReplayCommand::Next), &[], None),
    (b"reader", Replay(ReplayCommand::Reader), &[TOP, TOP], None),
    (b"where", Replay(ReplayCommand::Where), &[], None),
    (b"record", Command::Record, &[MOST_BYTES], Some(Text::Steps)),
    (b"cable", Cable(CableCommand::Cable), &[], None),
    (b"feed", Cable(CableCommand::Feed), &[], Some(Text::Hex)),
    (b"close", Cable(CableCommand::Close), &[], None),
    (b"open", Check(CheckCommand::Open), &[], None),
    (b"go", Check(CheckCommand::Go), &[TOP], None),
    (b"resume", Check(CheckCommand::Resume), &[TOP], None),
];

// The row among these that w names.
#[tactic(auto, unfolding(crate::specs::Rows::found_in))]
fn found(w: &[u8], rows: &[(&[u8], Command, &'static [u32], Option<Text>)]) -> Option<Row>
    ensures { result ≡ found_in w.now rows.now }
{
    rows.iter().find(|(name, ..)| ascii::same(w, name)).map(|(_, command, most, text)| Row {
        command: *command,
        most: *most,
        text: *text,
    })
}

// The row of the command that has this name.
pub fn row_of(w: &[u8]) -> Row
    ensures { wanted result ≡ row_of w.now }
{
    found(w, &ROWS).unwrap_or(Row {
        command: Command::Unknown,
        most: &[],
        text: None,
    })
}

// ---- what commands put

// A value is put into its place of a table; a place that there is not stays out.
pub fn place<T: Copy>(table: &mut [T], i: usize, x: T)
    ensures { table.new ≡ slice_set table.old i x }
{
    if i < table.len() {
        table[i] = x;
    }
}
