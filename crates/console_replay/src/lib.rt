// The console's replay and its recordings: what each command leaves of what the console holds, and what it prints.
#![tactic(auto)]

ghost use Rattle.std.specs.Prelude.{◌≡◌, ◌≤◌, true, length, replicate};
ghost use Rattle.ascii.specs.Decimal.{letters};
ghost use Rattle.line.specs.Line.{holding};
ghost use Rattle.answer_words.specs.Words.{line_of, replay_line};
ghost use Rattle.console_words.specs.Words.{at_words};
ghost use Rattle.page.specs.Pages.{room_for, Onto};
ghost use Rattle.console_names.specs.Rows.{most_bytes};
ghost use Rattle.console_replay.specs.ReplayCommands.{loaded_of, first_replay, held, reader_put, next_step, recording_after, recording_line, replay_after, replay_state_after, replay_line_of};
ghost use Rattle.console_replay.specs.Records.{buffer_lines, record_lines, record_room, Records};

use console_names::{NUMBERS, ReplayCommand};
use line::Line;
use rules::{Place, State};

// The bytes of the longest recording that is taken, and of the longest buffer.
const MOST_BYTES: usize = console_names::MOST_BYTES as usize;

// Room for what a recording prints: a line, two digits for each byte of the buffer, and a newline.
const RECORD_ROOM: usize = line::ROOM + (2 * MOST_BYTES + 1);

// What the console holds of a replay: the recording, in the first len of its bytes, and the reader's place.
// kept: no heap, fixed memory: the desk that holds it is copied, and handed on by value.
#[derive(Clone, Copy)]
pub struct Replay {
    pub bytes: [u8; MOST_BYTES],
    pub len: usize,
    pub place: Place,
}

// What the console holds after a command, and the line that is printed.
#[derive(Clone, Copy)]
pub struct ReplayAfter {
    pub replay: Replay,
    pub state: State,
    pub line: Line,
}

// ---- the recording

// These bytes, with the reader at their start.
fn loaded(text: &[u8]) -> Replay
    requires { length text.now ≤ most_bytes }
    ensures { result ≡ loaded_of text.now }
{
    let mut bytes = [0u8; MOST_BYTES];
    bytes[..text.len()].copy_from_slice(text);
    Replay {
        bytes,
        len: text.len(),
        place: Place { byte: 0, bit: 0 },
    }
}

// What the console holds at first.
pub fn first() -> Replay
    ensures { result ≡ first_replay }
{
    loaded(b"")
}

// More bytes than there is room for change nothing.
fn recording(t: Replay, s: State, text: &[u8]) -> ReplayAfter
    ensures { result ≡ record { replay = recording_after text.now t; state = s; line = holding (recording_line text.now) } }
{
    if MOST_BYTES < text.len() {
        return ReplayAfter {
            replay: t,
            state: s,
            line: console_words::unknown_line(),
        };
    }
    ReplayAfter {
        replay: loaded(text),
        state: s,
        line: console_words::recording_line(text.len()),
    }
}

// ---- the reader

fn reader(t: Replay, s: State, place: Place) -> ReplayAfter
    ensures { result ≡ record { replay = reader_put t place; state = s; line = holding (line_of (letters "put")) } }
{
    ReplayAfter {
        replay: Replay { place, ..t },
        state: s,
        line: console_words::put_line(),
    }
}

fn reader_is(t: Replay, s: State) -> ReplayAfter
    ensures { result ≡ record { replay = t; state = s; line = holding (line_of (at_words t.place.byte t.place.bit)) } }
{
    ReplayAfter {
        replay: t,
        state: s,
        line: console_words::at_line(t.place),
    }
}

// ---- a step

// The recording that is held.
fn held(t: &Replay) -> &[u8]
    ensures { result.now ≡ held t.now }
{
    &t.bytes[..t.len.min(MOST_BYTES)]
}

fn next(t: Replay, s: State) -> ReplayAfter
    ensures { result ≡ record { replay = reader_put t (next_step t s).place; state = (next_step t s).state; line = holding (replay_line s.clock (next_step t s).answer) } }
{
    let clock = s.clock;
    let r = replay_step::step(held(&t), t.place, s);
    ReplayAfter {
        replay: Replay {
            place: r.place,
            ..t
        },
        state: r.state,
        line: answer_words::replay_line(clock, r.answer),
    }
}

// A command with its numbers; `text` is the bytes behind `recording`, and no other looks at it.
pub fn after(t: Replay, s: State, k: ReplayCommand, n: [u32; NUMBERS], text: &[u8]) -> ReplayAfter
    ensures { result ≡ record { replay = replay_after k n text.now s t; state = replay_state_after k t s; line = holding (replay_line_of k text.now s t) } }
{
    match k {
        ReplayCommand::Recording => recording(t, s, text),
        ReplayCommand::Next => next(t, s),
        ReplayCommand::Reader => reader(
            t,
            s,
            Place {
                byte: n[0] as usize,
                bit: n[1],
            },
        ),
        ReplayCommand::Where => reader_is(t, s),
    }
}

// ---- the recording of a trace

// A trace's recording in a buffer, and the whole buffer in hex.
fn buffer_onto(trace: &[u8], bytes: &mut [u8], out: &mut [u8], at: usize) -> usize
    requires { (length bytes.old ≤ most_bytes) × (room_for out.old at record_room ≡ true) }
    ensures { Onto out.old at (buffer_lines trace.now bytes.old) result out.new }
{
    let answer = record_trace::record(trace, bytes);
    let end = page::append(out, at, console_words::record_line(answer));
    let last = page_hex::print(bytes, out, end);
    page::append(out, last, console_words::empty_line())
}

// The buffer is the first n of these bytes.
fn buffer_within(trace: &[u8], bytes: &mut [u8], n: usize, out: &mut [u8], at: usize) -> usize
    requires { (bytes.old ≡ replicate most_bytes 170) × (room_for out.old at record_room ≡ true) }
    ensures { Onto out.old at (record_lines trace.now n) result out.new }
{
    if bytes.len() < n {
        return page::append(out, at, console_words::unknown_line());
    }
    buffer_onto(trace, &mut bytes[..n], out, at)
}

// What `record` prints, behind the first `at` bytes of a page, and where it ends. A page that has not room for it stays as it is.
pub fn record_onto(len: u32, trace: &[u8], out: &mut [u8], at: usize) -> usize
    ensures { Records trace.now len out.old at result out.new }
{
    if !page::has_room(out, at, RECORD_ROOM) {
        return at;
    }
    let mut bytes = [170u8; MOST_BYTES];
    buffer_within(trace, &mut bytes, len as usize, out, at)
}
