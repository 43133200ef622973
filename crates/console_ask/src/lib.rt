// The console's questions: what each prints, put on a page.
#![tactic(auto)]

ghost use Rattle.std.specs.Prelude.{◌≡◌, ℕ, ◌*◌, true, List, ◌++◌, ◌≤◌, length, replicate};
ghost use Rattle.ascii.specs.Decimal.{decimal_of, spaced};
ghost use Rattle.line.specs.Line.{line_room, holding};
ghost use Rattle.line.specs.declared.Line.{Line};
ghost use Rattle.answer_words.specs.Words.{line_of};
ghost use Rattle.page.specs.Pages.{room_for, Onto};
ghost use Rattle.console_names.specs.Rows.{most_bytes};
ghost use Rattle.console_ask.specs.Questions.{message_line, staged_line, door_line, owns_line, room_line, lines_of, Tells, TellsEach, state_lines, sheet_lines, write_lines, answer_room, Answered, Asks};

use console_names::{NUMBERS, Question};
use line::Line;
use rules::{Message, Party, Places, Set, State};

// Room for any answer: a line for a state's clock, one for its count, two for each of its places, one for each wait, one
// for each owner, and one for the parties' places.
pub const ROOM: usize = (2 + 64 + 64 + 16 + 16 + 1) * line::ROOM;

// The longest buffer for a sheet.
const MOST_BYTES: usize = console_names::MOST_BYTES as usize;

// ---- the state

// A word and a number, or two, as a line.
fn one_line(w: &[u8], n: u64) -> Line
    requires { length w.now ≤ 64 }
    ensures { result ≡ holding (line_of (w.now ++ spaced (decimal_of n))) }
{
    line::put(line::one(line::blank(), w, n), b'\n')
}

fn two_line(w: &[u8], m: u64, n: u64) -> Line
    requires { length w.now ≤ 32 }
    ensures { result ≡ holding (line_of (w.now ++ spaced (decimal_of m) ++ spaced (decimal_of n))) }
{
    line::put(line::two(line::blank(), w, m, n), b'\n')
}

// A place that is all zero, but for its stage, is left out.
fn message_line(i: usize, m: Message) -> Option<Line>
    ensures { Tells result (message_line i m) }
{
    if (m.stream == 0) & ((m.deadline == 0) & (m.used == 0)) {
        return None;
    }
    let front = line::two(line::blank(), b"message", i as u64, m.stream as u64);
    Some(line::put(
        line::number(line::number(front, m.deadline as u64), m.used as u64),
        b'\n',
    ))
}

fn staged_line(i: usize, m: Message) -> Option<Line>
    ensures { Tells result (staged_line i m) }
{
    if m.stage == 0 {
        None
    } else {
        Some(two_line(b"staged", i as u64, m.stage as u64))
    }
}

fn door_line(i: usize, n: u32) -> Option<Line>
    ensures { Tells result (door_line i n) }
{
    if n == 0 {
        None
    } else {
        Some(two_line(b"door", i as u64, n as u64))
    }
}

// What is ours is left out.
fn owns_line(i: usize, o: Party) -> Option<Line>
    ensures { Tells result (owns_line i o) }
{
    match o {
        Party::Ours => None,
        Party::Theirs => Some(two_line(b"owns", i as u64, 1)),
    }
}

// All places for us are left out.
fn room_line(p: Places) -> Option<Line>
    ensures { Tells result (room_line p) }
{
    if (p.ours == 64) & (p.theirs == 0) {
        None
    } else {
        Some(two_line(b"room", p.ours as u64, p.theirs as u64))
    }
}

// A line behind the first `at` bytes of a page, or nothing.
fn told_onto(told: Option<Line>, out: &mut [u8], at: usize) -> usize
    ensures { (w : List ℕ) → Tells told w → Onto out.old at w result out.new }
{
    match told {
        Some(l) => page::append(out, at, l),
        None => at,
    }
}

// What each place has to tell, one behind the other.
fn lines_onto<T: Copy, F: Fn(usize, T) -> Option<Line>>(
    places: &[T],
    tells: F,
    out: &mut [u8],
    at: usize,
) -> usize
    requires { F.IsAlwaysCallable tells }
    ensures { (line : ℕ → T → List ℕ) → TellsEach (F.post tells) line → room_for out.old at (length places.now * line_room) ≡ true → Onto out.old at (lines_of line 0 places.now) result out.new }
{
    let mut end = at;
    for (i, x) in places.iter().enumerate() {
        end = told_onto(tells(i, *x), out, end);
    }
    end
}

// The stages stand behind all messages, the waits behind all stages, the owners behind all waits, the parties' places last.
fn state_onto(s: &State, out: &mut [u8], at: usize) -> usize
    requires { room_for out.old at answer_room ≡ true }
    ensures { Onto out.old at (state_lines s.now) result out.new }
{
    let clock = page::append(out, at, one_line(b"clock", s.clock as u64));
    let count = page::append(out, clock, one_line(b"pending", s.count as u64));
    let messages = lines_onto(&s.messages, message_line, out, count);
    let stages = lines_onto(&s.messages, staged_line, out, messages);
    let waits = lines_onto(&s.waits, door_line, out, stages);
    let owners = lines_onto(&s.owners, owns_line, out, waits);
    told_onto(room_line(s.places), out, owners)
}

// ---- the set's sheet

// The set's sheet in a buffer, and the whole buffer in hex.
fn sheet_onto(x: Set, bytes: &mut [u8], out: &mut [u8], at: usize) -> usize
    requires { (length bytes.old ≤ most_bytes) × (room_for out.old at answer_room ≡ true) }
    ensures { Onto out.old at (sheet_lines x bytes.old) result out.new }
{
    let answer = sheet_write::write(x, bytes);
    let end = page::append(out, at, console_words::write_line(answer));
    let last = page_hex::print(bytes, out, end);
    page::append(out, last, console_words::empty_line())
}

// The buffer is the first n of these bytes.
fn sheet_within(x: Set, bytes: &mut [u8], n: usize, out: &mut [u8], at: usize) -> usize
    requires { (bytes.old ≡ replicate most_bytes 170) × (room_for out.old at answer_room ≡ true) }
    ensures { Onto out.old at (write_lines x n) result out.new }
{
    if bytes.len() < n {
        return page::append(out, at, console_words::unknown_line());
    }
    sheet_onto(x, &mut bytes[..n], out, at)
}

fn write_onto(x: Set, len: u32, out: &mut [u8], at: usize) -> usize
    requires { room_for out.old at answer_room ≡ true }
    ensures { Onto out.old at (write_lines x len) result out.new }
{
    let mut bytes = [170u8; MOST_BYTES];
    sheet_within(x, &mut bytes, len as usize, out, at)
}

// ---- every question

fn question_onto(
    x: Set,
    s: State,
    q: Question,
    n: [u32; NUMBERS],
    out: &mut [u8],
    at: usize,
) -> usize
    requires { room_for out.old at answer_room ≡ true }
    ensures { Answered q n x s out.old at result out.new }
{
    match q {
        Question::Write => write_onto(x, n[0], out, at),
        Question::Valid => page::append(
            out,
            at,
            console_words::valid_line(stream_valid::is_valid(x)),
        ),
        Question::Limit => page::append(
            out,
            at,
            console_words::count_line(stream_limits::event_limit(x, n[0] as usize, n[1])),
        ),
        Question::Demand => page::append(
            out,
            at,
            console_words::count_line(load_check::demand(x, n[0])),
        ),
        Question::Jitter => page::append(
            out,
            at,
            console_words::jitter_line(stream_limits::jittered(n[0], n[1])),
        ),
        Question::Verdict => page::append(
            out,
            at,
            answer_words::verdict_line(load_check::verdict(x)),
        ),
        Question::Choose => page::append(out, at, console_words::choose_line(scheduler::choose(s))),
        Question::State => state_onto(&s, out, at),
        Question::Formed => page::append(
            out,
            at,
            console_words::formed_line(state_formed::well_formed(&s)),
        ),
    }
}

// What a question with these numbers prints, behind the first `at` bytes of a page, and where it ends. A page that has not room for any
// answer stays as it is.
pub fn ask(x: Set, s: State, q: Question, n: [u32; NUMBERS], out: &mut [u8], at: usize) -> usize
    ensures { Asks q n x s out.old at result out.new }
{
    if page::has_room(out, at, ROOM) {
        question_onto(x, s, q, n, out, at)
    } else {
        at
    }
}
