// The lines of the answers that only the console prints.
#![tactic(auto)]

ghost use Rattle.std.specs.Prelude.{◌≡◌, ◌≤◌, length, [], MatchResult};
ghost use Rattle.line.specs.declared.Line.{Line};
ghost use Rattle.rules.specs.Numbers.{number, refused as RefusedWith, start_says, choose_says, count_says, jitter_says, write_says, record_says, feed_says};
ghost use Rattle.line.specs.Line.{holding, put_of, puts};
ghost use Rattle.ascii.specs.Decimal.{letters};
ghost use Rattle.answer_words.specs.Words.{tuple_words, says, read_words, line_of};
ghost use Rattle.console_words.specs.Words.{valid_words, formed_words, recording_words, at_words};

use line::Line;
use rules::{Place, Refusal, Running, Tuple};

// A line with an answer's words, or with its refusal.
#[tactic(auto, using(answer_words::proofs::Ends::ended, answer_words::proofs::Lengths::says_short))]
fn told<T, F: FnOnce(T) -> Line>(a: Result<T, Refusal>, words: F) -> Line
    requires { F.IsAlwaysCallable words }
    ensures { MatchResult a (λ x. (l : Line) × (F.post words x l) × (result ≡ put_of l 10)) (λ why. result ≡ holding (line_of (says (RefusedWith (number why))))) }
{
    match a {
        Ok(x) => line::put(words(x), b'\n'),
        Err(why) => line::put(answer_words::refused(line::blank(), why), b'\n'),
    }
}

fn put_tuple(l: Line, t: Tuple) -> Line
    ensures { result ≡ puts l (tuple_words t) }
{
    match t {
        Tuple::Once(a) => line::one(l, b"once", a as u64),
        Tuple::Every(z, a) => line::two(l, b"every", z as u64, a as u64),
    }
}

fn put_choice(l: Line, next: Option<Running>) -> Line
    ensures { result ≡ puts l (says (choose_says (Ok next))) }
{
    match next {
        None => line::word(l, b"none"),
        Some(Running { task: t, stream: k }) => line::one(
            line::one(l, b"task", t as u64),
            b" stream",
            k as u64,
        ),
    }
}

#[tactic(auto, using(line::proofs::Puts::then, line::proofs::Puts::first), unfolding(answer_words::specs::Words::says))]
fn put_tuples(l: Line, t: Tuple, u: Tuple) -> Line
    ensures { result ≡ puts l (says (jitter_says (Ok (t, u)))) }
{
    put_tuple(line::put(put_tuple(l, t), b' '), u)
}

fn put_count(l: Line, a: Result<u64, Refusal>) -> Line
    ensures { result ≡ puts l (says (count_says a)) }
{
    match a {
        Ok(n) => line::decimal(l, n),
        Err(why) => line::number(answer_words::refused(l, why), 0),
    }
}

pub fn start_line(a: Result<(), Refusal>) -> Line
    ensures { result ≡ holding (line_of (says (start_says a))) }
{
    told(a, |()| line::word(line::blank(), b"started"))
}

pub fn choose_line(a: Result<Option<Running>, Refusal>) -> Line
    ensures { result ≡ holding (line_of (says (choose_says a))) }
{
    told(a, |next| put_choice(line::blank(), next))
}

#[tactic(auto, using(answer_words::proofs::Ends::ended, answer_words::proofs::Lengths::says_short))]
pub fn count_line(a: Result<u64, Refusal>) -> Line
    ensures { result ≡ holding (line_of (says (count_says a))) }
{
    line::put(put_count(line::blank(), a), b'\n')
}

pub fn jitter_line(a: Result<(Tuple, Tuple), Refusal>) -> Line
    ensures { result ≡ holding (line_of (says (jitter_says a))) }
{
    told(a, |(t, u)| put_tuples(line::blank(), t, u))
}

pub fn write_line(a: Result<usize, Refusal>) -> Line
    ensures { result ≡ holding (line_of (says (write_says a))) }
{
    told(a, |n| line::one(line::blank(), b"wrote", n as u64))
}

pub fn record_line(a: Result<usize, Refusal>) -> Line
    ensures { result ≡ holding (line_of (says (record_says a))) }
{
    told(a, |n| line::one(line::blank(), b"recorded", n as u64))
}

pub fn feed_line(a: Result<(), Refusal>) -> Line
    ensures { result ≡ holding (line_of (says (feed_says a))) }
{
    told(a, |()| line::word(line::blank(), b"fed"))
}

// The bytes of a recording.
pub fn recording_line(n: usize) -> Line
    ensures { result ≡ holding (line_of (recording_words n)) }
{
    line::put(line::one(line::blank(), b"recording", n as u64), b'\n')
}

// The reader's place.
pub fn at_line(place: Place) -> Line
    ensures { result ≡ holding (line_of (at_words place.byte place.bit)) }
{
    line::put(
        line::two(line::blank(), b"at", place.byte as u64, place.bit as u64),
        b'\n',
    )
}

// A sheet that was read is told by the number of streams of its set.
pub fn read_line(a: Result<(), Refusal>, n: usize) -> Line
    ensures { result ≡ holding (line_of (read_words a n)) }
{
    told(a, |()| line::one(line::blank(), b"set", n as u64))
}

// A word as a line.
#[tactic(auto, using(answer_words::proofs::Ends::ended))]
fn word_line(w: &[u8]) -> Line
    requires { length w.now ≤ 95 }
    ensures { result ≡ holding (line_of w.now) }
{
    line::put(line::word(line::blank(), w), b'\n')
}

pub fn empty_line() -> Line
    ensures { result ≡ holding (line_of []) }
{
    word_line(b"")
}

pub fn unknown_line() -> Line
    ensures { result ≡ holding (line_of (letters "?")) }
{
    word_line(b"?")
}

pub fn put_line() -> Line
    ensures { result ≡ holding (line_of (letters "put")) }
{
    word_line(b"put")
}

pub fn valid_line(valid: bool) -> Line
    ensures { result ≡ holding (line_of (valid_words valid)) }
{
    if valid {
        word_line(b"valid")
    } else {
        word_line(b"invalid")
    }
}

pub fn formed_line(formed: bool) -> Line
    ensures { result ≡ holding (line_of (formed_words formed)) }
{
    if formed {
        word_line(b"well formed")
    } else {
        word_line(b"refused 12")
    }
}
