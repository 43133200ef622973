// What the programs print: a refusal, and the lines of a trace; the words of specs/Words.antt.
#![tactic(auto)]

ghost use Rattle.std.specs.Prelude.{◌≡◌};
ghost use Rattle.rules.specs.Numbers.{number, refused as RefusedWith, post_says, unit_says, call_says, verdict_says, open_says, fall_says, go_says};
ghost use Rattle.line.specs.Line.{holding, puts};
ghost use Rattle.answer_words.specs.Words.{says, line_of, step_line, replay_line};

use line::Line;
use rules::{CallAnswer, Outcome, Position, Posted, Progress, Refusal, Verdict};

#[tactic(auto, unfolding(crate::specs::Words::says))]
pub fn refused(l: Line, why: Refusal) -> Line
    ensures { result ≡ puts l (says (RefusedWith (number why))) }
{
    line::one(l, b"refused", answer_numbers::refusal_number(why))
}

#[tactic(auto, unfolding(crate::specs::Words::says))]
fn post_words(l: Line, a: Result<Posted, Refusal>) -> Line
    ensures { result ≡ puts l (says (post_says a)) }
{
    match a {
        Ok(
            Posted {
                stream: k,
                deadline: d,
            },
        ) => line::two(l, b"posted", k as u64, d as u64),
        Err(why) => refused(l, why),
    }
}

#[tactic(auto, unfolding(crate::specs::Words::says))]
fn unit_words(l: Line, a: Result<Outcome, Refusal>) -> Line
    ensures { result ≡ puts l (says (unit_says a)) }
{
    match a {
        Ok(Outcome::Ran(t, k)) => line::two(l, b"ran", t as u64, k as u64),
        Ok(Outcome::Passed(t, k)) => line::two(l, b"passed", t as u64, k as u64),
        Ok(Outcome::Finished(t, k, z)) => line::signed(
            line::two(l, b"done", t as u64, k as u64),
            z,
        ),
        Ok(Outcome::Cut(t, k, z)) => line::signed(line::two(l, b"cut", t as u64, k as u64), z),
        Ok(Outcome::Idle) => line::word(l, b"idle"),
        Err(why) => refused(l, why),
    }
}

#[tactic(auto, unfolding(crate::specs::Words::says))]
fn verdict_words(l: Line, a: Verdict) -> Line
    ensures { result ≡ puts l (says (verdict_says a)) }
{
    match a {
        Verdict::Accept => line::word(l, b"accept"),
        Verdict::Late(i, w) => line::two(l, b"late", i, w),
        Verdict::Overload => line::word(l, b"overload"),
        Verdict::Refused(why) => refused(l, why),
    }
}

// A step's line has the clock before the step in front.
#[tactic(auto, using(crate::proofs::Ends::stepped))]
pub fn post_line(clock: u32, a: Result<Posted, Refusal>) -> Line
    ensures { result ≡ holding (step_line clock (post_says a)) }
{
    let front = line::put(line::decimal(line::blank(), clock as u64), b' ');
    line::put(post_words(front, a), b'\n')
}

#[tactic(auto, using(crate::proofs::Ends::stepped))]
pub fn unit_line(clock: u32, a: Result<Outcome, Refusal>) -> Line
    ensures { result ≡ holding (step_line clock (unit_says a)) }
{
    let front = line::put(line::decimal(line::blank(), clock as u64), b' ');
    line::put(unit_words(front, a), b'\n')
}

#[tactic(auto, using(crate::proofs::Ends::ended, crate::proofs::Lengths::says_short))]
pub fn verdict_line(a: Verdict) -> Line
    ensures { result ≡ holding (line_of (says (verdict_says a))) }
{
    line::put(verdict_words(line::blank(), a), b'\n')
}

pub fn call_line(clock: u32, a: CallAnswer) -> Line
    ensures { result ≡ holding (step_line clock (call_says a)) }
{
    match a {
        CallAnswer::ToPost(p) => post_line(clock, p),
        CallAnswer::ToUnit(u) => unit_line(clock, u),
    }
}

// A call's line has the clock before it in front; end and a refusal of the replay itself have none.
pub fn replay_line(clock: u32, a: Result<Option<CallAnswer>, Refusal>) -> Line
    ensures { result ≡ holding (replay_line clock a) }
{
    match a {
        Ok(Some(c)) => call_line(clock, c),
        Ok(None) => line::put(line::word(line::blank(), b"end"), b'\n'),
        Err(why) => verdict_line(Verdict::Refused(why)),
    }
}

// ---- a check in calls

#[tactic(auto, using(crate::proofs::Ends::ended, crate::proofs::Lengths::says_short), unfolding(crate::specs::Words::says))]
pub fn open_line(a: Result<Position, Verdict>) -> Line
    ensures { result ≡ holding (line_of (says (open_says a))) }
{
    match a {
        Ok(_) => line::put(line::word(line::blank(), b"open"), b'\n'),
        Err(v) => verdict_line(v),
    }
}

#[tactic(auto, unfolding(crate::specs::Words::says))]
fn fall_words(l: Line, k: u32, v: Verdict) -> Line
    ensures { result ≡ puts l (says (fall_says k v)) }
{
    match v {
        Verdict::Accept => line::word(line::one(l, b"tested", k as u64), b" accept"),
        Verdict::Late(i, w) => line::two(line::one(l, b"tested", k as u64), b" late", i, w),
        Verdict::Overload => line::word(l, b"overload"),
        Verdict::Refused(why) => refused(l, why),
    }
}

#[tactic(auto, unfolding(crate::specs::Words::says))]
fn go_words(l: Line, a: Result<Progress, Refusal>) -> Line
    ensures { result ≡ puts l (says (go_says a)) }
{
    match a {
        Ok(Progress::Next(k, p)) => line::one(
            line::one(l, b"tested", k as u64),
            b" next",
            p.next as u64,
        ),
        Ok(Progress::Falls(k, v)) => fall_words(l, k, v),
        Err(why) => refused(l, why),
    }
}

// What a call answers, and the next length where there is one.
#[tactic(auto, using(crate::proofs::Ends::ended, crate::proofs::Lengths::says_short))]
pub fn go_line(a: Result<Progress, Refusal>) -> Line
    ensures { result ≡ holding (line_of (says (go_says a))) }
{
    line::put(go_words(line::blank(), a), b'\n')
}
