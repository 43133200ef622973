// Answers as lines: a word, the paper's number or values.
use rules::{CallAnswer, Outcome, Posted, Refusal, Running};
use std::io;

fn refused(rt: &impl Print, why: Refusal) -> io::Result<()> {
    println!(rt; "refused {}", answer_numbers::refusal_number(why))
}

pub fn start(rt: &impl Print, a: Result<(), Refusal>) -> io::Result<()> {
    match a {
        Ok(()) => println!(rt; "started"),
        Err(why) => refused(rt, why),
    }
}

fn post(rt: &impl Print, a: Result<Posted, Refusal>) -> io::Result<()> {
    match a {
        Ok(p) => println!(rt; "posted {} {}", p.stream, p.deadline),
        Err(why) => refused(rt, why),
    }
}

pub fn choose(rt: &impl Print, a: Result<Option<Running>, Refusal>) -> io::Result<()> {
    match a {
        Ok(None) => println!(rt; "none"),
        Ok(Some(r)) => println!(rt; "runs {} {}", r.task, r.stream),
        Err(why) => refused(rt, why),
    }
}

fn late(laxity: i64) -> &'static str {
    if laxity < 0 { " late" } else { "" }
}

fn unit(rt: &impl Print, a: Result<Outcome, Refusal>) -> io::Result<()> {
    match a {
        Ok(Outcome::Ran(t, k)) => println!(rt; "ran {t} {k}"),
        Ok(Outcome::Passed(t, k)) => println!(rt; "passed {t} {k}"),
        Ok(Outcome::Finished(t, k, laxity)) => println!(rt; "done {t} {k}{}", late(laxity)),
        Ok(Outcome::Cut(t, k, laxity)) => println!(rt; "cut {t} {k}{}", late(laxity)),
        Ok(Outcome::Idle) => println!(rt; "idle"),
        Err(why) => refused(rt, why),
    }
}

pub fn call(rt: &impl Print, a: CallAnswer) -> io::Result<()> {
    match a {
        CallAnswer::ToPost(a) => post(rt, a),
        CallAnswer::ToUnit(a) => unit(rt, a),
    }
}
