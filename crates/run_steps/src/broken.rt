// A state for each way of not being well formed: 12 from post, choose and unit.
use crate::yard::{self, UNIT};
use rules::{Call, State};
use std::io;

fn twelve(rt: &impl Print, s: State) -> io::Result<()> {
    yard::play(rt, s, &[Call::Posts(0)])?;
    crate::say::choose(rt, scheduler::choose(s))?;
    yard::play(rt, s, &[UNIT])?;
    Ok(())
}

// Two messages of set B pending at clock 1: stream 1 started, stream 2 not.
fn sound() -> State {
    let s = yard::begin(yard::set_b());
    let s = yard::with_message(s, 0, 1, 20, 1);
    let mut s = yard::with_message(s, 1, 2, 9, 0);
    s.count = 2;
    s.clock = 1;
    s
}

// The set, the count and the clock.
fn counts(rt: &impl Print) -> io::Result<()> {
    println!(rt; "set invalid, 65 messages, clock past the last")?;
    let mut s = sound();
    s.set.count = 17;
    twelve(rt, s)?;
    let mut s = sound();
    s.count = 65;
    twelve(rt, s)?;
    let mut s = sound();
    s.clock = 4000000001;
    twelve(rt, s)
}

// A message's own rules.
fn messages(rt: &impl Print) -> io::Result<()> {
    println!(rt; "no such stream, used up, deadline below d, deadline past clock + d")?;
    twelve(rt, yard::with_message(sound(), 1, 3, 9, 0))?;
    twelve(rt, yard::with_message(sound(), 1, 2, 9, 2))?;
    twelve(rt, yard::with_message(sound(), 1, 2, 7, 0))?;
    twelve(rt, yard::with_message(sound(), 1, 2, 10, 0))
}

// The order, the started messages and the unused places.
fn together(rt: &impl Print) -> io::Result<()> {
    println!(rt; "posting order, two started, unused place")?;
    twelve(
        rt,
        yard::with_message(yard::with_message(sound(), 0, 1, 21, 1), 1, 2, 8, 0),
    )?;
    twelve(rt, yard::with_message(sound(), 1, 0, 6, 1))?;
    twelve(rt, yard::with_message(sound(), 2, 0, 0, 1))
}

// Stream 0 in its second stage with two of its three units used, stream 1 not started, at clock 3.
fn passed() -> State {
    let s = yard::begin(yard::set_of_stages());
    let s = yard::in_stage(yard::with_message(s, 0, 0, 9, 2), 0, 1);
    let mut s = yard::with_message(s, 1, 1, 20, 0);
    s.count = 2;
    s.clock = 3;
    s
}

// The set's version and the stages of the messages.
fn stages(rt: &impl Print) -> io::Result<()> {
    println!(rt; "version 3, two stages in version 1")?;
    let mut s = passed();
    s.set.version = 3;
    twelve(rt, s)?;
    let mut s = passed();
    s.set.version = 1;
    twelve(rt, s)?;
    println!(rt;
        "no such stage, used up in its stage, two started on one task, a stage in an unused place"
    )?;
    twelve(rt, yard::in_stage(passed(), 0, 2))?;
    twelve(rt, yard::in_stage(passed(), 0, 0))?;
    twelve(rt, yard::with_message(passed(), 1, 1, 20, 1))?;
    twelve(rt, yard::in_stage(passed(), 2, 1))
}

// The waits at the doors: set B's are at most 20.
fn waits(rt: &impl Print) -> io::Result<()> {
    println!(rt; "a wait too long, without a door, in an unused place")?;
    twelve(rt, yard::with_wait(sound(), 0, 21))?;
    twelve(rt, yard::with_wait(passed(), 0, 1))?;
    twelve(rt, yard::with_wait(sound(), 3, 1))
}

pub fn each(rt: &impl Print) -> io::Result<()> {
    println!(rt; "well formed")?;
    crate::say::choose(rt, scheduler::choose(sound()))?;
    crate::say::choose(rt, scheduler::choose(passed()))?;
    counts(rt)?;
    messages(rt)?;
    together(rt)?;
    stages(rt)?;
    waits(rt)
}
