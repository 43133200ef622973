// Posts that come early at a door.
use crate::yard::{self, DONE, UNIT};
use rules::Call::Posts;
use rules::{Stream, Tuple, TuplePlace};
use std::io;

// Every 20: refused until the last unit of the wait has passed; a refused post adds nothing.
fn spaced(rt: &impl Print) -> io::Result<()> {
    println!(rt; "early, a unit early, in time, early again")?;
    let s = yard::begin(yard::set_b());
    let s = yard::play(rt, s, &[Posts(0), Posts(0), DONE])?;
    let s = yard::with_wait(s, 0, 1);
    yard::play(rt, s, &[Posts(0), UNIT, Posts(0), Posts(0)])?;
    Ok(())
}

fn once(mut s: Stream) -> Stream {
    s.tuples[0] = TuplePlace {
        tuple: Tuple::Once(0),
    };
    s
}

// Once at 0: one post for ever.
fn single(rt: &impl Print) -> io::Result<()> {
    println!(rt; "once")?;
    let s = yard::begin(yard::set(&[once(yard::stream(0, 2, 5))]));
    yard::play(rt, s, &[Posts(0), DONE, UNIT, Posts(0)])?;
    Ok(())
}

// A stream without a door, and one with. With 64 pending: 15 before 2, and what is refused by 2 adds nothing to the wait.
fn full(rt: &impl Print) -> io::Result<()> {
    println!(rt; "15 before 2, 2 at an open door, taken when a place is free")?;
    let both = yard::set(&[yard::open(yard::stream(0, 2, 5)), yard::stream(1, 2, 8)]);
    let s = crate::places::fill(yard::begin(both), 64);
    yard::play(rt, yard::with_wait(s, 1, 1), &[Posts(1)])?;
    yard::play(rt, s, &[Posts(1), DONE, Posts(1)])?;
    Ok(())
}

pub fn each(rt: &impl Print) -> io::Result<()> {
    spaced(rt)?;
    single(rt)?;
    full(rt)
}
