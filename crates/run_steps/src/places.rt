// The 64 places, the unit that reaches the cost, the last clock.
use crate::yard::{self, DONE, UNIT};
use rules::Call::Posts;
use rules::State;
use std::io;

pub fn fill(s: State, n: usize) -> State {
    let mut now = s;
    for _ in 0..n {
        now = scheduler::post(now, 0).state;
    }
    now
}

// A set with one stream, which has no door.
fn begin() -> State {
    yard::begin(yard::set(&[yard::open(yard::stream(0, 2, 5))]))
}

// The 64th and the 65th post, and a freed place takes the next post.
pub fn full(rt: &impl Print) -> io::Result<()> {
    println!(rt; "64th, 65th, freed")?;
    yard::play(rt, fill(begin(), 63), &[Posts(0), Posts(0), DONE, Posts(0)])?;
    Ok(())
}

// Done on the unit that reaches c, and not done on it.
pub fn at_cost(rt: &impl Print) -> io::Result<()> {
    println!(rt; "at cost")?;
    yard::play(rt, begin(), &[Posts(0), UNIT, DONE, Posts(0), UNIT, UNIT])?;
    Ok(())
}

// Up to the last clock; there a post is taken and a unit is not.
pub fn last_clock(rt: &impl Print) -> io::Result<()> {
    println!(rt; "last clock")?;
    let mut s = yard::begin(yard::set(&[yard::stream(0, 2, 5)]));
    s.clock = 3999999999;
    yard::play(rt, s, &[DONE, UNIT, DONE, Posts(0), UNIT])?;
    Ok(())
}
