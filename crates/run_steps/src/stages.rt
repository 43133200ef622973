// A message goes through its stages.
use crate::yard::{self, DONE, UNIT};
use rules::Call::Posts;
use std::io;

// Done at the first stage passes on, at the last it leaves; its deadline stays, and the next stage has its whole cost.
fn through(rt: &impl Print) -> io::Result<()> {
    println!(rt; "passes on, waits for a started message, leaves")?;
    let s = yard::begin(yard::set_of_stages());
    yard::play(
        rt,
        s,
        &[Posts(1), UNIT, Posts(0), DONE, DONE, UNIT, UNIT, DONE],
    )?;
    Ok(())
}

// Not done on the unit that reaches a stage's cost: cut, and it leaves at once.
fn cut(rt: &impl Print) -> io::Result<()> {
    println!(rt; "cut in the first stage, cut in the second")?;
    let s = yard::begin(yard::set_of_stages());
    yard::play(
        rt,
        s,
        &[Posts(0), UNIT, UNIT, Posts(0), DONE, UNIT, UNIT, UNIT, DONE],
    )?;
    Ok(())
}

pub fn each(rt: &impl Print) -> io::Result<()> {
    through(rt)?;
    cut(rt)
}
