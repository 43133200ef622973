// Ways a cab has gone wrong, as the steps go today.
use crate::yard::{self, DONE, UNIT};
use rules::Call;
use rules::Call::Posts;
use std::io;

// The calls from a start of set B.
fn of_b(rt: &impl Print, calls: &[Call]) -> io::Result<()> {
    yard::play(rt, yard::begin(yard::set_b()), calls)?;
    Ok(())
}

pub fn each(rt: &impl Print) -> io::Result<()> {
    // messages of a task served in order of arrival
    println!(rt; "not in order of arrival")?;
    of_b(rt, &[Posts(1), Posts(0), DONE, DONE])?;
    // a started message put back when a more urgent one comes
    println!(rt; "a started message runs on")?;
    of_b(rt, &[Posts(1), UNIT, Posts(0), Posts(2), DONE, DONE])?;
    // taking a message before its first unit
    println!(rt; "taken at its first unit")?;
    of_b(rt, &[Posts(2), DONE, Posts(1), Posts(0), UNIT])?;
    // every task can hold one started message
    println!(rt; "two tasks hold a started message")?;
    of_b(rt, &[Posts(1), UNIT, Posts(2), UNIT, Posts(0), UNIT, UNIT])
}
