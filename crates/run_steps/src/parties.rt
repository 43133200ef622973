// Two parties share the message table: the second stream is theirs, and neither stream has a door.
use crate::yard::{self, DONE};
use rules::Call::Posts;
use rules::{Party, Places, StartResult, State};
use std::io;

fn begin(rt: &impl Print, ours: u32, theirs: u32) -> io::Result<State> {
    let both = yard::set(&[
        yard::open(yard::stream(0, 2, 5)),
        yard::open(yard::stream(1, 2, 8)),
    ]);
    let mut owners = state_parties::all_ours();
    owners[1] = Party::Theirs;
    let StartResult { answer, state } = scheduler::start_for(both, owners, Places { ours, theirs });
    crate::say::start(rt, answer)?;
    Ok(state)
}

// Two places for us and one for them.
fn numbers(rt: &impl Print) -> io::Result<()> {
    println!(rt; "each party to its number, whatever the other has")?;
    let s = begin(rt, 2, 1)?;
    yard::play(
        rt,
        s,
        &[
            Posts(0),
            Posts(0),
            Posts(0),
            Posts(1),
            Posts(1),
            DONE,
            Posts(1),
            Posts(0),
        ],
    )?;
    Ok(())
}

// 64 places together, one more, and none.
fn starts(rt: &impl Print) -> io::Result<()> {
    println!(rt; "64 places, 65, none")?;
    yard::play(rt, begin(rt, 40, 24)?, &[Posts(1)])?;
    yard::play(rt, begin(rt, 40, 25)?, &[Posts(1)])?;
    yard::play(rt, begin(rt, 0, 0)?, &[Posts(1)])?;
    Ok(())
}

// A state for each way to break a party's rule.
fn broken(rt: &impl Print) -> io::Result<()> {
    println!(rt; "65 places, an unused stream theirs, more than a party's number")?;
    let mut s = begin(rt, 40, 24)?;
    s.places = Places {
        ours: 40,
        theirs: 25,
    };
    yard::play(rt, s, &[Posts(0)])?;
    let mut s = begin(rt, 40, 24)?;
    s.owners[2] = Party::Theirs;
    yard::play(rt, s, &[Posts(0)])?;
    let mut s = yard::play(rt, begin(rt, 40, 24)?, &[Posts(1)])?;
    s.places = Places {
        ours: 64,
        theirs: 0,
    };
    yard::play(rt, s, &[Posts(0)])?;
    let mut s = yard::play(rt, begin(rt, 40, 24)?, &[Posts(0)])?;
    s.places = Places {
        ours: 0,
        theirs: 64,
    };
    yard::play(rt, s, &[Posts(1)])?;
    Ok(())
}

pub fn each(rt: &impl Print) -> io::Result<()> {
    numbers(rt)?;
    starts(rt)?;
    broken(rt)
}
