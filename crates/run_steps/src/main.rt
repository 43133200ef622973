// Runs the steps at their edges and prints what they answer: the places, states that are not well formed, ways a cab has gone wrong, stages, doors, and two parties.
#![tactic(auto)]

mod broken;
mod doors;
mod parties;
mod places;
mod say;
mod stages;
mod wrongs;
mod yard;

use std::io;

fn main(rt: HostRuntime) -> io::Result<()> {
    places::full(&rt)?;
    places::at_cost(&rt)?;
    places::last_clock(&rt)?;
    broken::each(&rt)?;
    wrongs::each(&rt)?;
    stages::each(&rt)?;
    doors::each(&rt)?;
    parties::each(&rt)
}
