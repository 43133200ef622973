// Replays the recording from standard input on the set in set.bin.
#![tactic(auto)]

use std::io;

fn main(rt: HostRuntime) -> io::Result<()> {
    replay_io::run(&rt)
}
