// Checks the set in set.bin.
#![tactic(auto)]

use std::io;

fn main(rt: HostRuntime) -> io::Result<()> {
    check_io::run(&rt)
}
