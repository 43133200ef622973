// Runs a trace from standard input on the set in set.bin.
#![tactic(auto)]

use std::io;

fn main(rt: HostRuntime) -> io::Result<()> {
    trace_io::run(&rt)
}
