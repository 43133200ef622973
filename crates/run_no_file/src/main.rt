// The trace program with no set.bin: read as no bytes.
#![tactic(auto)]

use std::io;

fn main(rt: HostRuntime) -> io::Result<()> {
    trace_io::run(&rt)
}
