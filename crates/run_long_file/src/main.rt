// The trace program on a sheet with a byte too many.
#![tactic(auto)]

use std::io;

fn main(rt: HostRuntime) -> io::Result<()> {
    trace_io::run(&rt)
}
