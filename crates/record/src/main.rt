// Writes the recording of a trace from standard input to standard output.
#![tactic(auto)]

use std::io;

fn main(rt: HostRuntime) -> io::Result<()> {
    record_io::run(&rt)?;
    Ok(())
}
