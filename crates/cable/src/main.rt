// Reads a sheet in pieces from standard input, and makes the file set.bin of it.
#![tactic(auto)]

use std::io;

fn main(rt: HostRuntime) -> io::Result<()> {
    cable_io::run(&rt)?;
    Ok(())
}
