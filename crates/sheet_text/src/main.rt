// Makes the file set.bin of a readable text from standard input.
#![tactic(auto)]

use std::io;

fn main(rt: HostRuntime) -> io::Result<()> {
    text_io::make(&rt)?;
    Ok(())
}
