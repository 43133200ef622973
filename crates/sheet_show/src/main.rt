// Prints the file set.bin as a readable text.
#![tactic(auto)]

use std::io;

fn main(rt: HostRuntime) -> io::Result<()> {
    text_io::show(&rt)
}
