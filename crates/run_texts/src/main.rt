// Reads the texts of a file: good ones, and one for each fault.
#![tactic(auto)]

use std::io;

fn main(rt: HostRuntime) -> io::Result<()> {
    text_io::batch(&rt)
}
