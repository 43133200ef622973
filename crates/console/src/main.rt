// The console: every public function from the keyboard.
#![tactic(auto)]

use std::io;

fn main(rt: HostRuntime) -> io::Result<()> {
    console_io::run(&rt)
}
