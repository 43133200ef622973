// Replays the stored cases: sheets and recordings, whose expected output the second program wrote.
#![tactic(auto)]

use case_io::Kind;
use std::io;

fn main(rt: HostRuntime) -> io::Result<()> {
    case_io::batch(&rt, Kind::Recordings)
}
