// The replay program's reading and writing; what is read and written is decided by proved functions.
// A read or a write that fails ends the replay, and is handed to the caller.
#![tactic(auto)]

use replay_lines::Replaying;
use rules::ReadResult;
use std::io;
use std::rt::Files;

// Writes the first line.
pub fn begin(rt: &impl Print, r: ReadResult) -> io::Result<Replaying> {
    let first = replay_lines::begin_replay(r);
    file_io::say(rt, first.line)?;
    Ok(first.replaying)
}

// Writes a page of steps.
fn print_page(rt: &impl Print, recording: &[u8], r: Replaying) -> io::Result<Replaying> {
    let mut out = [0u8; file_io::LARGE_BUFFER];
    let filled = replay_lines::fill(recording, r, &mut out);
    rt.write_all(&out[..page::within(filled.len, &out)])?;
    Ok(filled.replaying)
}

// A proved loop has to end: the turns are counted up to a number that no recording uses up.
pub fn print_pages(rt: &impl Print, recording: &[u8], begun: Replaying) -> io::Result<()> {
    let mut r = begun;
    for _ in 0..u64::MAX {
        if !r.live {
            break;
        }
        r = print_page(rt, recording, r)?;
    }
    Ok(())
}

// The steps of the recording from standard input.
fn print_steps(
    rt: &(impl io::Input + Print + Eprint + AllocGlobal),
    begun: Replaying,
) -> io::Result<()> {
    let mut bytes = file_io::input_buffer(rt.alloc())?;
    match file_io::read_input(rt, &mut bytes)? {
        Some(n) => print_pages(rt, &bytes[..page::within(n, &bytes)], begun),
        None => Ok(()),
    }
}

// A refused sheet prints its line, and nothing more is read.
pub fn run(rt: &(impl Files + io::Input + Print + Eprint + AllocGlobal)) -> io::Result<()> {
    let begun = begin(rt, file_io::read_sheet(rt)?)?;
    if begun.live {
        print_steps(rt, begun)?;
    }
    Ok(())
}
