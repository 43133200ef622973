// The reading and writing of the program `cable`; what its pieces give is decided by proved functions.
// A write that fails is handed to the caller.
#![tactic(auto)]

use cable_frames::Frames;
use rules::{ReadResult, Set};
use std::io;
use std::io::Read;
use std::rt::Files;

// The input, taken to its end. One that cannot be read is told, and nothing is made of what came before.
// A proved loop has to end, and nothing says that the input does: the turns are counted up to a number that no run uses up.
fn listen(rt: &(impl Input + Eprint)) -> io::Result<Option<Frames>> {
    let mut input = rt.reader();
    let mut frames = cable_frames::first();
    let mut bytes = [0u8; 512];
    for _ in 0..u64::MAX {
        match input.read(&mut bytes) {
            Ok(0) => return Ok(Some(frames)),
            Ok(n) => frames = cable_frames::take(frames, &bytes[..n]),
            Err(why) => {
                file_io::fail(rt, "standard input", why)?;
                return Ok(None);
            }
        }
    }
    Ok(None)
}

// The sheet of a set that was read, as the file set.bin: the whole sheet, or as it was. Answers which.
fn keep(rt: &(impl Files + Eprint), x: Set) -> io::Result<bool> {
    let mut bytes = [0u8; rules::LONGEST_SHEET];
    match sheet_write::write(x, &mut bytes) {
        Ok(n) => file_io::save_sheet(rt, &bytes[..page::within(n, &bytes)]),
        Err(_) => Ok(false),
    }
}

// A set is told once its file is written.
fn tell(rt: &(impl Files + Print + Eprint), r: ReadResult) -> io::Result<bool> {
    if r.answer.is_ok() && !keep(rt, r.set)? {
        return Ok(false);
    }
    file_io::say(rt, console_words::read_line(r.answer, r.set.count))?;
    Ok(true)
}

// An input that stops within a piece is broken: that is told, and set.bin stays as it was.
fn broken(rt: &impl Eprint) -> io::Result<bool> {
    file_io::warn(rt, line::word(line::blank(), b"broken frame\n"))?;
    Ok(false)
}

// `cable`: the pieces of standard input, closed at its end. Answers whether what they read as was told on standard output.
pub fn run(rt: &(impl Files + Input + Print + Eprint)) -> io::Result<bool> {
    match listen(rt)? {
        None => Ok(false),
        Some(frames) if cable_frames::is_whole(frames) => {
            tell(rt, sheet_read::close(frames.carried))
        }
        Some(_) => broken(rt),
    }
}
