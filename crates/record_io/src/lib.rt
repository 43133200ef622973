// The record program's reading and writing; what is written is decided by proved functions.
// A write that fails is handed to the caller.
#![tactic(auto)]

ghost use Rattle.std.specs.Prelude.{◌≡◌, IfOk, vec_len};

use rules::Verdict;
use std::alloc::{AllocError, Global};
use std::io;

// A byte of a trace is recorded in at most 3 bits, and end takes a byte more: room for the longest trace that is read.
fn recording_buffer(alloc: Global) -> Result<Vec<u8>, AllocError>
    ensures { IfOk result (λ buf. 786433 ≡ vec_len buf) }
{
    Ok(vec![in alloc; 0; 786433]?)
}

// Writes the recording of a trace; a bad trace is told on standard error.
fn write_recording(rt: &(impl Print + Eprint + AllocGlobal), trace: &[u8]) -> io::Result<()> {
    let mut out = recording_buffer(rt.alloc())?;
    match record_trace::record(trace, &mut out) {
        Ok(n) => rt.write_all(&out[..page::within(n, &out)]),
        Err(why) => file_io::warn(rt, answer_words::verdict_line(Verdict::Refused(why))),
    }
}

// Answers whether all of the input was read; where it was not, that is told on standard error.
pub fn run(rt: &(impl io::Input + Print + Eprint + AllocGlobal)) -> io::Result<bool> {
    let mut bytes = file_io::input_buffer(rt.alloc())?;
    let Some(n) = file_io::read_input(rt, &mut bytes)? else {
        return Ok(false);
    };
    write_recording(rt, &bytes[..page::within(n, &bytes)])?;
    Ok(true)
}
