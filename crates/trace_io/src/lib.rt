// The trace program's reading and writing; what is read and written is decided by proved functions.
// A read or a write that fails ends the trace, and is handed to the caller.
#![tactic(auto)]

use rules::ReadResult;
use std::io;
use std::io::Read;
use std::rt::Files;
use trace_steps::Tracing;

// Writes the first line.
pub fn begin(rt: &impl Print, r: ReadResult) -> io::Result<Tracing> {
    let first = trace_steps::begin_trace(r);
    file_io::say(rt, first.line)?;
    Ok(first.tracing)
}

// Writes what a piece of the trace prints.
pub fn print_piece(rt: &impl Print, t: Tracing, piece: &[u8]) -> io::Result<Tracing> {
    let mut out = [0u8; file_io::LARGE_BUFFER];
    let fed = trace_steps::take_piece(t, piece, &mut out);
    rt.write_all(&out[..page::within(fed.len, &out)])?;
    Ok(fed.tracing)
}

// Reads once, and writes what the bytes that came print.
fn go_on(rt: &impl Print, input: &mut impl Read, t: Tracing) -> io::Result<Tracing> {
    let mut bytes = [0u8; 512];
    let n = input.read(&mut bytes)?;
    if n == 0 {
        file_io::say(rt, trace_steps::end_line(t))?;
        return Ok(Tracing { live: false, ..t });
    }
    print_piece(rt, t, &bytes[..n])
}

// A proved loop has to end, and nothing says that the input does: the turns are counted up to a number that no trace uses up.
pub fn run(rt: &(impl Files + Input + Print)) -> io::Result<()> {
    let mut input = rt.reader();
    let mut t = begin(rt, file_io::read_sheet(rt)?)?;
    for _ in 0..u64::MAX {
        if !t.live {
            break;
        }
        t = go_on(rt, &mut input, t)?;
    }
    Ok(())
}
