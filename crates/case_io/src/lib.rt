// Many cases from one file, and what the trace program or the replay program makes of each.
// A read or a write that fails ends them, and is handed to the caller.
#![tactic(auto)]

ghost use Rattle.std.specs.Io.{ReadsAtMost};

use replay_lines::Replaying;
use rules::ReadResult;
use std::io::Read;
use std::rt::Files;
use std::{fs, io};
use trace_steps::Tracing;

// A length of four bytes, most significant first; the end mark where the file ends.
fn next_length(file: &mut impl Read) -> io::Result<u32> {
    let mut b = [0u8; 4];
    let n = file_io::read_full(file, &mut b)?;
    if n < 4 {
        return Ok(u32::MAX);
    }
    Ok(u32::from_be_bytes(b))
}

// The next `n` bytes, at the front of a buffer that has room for them.
fn next_bytes(file: &mut impl Read, n: u32, buf: &mut [u8]) -> io::Result<usize>
    ensures { ReadsAtMost result buf.new }
{
    let room = page::within(n as usize, buf);
    let got = file_io::read_full(file, &mut buf[..room])?;
    Ok(page::within(got, buf))
}

// The sheet of a case, of `n` bytes.
fn sheet_of(file: &mut impl Read, n: u32) -> io::Result<ReadResult> {
    let mut bytes = [0u8; file_io::BUFFER];
    let len = next_bytes(file, n, &mut bytes)?;
    Ok(sheet_read::read(&bytes[..len]))
}

// The last `n` bytes of a case's trace, fewer than 64, and its end.
fn rest_of(rt: &impl Print, file: &mut impl Read, t: Tracing, n: u32) -> io::Result<()> {
    let mut piece = [0u8; 64];
    let len = next_bytes(file, n, &mut piece)?;
    let last = trace_io::print_piece(rt, t, &piece[..len])?;
    file_io::say(rt, trace_steps::end_line(last))
}

// The trace of a case, of `n` bytes.
fn trace_of(rt: &impl Print, file: &mut impl Read, begun: Tracing, n: u32) -> io::Result<()> {
    let mut t = begun;
    for _ in 0..n / 64 {
        let mut piece = [0u8; 64];
        file_io::read_full(file, &mut piece)?;
        t = trace_io::print_piece(rt, t, &piece)?;
    }
    rest_of(rt, file, t, n % 64)
}

// The recording of a case, of `n` bytes, 4,096 at most.
fn replay_of(rt: &impl Print, file: &mut impl Read, begun: Replaying, n: u32) -> io::Result<()> {
    let mut bytes = [0u8; file_io::BUFFER];
    let len = next_bytes(file, n, &mut bytes)?;
    replay_io::print_pages(rt, &bytes[..len], begun)
}

// What is made of the cases.
#[derive(Clone, Copy)]
pub enum Kind {
    Traces,
    Recordings,
}

// All that the trace program prints for a case's sheet and its trace, or the replay program for its sheet and its recording.
fn made_of(rt: &impl Print, file: &mut impl Read, kind: Kind, r: ReadResult) -> io::Result<()> {
    let n = next_length(file)?;
    match kind {
        Kind::Traces => trace_of(rt, file, trace_io::begin(rt, r)?, n),
        Kind::Recordings => replay_of(rt, file, replay_io::begin(rt, r)?, n),
    }
}

// A case's number, and what is made of its sheet, of `n` bytes, and of what follows it.
fn one_case(rt: &impl Print, file: &mut impl Read, kind: Kind, at: u64, n: u32) -> io::Result<()> {
    let head = line::put(line::one(line::blank(), b"case", at), b'\n');
    file_io::say(rt, head)?;
    let sheet = sheet_of(file, n)?;
    made_of(rt, file, kind, sheet)
}

// The cases of an open file.
fn take_cases(rt: &impl Print, file: &mut impl Read, kind: Kind) -> io::Result<()> {
    for at in 0..1000000 {
        let n = next_length(file)?;
        if 4096 < n {
            break;
        }
        one_case(rt, file, kind, at, n)?;
    }
    Ok(())
}

// The cases of the file cases.bin: for each the length of its sheet in four bytes, the sheet, the length of its trace or recording, the trace or
// recording. The end mark, 255 four times, or a sheet too long for a case ends them.
pub fn batch(rt: &(impl Files + Print + Eprint), kind: Kind) -> io::Result<()> {
    match fs::open(rt, "cases.bin") {
        Ok(mut file) => take_cases(rt, &mut file, kind),
        Err(why) => file_io::fail(rt, "cases.bin", why),
    }
}
