// The console's reading and writing: lines are put together from the bytes that come, each is obeyed, and what is printed is written
// out. A read or a write that fails ends the console, and is handed to the caller.
#![tactic(auto)]

ghost use Rattle.std.specs.Prelude.{◌≡◌, ◌≤◌, IfOk, IfSome};
ghost use Rattle.console_obey.specs.Obeyed.{Obeyed};
ghost use Rattle.console_io.specs.Room.{half_page, Roomy};

use console_obey::{Desk, Step};
use std::io;
use std::io::Read;

// How many bytes are read at once, and how many the page has room for.
const PIECE: usize = 4096;

const PAGE: usize = 65536;

// The page is written out beyond this.
const HALF_PAGE: usize = 32768;

// What is carried from one reading to the next: the desk, how many bytes of the line have come (4,097 stand for any more), and how
// many bytes stand on the page.
// kept: fixed memory, a line of any length and what it prints need no heap: the numbers stand beside their two buffers.
#[derive(Clone, Copy)]
pub struct Carry {
    pub desk: Desk,
    pub len: usize,
    pub at: usize,
}

// Writes the page out.
fn flush(rt: &impl Print, c: Carry, out: &[u8]) -> io::Result<Carry>
    ensures { IfOk result (λ next. next.at ≡ 0) }
{
    let n = page::within(c.at, out);
    rt.write_all(&out[..n])?;
    Ok(Carry { at: 0, ..c })
}

// A line is always obeyed: the half of the page that is left has room for any answer.
fn obey(d: Desk, line: &[u8], out: &mut [u8], at: usize) -> Step
    requires { Roomy at out.old }
    ensures { Obeyed d line.now out.old at result out.new }
{
    console_obey::obey(d, line, out, at)
}

// The line that has come, obeyed.
fn end_line(rt: &impl Print, c: Carry, line: &[u8], out: &mut [u8]) -> io::Result<Carry>
    requires { Roomy c.at out.old }
    ensures { IfOk result (λ next. next.at ≤ half_page) }
{
    let n = page::within(c.len, line);
    let s = obey(c.desk, &line[..n], out, c.at);
    let next = Carry {
        desk: s.desk,
        len: 0,
        at: s.at,
    };
    if HALF_PAGE < next.at {
        flush(rt, next, out)
    } else {
        Ok(next)
    }
}

// One byte: a newline ends the line, any other joins it. Of a line longer than 4,096 bytes the first 4,097 are kept.
fn take_byte(rt: &impl Print, c: Carry, b: u8, line: &mut [u8], out: &mut [u8]) -> io::Result<Carry>
    requires { Roomy c.at out.old }
    ensures { IfOk result (λ next. next.at ≤ half_page) }
{
    if b == b'\n' {
        return end_line(rt, c, line, out);
    }
    match line.get_mut(c.len) {
        Some(place) => {
            *place = b;
            Ok(Carry {
                len: c.len + 1,
                ..c
            })
        }
        None => Ok(c),
    }
}

fn take_piece(
    rt: &impl Print,
    c: Carry,
    piece: &[u8],
    line: &mut [u8],
    out: &mut [u8],
) -> io::Result<Carry>
    requires { Roomy c.at out.old }
    ensures { IfOk result (λ next. next.at ≤ half_page) }
{
    let mut next = c;
    for b in piece {
        next = take_byte(rt, next, *b, line, out)?;
    }
    Ok(next)
}

// Reads once, obeys the lines that came, and writes what they print; nothing is carried on where the input has ended. The last line may
// lack its newline.
fn go_on(
    rt: &impl Print,
    input: &mut impl Read,
    c: Carry,
    line: &mut [u8],
    out: &mut [u8],
) -> io::Result<Option<Carry>>
    requires { Roomy c.at out.old }
    ensures { IfOk result (λ carried. IfSome carried (λ next. next.at ≤ half_page)) }
{
    let mut bytes = [0u8; PIECE];
    let n = input.read(&mut bytes)?;
    if n == 0 {
        let ended = end_line(rt, c, line, out)?;
        flush(rt, ended, out)?;
        return Ok(None);
    }
    let next = take_piece(rt, c, &bytes[..n], line, out)?;
    Ok(Some(flush(rt, next, out)?))
}

// A proved loop has to end, and nothing says that the input does: the turns are counted up to a number that no run uses up.
fn serve(rt: &(impl Input + Print), first: Carry, line: &mut [u8], out: &mut [u8]) -> io::Result<()>
    requires { Roomy first.at out.old }
{
    let mut input = rt.reader();
    let mut c = first;
    for _ in 0..u64::MAX {
        match go_on(rt, &mut input, c, line, out)? {
            Some(next) => c = next,
            None => return Ok(()),
        }
    }
    Ok(())
}

pub fn run(rt: &(impl Input + Print)) -> io::Result<()> {
    let first = Carry {
        desk: console_obey::first(),
        len: 0,
        at: 0,
    };
    let mut line = [0u8; console_parse::LONGEST + 1];
    let mut out = [0u8; PAGE];
    serve(rt, first, &mut line, &mut out)
}
