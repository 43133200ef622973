// What the programs share of the world outside: the file set.bin, standard input in whole, and a line written out.
// A write that fails is handed to the caller.
#![tactic(auto)]

ghost use Rattle.std.specs.Prelude.{◌≡◌, ◌≤◌, IfOk, length, vec_len};
ghost use Rattle.std.specs.Io.{ReadsAtMost};

use line::Line;
use rules::ReadResult;
use std::alloc::{AllocError, Global};
use std::fmt::Write as _;
use std::fs::OpenFile;
use std::io::{ErrorKind, Read, Write};
use std::rt::Files;
use std::{fmt, fs, io};

// How many bytes a buffer has that takes a line or a sheet in hex or a set's text, and one for what goes on for long.
pub const BUFFER: usize = 4096;

pub const LARGE_BUFFER: usize = 65536;

// Bytes as the text that they are in ASCII.
#[derive(Drop)]
struct Ascii<'a>(&'a [u8]);

impl fmt::Display for Ascii<'_> {
    fn fmt<W: fmt::Write>(&self, f: &mut fmt::Formatter<W>) -> fmt::Result {
        for b in self.0 {
            let b = char::from(*b);
            write!(f, "{b}")?;
        }
        Ok(())
    }
}

// The bytes of a line.
fn bytes_of(l: &Line) -> &[u8] {
    &l.bytes[..page::within(l.len, &l.bytes)]
}

// Writes a line out.
pub fn say(rt: &impl Print, l: Line) -> io::Result<()> {
    rt.write_all(bytes_of(&l))
}

// Writes a line on standard error.
pub fn warn(rt: &impl Eprint, l: Line) -> io::Result<()> {
    rt.eprint(Ascii(bytes_of(&l)))
}

// The first words of a text, as many as there is room for.
// kept: no heap, fixed memory: no allocator reaches a message that tells of a failure
#[derive(Clone, Copy)]
struct Words {
    bytes: [u8; 256],
    len: usize,
}

impl fmt::Write for Words {
    fn write_str(&mut self, s: &str) -> fmt::Result {
        for b in s.as_bytes() {
            if let Some(place) = self.bytes.get_mut(self.len) {
                *place = *b;
                self.len += 1;
            }
        }
        Ok(())
    }
}

// Where the number begins that std puts behind the system's words, or the end where there is none.
fn words_end(text: &[u8]) -> usize
    ensures { result ≤ length text.now }
{
    for i in 0..text.len() {
        if text[i..].starts_with(b" (os error ") {
            return i;
        }
    }
    text.len()
}

// Tells on standard error what failed, and why as the system says it, without the number that std puts behind.
pub fn fail(rt: &impl Eprint, what: &str, why: io::Error) -> io::Result<()> {
    let mut words = Words {
        bytes: [0; 256],
        len: 0,
    };
    let _ = write!(words, "{why}");
    let text = &words.bytes[..page::within(words.len, &words.bytes)];
    let said = Ascii(&text[..words_end(text)]);
    eprintln!(rt; "{what}: {said}")
}

// ---- files, read

// Reads until the buffer is full or the file ends, and answers how many bytes stand at the buffer's front.
pub fn read_full(file: &mut impl Read, buf: &mut [u8]) -> io::Result<usize>
    ensures { ReadsAtMost result buf.new }
{
    let mut n = 0;
    while n < buf.len() {
        let more = file.read(&mut buf[n..])?;
        if more == 0 {
            break;
        }
        n += more;
    }
    Ok(n)
}

// The sheet in the file set.bin; a missing file is read as no bytes. No sheet has more than 502 bytes, so of a longer file 503
// tell all: `long_sheet` of crates/sheet_write.
pub fn read_sheet(rt: &impl Files) -> io::Result<ReadResult> {
    let mut bytes = [0u8; rules::LONGEST_SHEET + 1];
    match fs::open(rt, "set.bin") {
        Ok(mut file) => {
            let n = read_full(&mut file, &mut bytes)?;
            Ok(sheet_read::read(&bytes[..n]))
        }
        Err(_) => Ok(sheet_read::read(&bytes[..0])),
    }
}

// ---- the file set.bin, written

// Tells which file cannot be written, and takes the new one away.
fn give_up(rt: &(impl Files + Eprint), what: &str, why: io::Error) -> io::Result<bool> {
    let told = fail(rt, what, why);
    let _ = fs::remove_file(rt, "set.bin.new");
    told?;
    Ok(false)
}

// All bytes into a file, which is closed then. What the system puts off until then is waited for, so that it is told; where what stands under the
// name cannot be waited for, as a pipe, all is written.
fn fill<F: Write + OpenFile + Drop>(file: F, bytes: &[u8]) -> io::Result<()> {
    let mut file = file;
    file.write_all(bytes)?;
    match file.sync_all() {
        Ok(()) => Ok(()),
        Err(why) => match why.kind() {
            ErrorKind::InvalidInput | ErrorKind::Unsupported => Ok(()),
            _ => Err(why),
        },
    }
}

// Writes the sheet to a file of its own, which then takes the place of set.bin: that is the whole sheet, or as it was.
// Answers which; why it is as it was is told on standard error.
pub fn save_sheet(rt: &(impl Files + Eprint), bytes: &[u8]) -> io::Result<bool> {
    let file = match fs::create(rt, "set.bin.new") {
        Ok(file) => file,
        Err(why) => {
            fail(rt, "set.bin.new", why)?;
            return Ok(false);
        }
    };
    if let Err(why) = fill(file, bytes) {
        return give_up(rt, "set.bin.new", why);
    }
    if let Err(why) = fs::rename(rt, "set.bin.new", "set.bin") {
        return give_up(rt, "set.bin", why);
    }
    Ok(true)
}

// ---- standard input

// Of standard input a program reads at most 2,097,152 bytes: the buffer for it has one more. Only its length is told, which lending it needs.
pub fn input_buffer(alloc: Global) -> Result<Vec<u8>, AllocError>
    ensures { IfOk result (λ buf. 2097153 ≡ vec_len buf) }
{
    Ok(vec![in alloc; 0; 2097153]?)
}

fn tell_unread(rt: &impl Eprint, why: io::Error) -> io::Result<Option<usize>> {
    fail(rt, "standard input", why)?;
    Ok(None)
}

fn tell_long(rt: &impl Eprint, room: usize) -> io::Result<Option<usize>> {
    let number = line::one(line::blank(), b"standard input:", room as u64);
    warn(rt, line::word(number, b" bytes or more\n"))?;
    Ok(None)
}

// Reads standard input to its end, into the front of a buffer that is longer, and answers how many bytes that are; or none, where a message on
// standard error says why.
pub fn read_input(rt: &(impl io::Input + Eprint), buf: &mut [u8]) -> io::Result<Option<usize>> {
    let mut input = rt.reader();
    let mut n = 0;
    while n < buf.len() {
        match input.read(&mut buf[n..]) {
            Ok(0) => return Ok(Some(n)),
            Ok(more) => n += more,
            Err(why) => return tell_unread(rt, why),
        }
    }
    tell_long(rt, n)
}
