// The reading and writing of the programs for readable sheets; what is read and written is decided by proved functions.
// A write that fails is handed to the caller.
#![tactic(auto)]

use rules::{Refusal, Set, Verdict};
use std::io::Read;
use std::rt::Files;
use std::{fs, io};
use text_read::{BadLine, Text};

fn refuse(rt: &impl Print, why: Refusal) -> io::Result<()> {
    file_io::say(rt, answer_words::verdict_line(Verdict::Refused(why)))
}

// ---- a set's text, from its sheet

fn print_text(rt: &impl Print, x: Set) -> io::Result<()> {
    let mut out = [0u8; file_io::BUFFER];
    match text_print::print(x, &mut out) {
        Ok(n) => {
            let len = page::within(n, &out);
            rt.write_all(&out[..len])
        }
        Err(why) => refuse(rt, why),
    }
}

// `sheet_show`: the file set.bin as text.
pub fn show(rt: &(impl Files + Print)) -> io::Result<()> {
    let sheet = file_io::read_sheet(rt)?;
    match sheet.answer {
        Ok(()) => print_text(rt, sheet.set),
        Err(why) => refuse(rt, why),
    }
}

// ---- a sheet, from a set's text

// The text of standard input. What stands behind a bad line is read all the same, and does not count. None: the input cannot be read, which is told, and no sheet is made of what came before.
// A proved loop has to end, and nothing says that the input does: the turns are counted up to a number that no run uses up.
fn listen(rt: &(impl Input + Eprint)) -> io::Result<Option<Text>> {
    let mut input = rt.reader();
    let mut text = text_read::start();
    let mut bytes = [0u8; 512];
    for _ in 0..u64::MAX {
        match input.read(&mut bytes) {
            Ok(0) => return Ok(Some(text)),
            Ok(n) => text = text_read::feed(text, &bytes[..n]),
            Err(why) => {
                file_io::fail(rt, "standard input", why)?;
                break;
            }
        }
    }
    Ok(None)
}

// Answers whether the set's sheet was kept, or that it has none was told.
fn keep(rt: &(impl Files + Print + Eprint), x: Set) -> io::Result<bool> {
    let mut bytes = [0u8; rules::LONGEST_SHEET];
    match sheet_write::write(x, &mut bytes) {
        Ok(n) => {
            let len = page::within(n, &bytes);
            if !file_io::save_sheet(rt, &bytes[..len])? {
                return Ok(false);
            }
            file_io::say(rt, text_faults::made_line(x.count as u64, len as u64))?;
        }
        Err(why) => refuse(rt, why)?,
    }
    Ok(true)
}

// `sheet_text`: a text from standard input as the file set.bin. A bad text leaves set.bin as it is.
// Answers whether what the text reads as was told on standard output.
pub fn make(rt: &(impl Files + Input + Print + Eprint)) -> io::Result<bool> {
    let Some(text) = listen(rt)? else {
        return Ok(false);
    };
    match text_read::close(text) {
        Ok(set) => keep(rt, set),
        Err(bad) => {
            file_io::say(rt, text_faults::fault_line(bad.number, bad.fault))?;
            Ok(true)
        }
    }
}

// ---- many texts from one file

// A set's sheet in hex, and its text.
fn print_both(rt: &impl Print, x: Set) -> io::Result<()> {
    let mut bytes = [0u8; rules::LONGEST_SHEET];
    match sheet_write::write(x, &mut bytes) {
        Ok(n) => {
            let len = page::within(n, &bytes);
            let mut out = [0u8; file_io::BUFFER];
            let end = page::within(page_hex::print(&bytes[..len], &mut out, 0), &out);
            rt.write_all(&out[..end])?;
            file_io::say(rt, line::put(line::blank(), b'\n'))?;
            print_text(rt, x)
        }
        Err(why) => refuse(rt, why),
    }
}

// What a text reads as: its set, or its first bad line.
fn print_found(rt: &impl Print, read: Result<Set, BadLine>) -> io::Result<()> {
    match read {
        Ok(set) => print_both(rt, set),
        Err(bad) => file_io::say(rt, text_faults::fault_line(bad.number, bad.fault)),
    }
}

// The text that is being read, and its number.
#[derive(Clone, Copy)]
struct Pile {
    text: Text,
    number: u64,
}

// A text ends here.
fn end_text(rt: &impl Print, p: Pile) -> io::Result<Pile> {
    let head = line::one(line::blank(), b"text", p.number);
    file_io::say(rt, line::put(head, b'\n'))?;
    print_found(rt, text_read::close(p.text))?;
    Ok(Pile {
        text: text_read::start(),
        number: p.number % 1000000 + 1,
    })
}

// A zero byte ends a text. What stands between two of them is fed at once: a text that is handed over and back is copied.
fn take_piece(rt: &impl Print, p: Pile, piece: &[u8]) -> io::Result<Pile> {
    let mut next = p;
    let mut from = 0;
    for (k, b) in piece.iter().enumerate() {
        if *b == 0 {
            next.text = text_read::feed(next.text, &piece[from..k]);
            next = end_text(rt, next)?;
            from = k + 1;
        }
    }
    next.text = text_read::feed(next.text, &piece[from..]);
    Ok(next)
}

// The texts of an open file.
fn take_texts(rt: &impl Print, file: &mut impl Read) -> io::Result<()> {
    let mut p = Pile {
        text: text_read::start(),
        number: 1,
    };
    let mut bytes = [0u8; 512];
    for _ in 0..1000000 {
        let n = file_io::read_full(file, &mut bytes)?;
        if n == 0 {
            break;
        }
        p = take_piece(rt, p, &bytes[..n])?;
    }
    Ok(())
}

// The texts of the file texts.txt, each ended by a zero byte: what is wrong with it, or its sheet and its text again.
pub fn batch(rt: &(impl Files + Print + Eprint)) -> io::Result<()> {
    match fs::open(rt, "texts.txt") {
        Ok(mut file) => take_texts(rt, &mut file),
        Err(why) => file_io::fail(rt, "texts.txt", why),
    }
}
