// Sheets in pieces: every cut of a sheet of each version, what is refused, and what no pieces could have left.
#![tactic(auto)]

use rules::Refusal;
use sheet_carried::{Carried, Point};
use std::{fmt, io};

// ---- what is printed

fn refused(rt: &impl Print, why: Refusal) -> io::Result<()> {
    let number = answer_numbers::refusal_number(why);
    println!(rt; "refused {number}")
}

// Bytes in hex, printed at once and not one by one.
#[derive(Clone, Copy)]
struct Hex<'a> {
    bytes: &'a [u8],
}

impl fmt::Display for Hex<'_> {
    fn fmt<W: fmt::Write>(&self, f: &mut fmt::Formatter<W>) -> fmt::Result {
        for b in self.bytes {
            write!(f, "{b:02x}")?;
        }
        Ok(())
    }
}

// What closing gives: the number of streams and the set's sheet, written again, or the refusal.
fn close(rt: &impl Print, c: Carried) -> io::Result<()> {
    let r = sheet_read::close(c);
    if let Err(why) = r.answer {
        return refused(rt, why);
    }
    let count = r.set.count;
    let mut bytes = [0u8; rules::LONGEST_SHEET];
    let n = sheet_write::write(r.set, &mut bytes).unwrap_or(0);
    let sheet = Hex {
        bytes: bytes.get(..n).unwrap_or(&[]),
    };
    println!(rt; "set {count} {sheet}")
}

// ---- pieces

fn fed(c: Carried, piece: &[u8]) -> Carried {
    sheet_read::feed(c, piece).carried
}

// Cut before every byte, and behind the last.
fn every_cut(rt: &impl Print, bytes: &[u8]) -> io::Result<()> {
    for at in 0..=bytes.len() {
        print!(rt; "cut {at}: ")?;
        let (front, back) = bytes.split_at(at);
        close(rt, fed(fed(sheet_read::cable(), front), back))?;
    }
    Ok(())
}

fn byte_by_byte(rt: &impl Print, bytes: &[u8]) -> io::Result<()> {
    print!(rt; "byte by byte: ")?;
    let mut c = sheet_read::cable();
    for b in bytes {
        c = fed(c, &[*b]);
    }
    close(rt, c)
}

fn whole(rt: &impl Print, bytes: &[u8]) -> io::Result<()> {
    every_cut(rt, bytes)?;
    byte_by_byte(rt, bytes)
}

// Three pieces, an empty one before the first and behind it.
fn three(rt: &impl Print, name: &str, pieces: [&[u8]; 3]) -> io::Result<()> {
    print!(rt; "{name}: ")?;
    let [first, second, third] = pieces;
    let mut c = sheet_read::cable();
    for piece in [b"", first, b"", second, third] {
        c = fed(c, piece);
    }
    close(rt, c)
}

// ---- what no pieces could have left

fn twelve(rt: &impl Print, name: &str, c: Carried) -> io::Result<()> {
    print!(rt; "{name}, feed: ")?;
    let r = sheet_read::feed(c, b"\x10");
    match r.answer {
        Ok(()) => println!(rt; "fed")?,
        Err(why) => refused(rt, why)?,
    }
    print!(rt; "{name}, close: ")?;
    close(rt, r.carried)
}

fn within_a_byte() -> Carried {
    let mut c = sheet_read::cable();
    c.point = Point {
        row: 1,
        whole: 0,
        acc: 0,
        left: 5,
    };
    c
}

fn value_not_read() -> Carried {
    let mut c = sheet_read::cable();
    c.values[2] = 5;
    c
}

fn stream_not_there() -> Carried {
    let mut c = sheet_read::cable();
    c.set.count = 1;
    c
}

fn main(rt: HostRuntime) -> io::Result<()> {
    whole(&rt, b"\x10\x98\x00\x10\x00\x0a\x00\x00\x50\x00\x00")?;
    whole(
        &rt,
        b"\x21\x00\x01\x88\x80\x01\x20\x00\x18\x00\x06\x40\x00\x00\x00\x78\x40\x00\x20\x00\x0c\x80\x00\x00",
    )?;
    three(
        &rt,
        "empty pieces",
        [b"\x10\x98\x00\x10\x00\x0a", b"\x00\x00\x50\x00\x00", b""],
    )?;
    three(
        &rt,
        "cost 0, more behind",
        [b"\x10\x98\x00", b"\x00", b"\x00\x0a\x00\x00\x50\x00\x00"],
    )?;
    three(
        &rt,
        "a byte behind the padding",
        [b"\x10", b"\x00", b"\x00"],
    )?;
    three(&rt, "a set padding bit", [b"\x10", b"\x01", b""])?;
    three(&rt, "bits missing", [b"\x10\x98", b"\x00\x10\x00", b"\x0a"])?;
    three(&rt, "no bytes", [b"", b"", b""])?;
    three(
        &rt,
        "version 3, more behind",
        [b"\x30", b"\xff", b"\x10\x00"],
    )?;
    twelve(&rt, "new", sheet_read::cable())?;
    twelve(&rt, "within a byte", within_a_byte())?;
    twelve(&rt, "a value that was not read", value_not_read())?;
    twelve(&rt, "a stream that is not there", stream_not_there())
}
