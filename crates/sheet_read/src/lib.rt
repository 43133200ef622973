// A sheet is read, of either version: whole, or in pieces.
// The reader takes bits: it keeps the whole fields that it has read, and the bits that have come of the next one.
#![tactic(auto)]

mod closing; // closing.rt: what the sheet reads as when no bit comes any more
mod feeding; // feeding.rt: bits come, field after field
mod table; // table.rt: the fields of a sheet as data
mod tuples; // tuples.rt: tuples that come at once

ghost use Rattle.std.specs.Prelude.{◌≡◌};
ghost use Rattle.rules.specs.Sheet.{read_of};
ghost use Rattle.sheet_carried.specs.Reader.{start_of};
ghost use Rattle.sheet_read.specs.Cable.{closed_of, feed_of};

use rules::{Place, ReadResult, Refusal, TuplePlace};
use sheet_carried::Carried;

// Tuples that came at once: how many, and the tuples; the cycle and the offset that are kept behind them; the place behind them.
#[derive(Clone, Copy)]
pub(crate) struct Came {
    pub whole: usize,
    pub places: [TuplePlace; 4],
    pub cycle: u32,
    pub low: u32,
    pub at: Place,
}

// What a string of bytes reads as: the set, or a refusal with the empty set.
pub fn read(bytes: &[u8]) -> ReadResult
    ensures { result ≡ read_of bytes.now }
{
    closing::close(feeding::feed(feeding::start(), bytes))
}

// ---- in pieces

// What feeding a piece answers, and what is carried behind it.
#[derive(Clone, Copy)]
pub struct FeedResult {
    pub answer: Result<(), Refusal>,
    pub carried: Carried,
}

// What is carried before the first piece.
pub fn cable() -> Carried
    ensures { result ≡ start_of }
{
    feeding::start()
}

// A piece of a sheet, any bytes: fed, or 12 for what no pieces could have left, unchanged.
pub fn feed(c: Carried, piece: &[u8]) -> FeedResult
    ensures { result ≡ feed_of c piece.now }
{
    if sheet_carried::could_be_left(c) {
        FeedResult {
            answer: Ok(()),
            carried: feeding::feed(c, piece),
        }
    } else {
        FeedResult {
            answer: Err(Refusal::IllFormed),
            carried: c,
        }
    }
}

// What the bytes that were fed read as; 12 with the empty set for what no pieces could have left.
pub fn close(c: Carried) -> ReadResult
    ensures { result ≡ closed_of c }
{
    if sheet_carried::could_be_left(c) {
        closing::close(c)
    } else {
        closing::no_set(Refusal::IllFormed)
    }
}
