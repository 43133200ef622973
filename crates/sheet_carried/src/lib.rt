// What the reader of a sheet carries between two pieces, and which of it pieces can have left.
#![tactic(auto)]

mod counting; // counting.rt: how many bits have come
mod fitting; // fitting.rt: what is kept is in its rules

ghost use Rattle.std.specs.Prelude.{◌≡◌};
ghost use Rattle.sheet_carried.specs.Left.{could_be_left};

use rules::{Set, Stage, TuplePlace};

// ---- the reader's state

// How many bits a field of a sheet has, and from where to where its value may be.
#[derive(Clone, Copy)]
pub struct SheetField {
    pub width: u32,
    pub least: u32,
    pub greatest: u32,
}

// The field that comes, by its row in the table; how many whole stages (before a task or a cost) or whole tuples (before a cycle or an
// offset) of the stream that is being read stand before it, and 0 before any other field; the bits that have come of it as a number,
// and how many have not.
#[derive(Clone, Copy)]
pub struct Point {
    pub row: usize,
    pub whole: usize,
    pub acc: u64,
    pub left: u32,
}

// What is kept between two pieces: a point; the values that have been read, each in its field's place; the whole stages and the whole
// tuples of the stream that is being read; the streams that are whole, in a set of the version that was read. The version stands in
// the set alone and a cost in its stage alone. What has not been read is zero, and the version of a set 1.
#[derive(Clone, Copy)]
pub struct Carried {
    pub point: Point,
    pub values: [u32; 9],
    pub stages: [Stage; 4],
    pub places: [TuplePlace; 4],
    pub set: Set,
}

// ---- the test

// Could some pieces have left this? The bits that have come are counted only of what is in its rules.
#[tactic(auto, unfolding(crate::specs::Left::could_be_left))]
pub fn could_be_left(c: Carried) -> bool
    ensures { result ≡ could_be_left c }
{
    fitting::fits(c) && counting::whole_bytes(c)
}
