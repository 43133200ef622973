// A line of a readable text made tidy, byte by byte: no comment, one space between words, none at the ends.
#![tactic(auto)]

ghost use Rattle.std.specs.Prelude.{◌≡◌, []};
ghost use Rattle.text_tidy.specs.Tidied.{row_of, row_put, fresh, spaced_for, kept_of};

// How many bytes of a tidy line are kept: more than any stream's line has.
pub const ROOM: usize = 192;

// The first bytes of a tidy line: they stand in the first len places.
// kept: no heap, fixed memory
#[derive(Clone, Copy)]
pub struct Row {
    pub bytes: [u8; ROOM],
    pub len: usize,
}

// Where a line stands: at its start or behind a byte of a word, in a gap that waits for a byte behind it, in a comment.
#[derive(Clone, Copy)]
pub enum Spot {
    Word,
    Gap,
    Comment,
}

// A line so far: its tidy bytes, and where it stands.
#[derive(Clone, Copy)]
pub struct Tidy {
    pub row: Row,
    pub spot: Spot,
}

// One byte more. A full row stays as it is.
#[tactic(auto, unfolding(crate::specs::Tidied::row_put))]
fn put(row: Row, b: u8) -> Row
    ensures { result ≡ row_put row b }
{
    if row.len < ROOM {
        let mut next = row;
        next.bytes[row.len] = b;
        next.len += 1;
        next
    } else {
        row
    }
}

// A line of which no byte has come.
#[tactic(auto, unfolding(crate::specs::Tidied::fresh, crate::specs::Tidied::row_of))]
pub fn start() -> Tidy
    ensures { result ≡ fresh }
{
    Tidy {
        row: Row {
            bytes: [0; ROOM],
            len: 0,
        },
        spot: Spot::Word,
    }
}

// A space, where a gap waits behind a byte of the line.
#[tactic(auto, unfolding(crate::specs::Tidied::spaced_for))]
fn spaced(t: Tidy) -> Row
    ensures { result ≡ spaced_for t.spot t.row }
{
    match t.spot {
        Spot::Gap if 0 < t.row.len => put(t.row, b' '),
        _ => t.row,
    }
}

// A line after one more byte, which is no newline.
#[tactic(auto, unfolding(crate::specs::Tidied::kept_of))]
pub fn keep(t: Tidy, b: u8) -> Tidy
    ensures { result ≡ kept_of t b }
{
    match (t.spot, b) {
        (Spot::Comment, _) => t,
        (_, b'#') => Tidy {
            spot: Spot::Comment,
            ..t
        },
        (_, b' ' | b'\t' | b'\r') => Tidy {
            spot: Spot::Gap,
            ..t
        },
        _ => Tidy {
            row: put(spaced(t), b),
            spot: Spot::Word,
        },
    }
}
