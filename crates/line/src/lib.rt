// Text as the programs print it: a line that is put together from words and numbers.
#![tactic(auto)]

ghost use Rattle.std.specs.Prelude.{◌≡◌, ◌++◌, ◌∷◌, []};
ghost use Rattle.ascii.specs.Decimal.{digits_of, decimal_of, signed_of, spaced};
ghost use Rattle.line.specs.Line.{holding, put_of, puts};

// How many bytes a line has room for: more than any answer takes.
pub const ROOM: usize = 128;

// A line: its bytes stand in the first len places.
// kept: no heap, fixed memory
#[derive(Clone, Copy)]
pub struct Line {
    pub bytes: [u8; ROOM],
    pub len: usize,
}

// A line with nothing on it.
#[tactic(auto, unfolding(crate::specs::Line::holding))]
pub fn blank() -> Line
    ensures { result ≡ holding [] }
{
    Line {
        bytes: [0u8; ROOM],
        len: 0,
    }
}

// One byte more. A full line stays as it is.
#[tactic(auto, unfolding(crate::specs::Line::put_of))]
pub fn put(l: Line, b: u8) -> Line
    ensures { result ≡ put_of l b }
{
    let at = l.len;
    if at < ROOM {
        let mut next = l;
        next.bytes[at] = b;
        next.len = at + 1;
        next
    } else {
        l
    }
}

// The bytes of w, one after the other.
pub fn word(l: Line, w: &[u8]) -> Line
    ensures { result ≡ puts l w.now }
{
    let mut next = l;
    for b in w {
        next = put(next, *b);
    }
    next
}

// The decimal digits of n, at most k of them.
#[tactic(auto, using(crate::proofs::Puts::none, crate::proofs::Puts::small, crate::proofs::Puts::large))]
fn digits(l: Line, n: u64, k: usize) -> Line
    ensures { result ≡ puts l (digits_of k n) }
{
    if k == 0 {
        l
    } else if n < 10 {
        put(l, b'0' + n as u8)
    } else {
        put(digits(l, n / 10, k - 1), b'0' + (n % 10) as u8)
    }
}

pub fn decimal(l: Line, n: u64) -> Line
    ensures { result ≡ puts l (decimal_of n) }
{
    digits(l, n, 20)
}

// A space and a number.
#[tactic(auto, using(crate::proofs::Puts::first))]
pub fn number(l: Line, n: u64) -> Line
    ensures { result ≡ puts l (spaced (decimal_of n)) }
{
    decimal(put(l, b' '), n)
}

// A space and a signed number.
#[tactic(auto, using(crate::proofs::Signs::minus, crate::proofs::Signs::plain))]
pub fn signed(l: Line, z: i64) -> Line
    ensures { result ≡ puts l (spaced (signed_of z)) }
{
    let open = put(l, b' ');
    let n = z.unsigned_abs();
    if z < 0 {
        decimal(put(open, b'-'), n)
    } else {
        decimal(open, n)
    }
}

// A word and a number, a word and two.
#[tactic(auto, using(crate::proofs::Puts::then))]
pub fn one(l: Line, w: &[u8], a: u64) -> Line
    ensures { result ≡ puts l (w.now ++ spaced (decimal_of a)) }
{
    number(word(l, w), a)
}

#[tactic(auto, using(crate::proofs::Puts::then))]
pub fn two(l: Line, w: &[u8], a: u64, b: u64) -> Line
    ensures { result ≡ puts l (w.now ++ spaced (decimal_of a) ++ spaced (decimal_of b)) }
{
    number(one(l, w, a), b)
}
