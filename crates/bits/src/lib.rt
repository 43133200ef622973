// Fields of any width in a string of bytes, most significant bit first. They know no sheet.
// A place is a byte and a bit behind it, so that no place is too large for its number.
#![tactic(auto)]

ghost use Rattle.std.specs.Prelude.{◌≡◌, true, ◌+◌, ◌-◌, ◌*◌, ◌/◌, ◌%◌, ◌^◌, ◌<◌, ◌≤◌, length, min, set};
ghost use Rattle.std.proofs.Math.Seq.{paste};
ghost use Rattle.laws.specs.Bits.{bits, to_bits};
ghost use Rattle.rules.specs.Recordings.{bit_at};
ghost use Rattle.bits.specs.Places.{word_of, Near, field_at, got_of, gather_of, in_eight, two_of, take_of, put_of, put_bits};

use rules::Place;

// Bits that were taken: the number that they stand for, and how many there were.
#[derive(Clone, Copy)]
pub struct Gathered {
    pub value: u64,
    pub got: u32,
}

// Why a field was not taken.
#[derive(Clone, Copy, PartialEq, Eq, Debug)]
pub enum NotTaken {
    Missing,
    TooWide,
}

// Why a field was not put.
#[derive(Clone, Copy, PartialEq, Eq, Debug)]
pub enum NotPut {
    NoRoom,
    TooWide,
}

// The place `n` bits on; a byte that no number names is the last that one does.
pub fn after(at: Place, n: u32) -> Place
    ensures byte { result.byte ≡ min (at.byte + (at.bit + n) / 8) 18446744073709551615 }
    ensures bit { result.bit ≡ (at.bit + n) % 8 }
{
    let end = u64::from(at.bit) + u64::from(n);
    Place {
        byte: at.byte.saturating_add((end / 8) as usize),
        bit: (end % 8) as u32,
    }
}

// How many of `width` bits, of 64 at most, `len` bytes have at a place.
fn there(len: usize, at: Place, width: u32) -> u32
    ensures { result ≡ got_of len (bit_at at) width }
{
    let rest = len.saturating_sub(at.byte).saturating_mul(8);
    rest.saturating_sub(at.bit as usize)
        .min(width.min(64) as usize) as u32
}

// Whether a field lies in the four bytes from a byte on, and all four are there.
fn near(len: usize, at: Place, width: u32) -> bool
    ensures { result ≡ true → Near len at.byte at.bit width }
{
    0 < width && width <= 24 && at.bit < 8 && at.byte < len && 4 <= len - at.byte
}

// Four bytes as one number.
fn four(s: &[u8], byte: usize) -> u64
    requires { byte + 4 ≤ length s.now }
    ensures { result ≡ word_of s.now byte 4 }
{
    u32::from_be_bytes([s[byte], s[byte + 1], s[byte + 2], s[byte + 3]]) as u64
}

// A field of 32 bits at most: the bytes that it touches as one number, without the bits in front and behind.
fn word(s: &[u8], at: Place, width: u32) -> u64
    requires { (at.bit < 8) × (width ≤ 32) × (bit_at at + width ≤ 8 * length s.now) }
    ensures { result ≡ field_at s.now (bit_at at) width }
{
    if width == 0 {
        return 0;
    }
    let n = (at.bit + width + 7) / 8;
    let mut v: u64 = 0;
    for b in &s[at.byte..at.byte + n as usize] {
        v = v * 256 + *b as u64;
    }
    (v << (64 - (8 * n - at.bit))) >> (64 - width)
}

// The bits at a place, one word or two.
#[tactic(auto, unfolding(crate::specs::Places::gather_of))]
fn far(s: &[u8], at: Place, width: u32) -> Gathered
    ensures { result ≡ gather_of s.now (bit_at at) width }
{
    let got = there(s.len(), at, width);
    if got == 0 {
        return Gathered { value: 0, got: 0 };
    }
    let first = after(at, 0);
    if got <= 32 {
        return Gathered {
            value: word(s, first, got),
            got,
        };
    }
    let high = word(s, first, got - 32);
    let low = word(s, after(first, got - 32), 32);
    Gathered {
        value: high * 4294967296 + low,
        got,
    }
}

// The bits at a place: as many as are asked for, 64 at most, and as many as there are.
pub fn gather(s: &[u8], at: Place, width: u32) -> Gathered
    ensures { result ≡ gather_of s.now (bit_at at) width }
{
    if near(s.len(), at, width) {
        return Gathered {
            value: (four(s, at.byte) << (32 + at.bit)) >> (64 - width),
            got: width,
        };
    }
    far(s, at, width)
}

// Eight bytes as one number.
fn eight(s: &[u8], byte: usize) -> u64
    requires { byte + 8 ≤ length s.now }
    ensures { result ≡ word_of s.now byte 8 }
{
    let high = four(s, byte);
    let low = four(s, byte + 4);
    high * 4294967296 + low
}

// Whether two fields lie in the eight bytes from a byte on, and all eight are there.
#[tactic(auto, unfolding(crate::specs::Places::in_eight))]
fn in_eight(len: usize, at: Place, first: u32, second: u32) -> bool
    ensures { result ≡ in_eight len at.byte at.bit first second }
{
    let there = 8 <= len.saturating_sub(at.byte);
    let one = (0 < first) & (first <= 32);
    let other = (0 < second) & (second <= 24);
    there & ((at.bit < 8) & (one & other))
}

// Two fields, one behind the other, in eight bytes that are there: both at once, or neither.
pub fn take_two(s: &[u8], at: Place, first: u32, second: u32) -> Option<(u32, u32)>
    ensures { result ≡ two_of s.now at.byte at.bit first second }
{
    if in_eight(s.len(), at, first, second) {
        let w = eight(s, at.byte);
        let one = ((w << at.bit) >> (64 - first)) as u32;
        let other = ((w << (at.bit + first)) >> (64 - second)) as u32;
        return Some((one, other));
    }
    None
}

// The field of `width` bits at a place.
#[tactic(auto, unfolding(crate::specs::Places::take_of, crate::specs::Places::gather_of))]
pub fn take(s: &[u8], at: Place, width: u32) -> Result<u64, NotTaken>
    ensures { result ≡ take_of s.now (bit_at at) width }
{
    if 64 < width {
        return Err(NotTaken::TooWide);
    }
    let g = gather(s, at, width);
    let got = g.got;
    if got == width {
        Ok(g.value)
    } else {
        Err(NotTaken::Missing)
    }
}

// The byte `b` with `x` for its bit of weight 2 ^ k.
fn with_bit(b: u8, k: u8, x: u8) -> u8
    requires { (k < 8) × (x < 2) }
    ensures { to_bits 8 result ≡ set (to_bits 8 b) (7 - k) x }
{
    let m = 1u8 << k;
    b - (b >> k) % 2 * m + x * m
}

// The bit at a place is `x`; no other bit changes.
fn set_bit(buf: &mut [u8], at: Place, x: u8)
    requires { (at.byte < length buf.old) × (at.bit < 8) × (x < 2) }
    ensures { bits buf.new ≡ set (bits buf.old) (bit_at at) x }
{
    let k = (7 - at.bit) as u8;
    buf[at.byte] = with_bit(buf[at.byte], k, x);
}

// The `width` lowest bits of `v` at a place with room for them, one after the other.
fn put_all(buf: &mut [u8], at: Place, width: u32, v: u64)
    requires { (at.bit < 8) × (width ≤ 64) × (bit_at at + width ≤ 8 * length buf.old) }
    ensures { bits buf.new ≡ paste (bits buf.old) (bit_at at) (to_bits width v) width }
{
    for i in 0..width {
        let x = (v >> (width - 1 - i)) % 2;
        set_bit(buf, after(at, i), x as u8);
    }
}

// The `width` lowest bits of `v` go to a place, if there is room for all of them; no other bit changes.
#[tactic(auto, unfolding(crate::specs::Places::put_of, crate::specs::Places::put_bits))]
pub fn put(buf: &mut [u8], at: Place, width: u32, v: u64) -> Result<(), NotPut>
    ensures { (result ≡ put_of (length buf.old) (bit_at at) width) × (bits buf.new ≡ put_bits buf.old (bit_at at) width v) }
{
    if 64 < width {
        return Err(NotPut::TooWide);
    }
    if width == 0 {
        return Ok(());
    }
    if there(buf.len(), at, width) < width {
        return Err(NotPut::NoRoom);
    }
    put_all(buf, after(at, 0), width, v);
    Ok(())
}
