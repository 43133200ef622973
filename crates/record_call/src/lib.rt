// The cab's recorder: a call, or end, goes to a place of a lent buffer. Only the bits that are written change.
#![tactic(auto)]

ghost use Rattle.std.specs.Prelude.{◌≡◌, true, ◌≤◌, length};
ghost use Rattle.laws.specs.Bits.{to_bits};
ghost use Rattle.rules.specs.Recordings.{call_bits, recordable, place_in, append_of, appended_to, finish_of, finished_to};
ghost use Rattle.record_call.specs.Places.{code_of, put_answer, put_buffer};

use rules::{Call, Place, Refusal};

// Is the place in a recording or a buffer? Behind the last byte only bit 0 is one.
#[tactic(auto, unfolding(rules::specs::Recordings::place_in))]
pub fn place_in(recording: &[u8], at: Place) -> bool
    ensures { result ≡ place_in recording.now at }
{
    let n = recording.len();
    (at.byte <= n) & ((at.bit < 8) & ((at.byte < n) | (at.bit == 0)))
}

// How many bits a call has in a recording.
#[tactic(auto, using(crate::proofs::Widths::width_post, crate::proofs::Widths::width_unit))]
pub fn width(c: Call) -> u32
    ensures { result ≡ length (call_bits c) }
{
    match c {
        Call::Posts(_) => 6,
        Call::Units(_) => 2,
    }
}

// Four bits can name 16 streams.
fn can_record(c: Call) -> bool
    ensures { result ≡ recordable c }
{
    match c {
        Call::Posts(k) => k < 16,
        Call::Units(_) => true,
    }
}

// A call as a field: a post is kind 0 and its stream, so its stream alone.
fn code(c: Call) -> u64
    ensures { result ≡ code_of c }
{
    match c {
        Call::Posts(k) => k as u64,
        Call::Units(done) => if done { 2 } else { 1 },
    }
}

// A field at a place, and the place behind it.
fn put(buf: &mut [u8], at: Place, width: u32, v: u64) -> Result<Place, Refusal>
    requires { (place_in buf.old at ≡ true) × (1 ≤ width) × (width ≤ 9) }
    ensures { (result ≡ put_answer buf.old at (to_bits width v)) × (buf.new ≡ put_buffer buf.old at (to_bits width v)) }
{
    bits::put(buf, at, width, v).map_err(|_| Refusal::ShortBuffer)?;
    Ok(bits::after(at, width))
}

// Appends a call at a place: 12 for a place that is not in the buffer, 1 for a call that cannot be recorded, 11 without room for it.
pub fn append(buf: &mut [u8], at: Place, c: Call) -> Result<Place, Refusal>
    ensures { (result ≡ append_of buf.old at c) × (buf.new ≡ appended_to buf.old at c) }
{
    if !place_in(buf, at) {
        return Err(Refusal::IllFormed);
    }
    if !can_record(c) {
        return Err(Refusal::NoStream);
    }
    put(buf, at, width(c), code(c))
}

// Puts end at a place, and zero bits behind it to the byte's end: 12 for a place that is not in the buffer, 11 without room.
pub fn finish(buf: &mut [u8], at: Place) -> Result<usize, Refusal>
    ensures { (result ≡ finish_of buf.old at) × (buf.new ≡ finished_to buf.old at) }
{
    if !place_in(buf, at) {
        return Err(Refusal::IllFormed);
    }
    let width = (at.bit + 2).div_ceil(8) * 8 - at.bit;
    let end = put(buf, at, width, 3 << (width - 2))?;
    Ok(end.byte)
}
