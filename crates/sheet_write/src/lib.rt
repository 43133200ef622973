// A set's sheet goes into a buffer.
#![tactic(auto)]

ghost use Rattle.std.specs.Prelude.{◌≡◌, ◌+◌, ◌-◌, ◌*◌, ◌^◌, ◌<◌, ◌≤◌, ◌++◌, drop, length, replicate};
ghost use Rattle.std.proofs.Math.Seq.{paste};
ghost use Rattle.laws.specs.Lists.{flat};
ghost use Rattle.laws.specs.Bits.{bits, to_bits};
ghost use Rattle.rules.specs.Streams.{offset, stages_of, streams_of, tuples_of};
ghost use Rattle.rules.specs.Sheet.{place_bits, stage_bits, head_bits, stream_bits, sheet_bits, write_of, buffer_of};
ghost use Rattle.sheet_write.specs.Writer.{cycle_of, Written, WrittenSet};

use rules::{Place, Refusal, Set, Stream, Tuple};

// "0 for once"
fn cycle_of(t: Tuple) -> u32
    ensures { result ≡ cycle_of t }
{
    match t {
        Tuple::Once(_) => 0,
        Tuple::Every(z, _) => z,
    }
}

// The `w` lowest bits of `v` go to the bit `at`.
fn put(buf: &mut [u8], at: usize, w: u32, v: u32)
    requires { (w ≤ 32) × (at + w ≤ 8 * length buf.old) }
    ensures { bits buf.new ≡ paste (bits buf.old) at (to_bits w v) w }
{
    let place = Place {
        byte: at / 8,
        bit: (at % 8) as u32,
    };
    let _ = bits::put(buf, place, w, u64::from(v));
}

// The first `n` bytes are zero.
fn clear(buf: &mut [u8], n: usize)
    requires { n ≤ length buf.old }
    ensures { buf.new ≡ replicate n 0 ++ drop n buf.old }
{
    buf[..n].fill(0);
}

fn put_stages(buf: &mut [u8], at: usize, s: Stream)
    requires { Written s × (at ≤ 4000) × (at + length (flat stage_bits (stages_of s)) ≤ 8 * length buf.old) }
    ensures { bits buf.new ≡ paste (bits buf.old) at (flat stage_bits (stages_of s)) (length (flat stage_bits (stages_of s))) }
{
    let mut here = at;
    for g in &s.stages[..s.depth] {
        put(buf, here, 4, g.task as u32);
        put(buf, here + 4, 16, g.cost);
        here += 20;
    }
}

fn put_tuples(buf: &mut [u8], at: usize, s: Stream)
    requires { Written s × (at ≤ 4000) × (at + length (flat place_bits (tuples_of s)) ≤ 8 * length buf.old) }
    ensures { bits buf.new ≡ paste (bits buf.old) at (flat place_bits (tuples_of s)) (length (flat place_bits (tuples_of s))) }
{
    let mut here = at;
    for p in &s.tuples[..s.count] {
        put(buf, here, 20, cycle_of(p.tuple));
        put(buf, here + 20, 17, stream_valid::offset_of(p.tuple));
        here += 37;
    }
}

// How many bits a stream has before the number of its tuples.
fn head_end(version: u32, s: Stream) -> usize
    requires { Written s }
    ensures { result ≡ length (head_bits version s) }
{
    let n = s.depth;
    match version {
        1 => 18 + 20 * n,
        _ => 20 + 20 * n,
    }
}

// Version 1: the stage, then the deadline. Version 2: the deadline, then stages less one, and the stages.
fn put_head(buf: &mut [u8], at: usize, version: u32, s: Stream)
    requires { Written s × (at ≤ 3900) × (at + length (head_bits version s) ≤ 8 * length buf.old) }
    ensures { bits buf.new ≡ paste (bits buf.old) at (head_bits version s) (length (head_bits version s)) }
{
    let n = s.depth;
    if version == 1 {
        put_stages(buf, at, s);
        put(buf, at + 20 * n, 18, s.deadline);
    } else {
        put(buf, at, 18, s.deadline);
        put(buf, at + 18, 2, (n - 1) as u32);
        put_stages(buf, at + 20, s);
    }
}

// How many bits the fields of a stream have.
fn stream_end(version: u32, s: Stream) -> usize
    requires { Written s }
    ensures { result ≡ length (stream_bits version s) }
{
    let n = s.count;
    head_end(version, s) + 2 + 37 * n
}

fn put_stream(buf: &mut [u8], at: usize, version: u32, s: Stream)
    requires { Written s × (at ≤ 3800) × (at + length (stream_bits version s) ≤ 8 * length buf.old) }
    ensures { bits buf.new ≡ paste (bits buf.old) at (stream_bits version s) (length (stream_bits version s)) }
{
    put_head(buf, at, version, s);
    let end = at + head_end(version, s);
    put(buf, end, 2, (s.count - 1) as u32);
    put_tuples(buf, end + 2, s);
}

fn put_streams(buf: &mut [u8], x: Set)
    requires { WrittenSet x × (9 + length (flat (stream_bits x.version) (streams_of x)) ≤ 8 * length buf.old) }
    ensures { bits buf.new ≡ paste (bits buf.old) 9 (flat (stream_bits x.version) (streams_of x)) (length (flat (stream_bits x.version) (streams_of x))) }
{
    let mut at: usize = 9;
    for s in &x.streams[..x.count] {
        put_stream(buf, at, x.version, *s);
        at += stream_end(x.version, *s);
    }
}

// How many bits the fields of a set have.
fn fields_end(x: Set) -> usize
    requires { WrittenSet x }
    ensures { result ≡ length (sheet_bits x) }
{
    let mut end: usize = 9;
    for s in &x.streams[..x.count] {
        end += stream_end(x.version, *s);
    }
    end
}

// The sheet of a set goes to the first bytes of `buf`; no other byte changes. 7 for an invalid set, 11 for a buffer that is too short.
pub fn write(x: Set, buf: &mut [u8]) -> Result<usize, Refusal>
    ensures { (result ≡ write_of x (length buf.old)) × (buf.new ≡ buffer_of x buf.old) }
{
    if stream_valid::is_valid(x) {
        let end = fields_end(x);
        let n = (end + 7) / 8;
        if n <= buf.len() {
            let count = x.count;
            clear(buf, n);
            put(buf, 0, 4, x.version);
            put(buf, 4, 5, count as u32);
            put_streams(buf, x);
            return Ok(n);
        }
        return Err(Refusal::ShortBuffer);
    }
    Err(Refusal::OutOfRule)
}
