// A trace's recording, in a lent buffer.
#![tactic(auto)]

ghost use Rattle.std.specs.Prelude.{◌≡◌, ◌+◌, ◌^◌, ◌<◌, length, leb};
ghost use Rattle.laws.specs.Bits.{bytes_for};
ghost use Rattle.record_trace.specs.Traces.{trace_record_of, trace_recorded_to};
ghost use Rattle.record_trace.specs.Taking.{taking_first, taking_next, taking_on, put_next, put_on};

use rules::{Place, Refusal};
use trace_bytes::Heard;

// A trace as far as it was taken: the place behind its calls, and whether a p waits for its digit.
#[derive(Clone, Copy)]
pub struct Taking {
    pub place: Place,
    pub waiting: bool,
}

fn at_first() -> Taking
    ensures { result ≡ taking_first }
{
    Taking {
        place: Place { byte: 0, bit: 0 },
        waiting: false,
    }
}

// ---- where the calls end

fn heard(t: Taking, h: Heard) -> Taking
    requires { (t.place.bit < 8) × (t.place.byte + 1 < 2 ^ 64) }
    ensures { result ≡ taking_next t h }
{
    match h {
        Heard::Skip => Taking {
            waiting: false,
            ..t
        },
        Heard::More => Taking { waiting: true, ..t },
        Heard::Makes(c) => Taking {
            place: bits::after(t.place, record_call::width(c)),
            waiting: false,
        },
    }
}

// All bytes of a trace. 9 for a byte that is no step.
fn measure(trace: &[u8]) -> Result<Taking, Refusal>
    ensures { result ≡ taking_on taking_first trace.now }
{
    let mut t = at_first();
    for b in trace {
        let h = trace_bytes::hear(t.waiting, *b)?;
        t = heard(t, h);
    }
    Ok(t)
}

// ---- the calls in the buffer

fn put_heard(buf: &mut [u8], t: Taking, h: Heard)
    ensures { buf.new ≡ put_next t h buf.old }
{
    if let Heard::Makes(c) = h {
        // The place behind the call is what `heard` reckons.
        let _ = record_call::append(buf, t.place, c);
    }
}

// The same walk, which puts each call where it stands.
fn put_calls(trace: &[u8], buf: &mut [u8]) -> Result<Taking, Refusal>
    ensures { (result ≡ taking_on taking_first trace.now) × (buf.new ≡ put_on taking_first trace.now buf.old) }
{
    let mut t = at_first();
    for b in trace {
        let h = trace_bytes::hear(t.waiting, *b)?;
        put_heard(buf, t, h);
        t = heard(t, h);
    }
    Ok(t)
}

// ---- the whole

// Whether a buffer of so many bytes has room for a recording whose end is at a place.
fn has_room(len: usize, at: Place) -> bool
    requires { at.bit < 8 }
    ensures { result ≡ leb (at.byte + bytes_for (at.bit + 2)) len }
{
    at.byte <= len && (at.bit + 2).div_ceil(8) as usize <= len - at.byte
}

// The recording of a trace goes to the first bytes of a buffer; no other byte changes. 9 for a trace with a byte that is no step, 11 for a buffer that is
// too short: then none does.
pub fn record(trace: &[u8], buf: &mut [u8]) -> Result<usize, Refusal>
    ensures { (result ≡ trace_record_of trace.now (length buf.old)) × (buf.new ≡ trace_recorded_to trace.now buf.old) }
{
    let t = measure(trace)?;
    if t.waiting {
        return Err(Refusal::BadByte);
    }
    if !has_room(buf.len(), t.place) {
        return Err(Refusal::ShortBuffer);
    }
    let end = put_calls(trace, buf)?;
    record_call::finish(buf, end.place)
}
