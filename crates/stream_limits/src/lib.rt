// The event limit of a stream, and a jittered cycle as tuples.
#![tactic(auto)]

ghost use Rattle.std.specs.Prelude.{◌≡◌, ◌-◌, ◌*◌, ◌≤◌, cond, leb, Some, None};
ghost use Rattle.rules.specs.Streams.{events_of, limit, limit_of, jitter_of};

use rules::{Refusal, Set, Stream, Tuple};

// ---- event limits

// What one tuple adds to the event limit of a length.
fn events_of(t: Tuple, i: u32) -> u64
    ensures { result ≡ events_of t i }
{
    match t {
        Tuple::Once(a) => u64::from(a <= i),
        Tuple::Every(z, a) => {
            if a <= i {
                u64::from((i - a).checked_div(z).unwrap_or(0)) + 1
            } else {
                0
            }
        }
    }
}

// E(I) of a stream.
pub fn limit_of(s: Stream, i: u32) -> u64
    ensures { result ≡ limit s i }
{
    let mut sum = 0;
    for p in stream_valid::tuples_of(&s) {
        sum += events_of(p.tuple, i);
    }
    sum
}

// The event limit of the set's stream k for the length i, 7 for an invalid set or a stream that it has not.
#[tactic(auto, unfolding(rules::specs::Streams::limit_of))]
pub fn event_limit(x: Set, k: usize, i: u32) -> Result<u64, Refusal>
    ensures { result ≡ limit_of x k i }
{
    if stream_valid::is_valid(x) & (k < x.count) {
        Ok(limit_of(stream_valid::stream_at(x, k), i))
    } else {
        Err(Refusal::OutOfRule)
    }
}

// ---- a jittered cycle

// The second tuple's offset, where early and late together are not above the cycle.
fn second_from(z: u32, j: u32) -> Option<u32>
    ensures { result ≡ cond (leb (2 * j) z) (Some (z - 2 * j)) None }
{
    j.checked_mul(2).and_then(|both| z.checked_sub(both))
}

// The jittered cycle (z, j), early or late by up to j, as once at 0 and every z from z - 2j, or 7.
#[tactic(auto, unfolding(rules::specs::Streams::jitter_of, rules::specs::Streams::jitter_ok))]
pub fn jittered(z: u32, j: u32) -> Result<(Tuple, Tuple), Refusal>
    ensures { result ≡ jitter_of z j }
{
    match second_from(z, j) {
        Some(from) if (1..=1000000).contains(&z) & (from <= 100000) => Ok((
            Tuple::Once(0),
            Tuple::Every(z, from),
        )),
        _ => Err(Refusal::OutOfRule),
    }
}
