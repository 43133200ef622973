// The cycles of a set: their least common multiple H, a stream's cost, the long-run load, and how a check begins.
#![tactic(auto)]

mod ends; // ends.rt: the greatest deadline and offset, and the end of the lengths to test
mod joins; // joins.rt: the least common multiple of the cycles, and the long-run load

ghost use Rattle.std.specs.Prelude.{◌≡◌};
ghost use Rattle.laws.specs.Multiples.{IsGcd};
ghost use Rattle.rules.specs.Load.{cost_in};
ghost use Rattle.load_cycles.specs.Cycles.{HOf};
ghost use Rattle.load_cycles.specs.Openings.{OpeningOf};

use rules::{Refusal, Set, Stream, Verdict};

// The greatest common divisor: the remainder falls at each call.
pub fn gcd(a: u32, b: u32) -> u32
    ensures { IsGcd a b result }
{
    if b == 0 { a } else { gcd(b, a % b) }
}

// The cost of a stream: the sum of its stages' costs.
#[tactic(auto, using(laws::proofs::Sums::sum_none, laws::proofs::Sums::sum_take, std::proofs::lemmas::List::take_all), unfolding(rules::specs::Load::cost_in))]
pub fn stream_cost(s: Stream) -> u64
    ensures { result ≡ cost_in s }
{
    let mut acc = 0;
    for g in stream_valid::stages_of(&s) {
        acc += u64::from(g.cost);
    }
    acc
}

// H of a set: 7 for an invalid one, 8 where H is above 1,000,000.
pub fn h_of(x: Set) -> Result<u64, Refusal>
    ensures { HOf x result }
{
    if !stream_valid::is_valid(x) {
        return Err(Refusal::OutOfRule);
    }
    let Some(h) = joins::join_all(&x) else {
        return Err(Refusal::LongCycles);
    };
    Ok(u64::from(h))
}

// How a check begins: 7, 8 and overload stop it before any length. Else it tests the lengths from 1 up to an end, which is not tested.
pub fn begin(x: Set) -> Result<u32, Verdict>
    ensures { OpeningOf x result }
{
    if !stream_valid::is_valid(x) {
        return Err(Verdict::Refused(Refusal::OutOfRule));
    }
    let Some(h) = joins::join_all(&x) else {
        return Err(Verdict::Refused(Refusal::LongCycles));
    };
    if u64::from(h) < joins::load_of(&x, h) {
        return Err(Verdict::Overload);
    }
    Ok(ends::end_after(h, ends::greatest_deadline(&x), ends::greatest_offset(&x)))
}
