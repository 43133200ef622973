// The least common multiple of the cycles, and the long-run load.
ghost use Rattle.std.specs.Prelude.{◌≡◌, ◌*◌, ◌≤◌};
ghost use Rattle.rules.specs.Valid.{Between, ValidCycle, ValidStream, ValidSet};
ghost use Rattle.rules.specs.Streams.{streams_of};
ghost use Rattle.rules.specs.Load.{rate_of, stream_load, load};
ghost use Rattle.load_cycles.specs.Cycles.{CycleOf, CyclesOf, CommonOf, JoinedBy};

use crate::{gcd, stream_cost};
use rules::{Set, Stream, Tuple};

// ---- the cycles, joined one after the other: nothing where that is above 1,000,000

fn join_cycle(h: u32, z: u32, a: u32) -> Option<u32>
    requires { (Between 1 h 1000000) × (Between 1 z 1000000) }
    ensures { JoinedBy h (CycleOf (Tuple.Every z a)) result }
{
    match (h / gcd(h, z)).checked_mul(z) {
        Some(r) if r <= 1000000 => Some(r),
        _ => None,
    }
}

fn join_tuple(h: u32, t: Tuple) -> Option<u32>
    requires { (Between 1 h 1000000) × (ValidCycle t) }
    ensures { JoinedBy h (CycleOf t) result }
{
    match t {
        Tuple::Once(_) => Some(h),
        Tuple::Every(z, a) => join_cycle(h, z, a),
    }
}

fn join_stream(h: u32, s: &Stream) -> Option<u32>
    requires { (Between 1 h 1000000) × (ValidStream s.now) }
    ensures { JoinedBy h (CyclesOf s.now) result }
{
    let mut acc = h;
    for p in stream_valid::tuples_of(s) {
        acc = join_tuple(acc, p.tuple)?;
    }
    Some(acc)
}

// The least common multiple of all cycles of a valid set, 1 where there are none.
pub(crate) fn join_all(x: &Set) -> Option<u32>
    requires { ValidSet x.now }
    ensures { JoinedBy 1 (CommonOf (streams_of x.now)) result }
{
    let mut acc = 1;
    for s in stream_valid::streams_of(x) {
        acc = join_stream(acc, s)?;
    }
    Some(acc)
}

// ---- long-run load

// c times H / z of a tuple, 0 where it has no cycle.
fn tuple_load(t: Tuple, cost: u64, h: u32) -> u64
    requires { (ValidCycle t) × (cost ≤ 4294967296) }
    ensures { result ≡ cost * rate_of h t }
{
    match t {
        Tuple::Once(_) => 0,
        Tuple::Every(z, _) => cost * u64::from(h / z),
    }
}

fn stream_load(s: &Stream, h: u32) -> u64
    requires { (ValidStream s.now) × (h ≤ 1000000) }
    ensures { result ≡ stream_load h s.now }
{
    let cost = stream_cost(*s);
    let mut acc = 0;
    for p in stream_valid::tuples_of(s) {
        acc += tuple_load(p.tuple, cost, h);
    }
    acc
}

// The sum of c times H / z over the cyclic tuples.
pub(crate) fn load_of(x: &Set, h: u32) -> u64
    requires { (ValidSet x.now) × (h ≤ 1000000) }
    ensures { result ≡ load (streams_of x.now) h }
{
    let mut acc = 0;
    for s in stream_valid::streams_of(x) {
        acc += stream_load(s, h);
    }
    acc
}
