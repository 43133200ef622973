// Streams and sets: is a set valid, and what is read of it.
#![tactic(auto)]

ghost use Rattle.std.specs.Prelude.{◌≡◌, ◌≤◌, ◌-◌, Bool, ◌&&◌, length, take, drop};
ghost use Rattle.std.specs.List.{list_all};
ghost use Rattle.laws.specs.Lists.{within};
ghost use Rattle.rules.specs.Streams.{offset, cycle_ok, tuple_ok, tuples_ok, tuple_unused, tuples_of, stage_ok, stage_unused, stages_of, stream_ok, stream_unused, one_stage, streams_of, version_ok, valid, no_stream, empty_set, stream_at};

use rules::{Set, Stage, Stream, Tuple, TuplePlace};

// ---- a valid set

pub fn offset_of(t: Tuple) -> u32
    ensures { result ≡ offset t }
{
    match t {
        Tuple::Once(a) => a,
        Tuple::Every(_, a) => a,
    }
}

fn cycle_ok(t: Tuple) -> bool
    ensures { result ≡ cycle_ok t }
{
    match t {
        Tuple::Once(_) => true,
        Tuple::Every(z, _) => (1..=1000000).contains(&z),
    }
}

// A tuple behind one with the offset `before`.
#[tactic(auto, unfolding(rules::specs::Streams::tuple_ok))]
fn tuple_ok(before: u32, p: TuplePlace) -> bool
    ensures { result ≡ tuple_ok before p }
{
    let a = offset_of(p.tuple);
    (before <= a) & (a <= 100000) & cycle_ok(p.tuple)
}

#[tactic(auto, unfolding(rules::specs::Streams::tuple_unused))]
fn tuple_unused(p: TuplePlace) -> bool
    ensures { result ≡ tuple_unused p }
{
    matches!(p.tuple, Tuple::Once(0))
}

fn tuples_unused(ts: &[TuplePlace]) -> bool
    ensures { result ≡ list_all tuple_unused ts.now }
{
    ts.iter().all(|p| tuple_unused(*p))
}

// The tuples in use are in the rules and their offsets never fall; the other places are unused.
pub fn tuples_fit(s: Stream) -> bool
    ensures { result ≡ (tuples_ok (tuples_of s) && list_all tuple_unused (drop s.count s.tuples)) }
{
    let mut ok = true;
    let mut before = 0;
    for (k, p) in s.tuples.iter().enumerate() {
        ok &= if k < s.count {
            tuple_ok(before, *p)
        } else {
            tuple_unused(*p)
        };
        before = offset_of(p.tuple);
    }
    ok
}

// What fills the places of an array: in use it has to be in the rules, and zero otherwise.
trait Part {
    ghost ok: { Self → Bool };

    ghost unused: { Self → Bool };

    fn ok(&self) -> bool
        ensures { result ≡ ok self.now };

    fn unused(&self) -> bool
        ensures { result ≡ unused self.now };
}

// The first `n` places are in the rules, the others unused. No place ends the loop early: most sets are valid, and their tests run side by side.
fn parts_fit<T: Part>(parts: &[T], n: usize) -> bool
    ensures { result ≡ (list_all T.ok (take n parts.now) && list_all T.unused (drop n parts.now)) }
{
    let mut ok = true;
    for (k, part) in parts.iter().enumerate() {
        ok &= if k < n { part.ok() } else { part.unused() };
    }
    ok
}

impl Part for Stage {
    ghost ok = { stage_ok };

    ghost unused = { stage_unused };

    #[tactic(auto, unfolding(rules::specs::Streams::stage_ok))]
    fn ok(&self) -> bool {
        (self.task <= 15) & (1..=65535).contains(&self.cost)
    }

    #[tactic(auto, unfolding(rules::specs::Streams::stage_unused))]
    fn unused(&self) -> bool {
        (self.task == 0) & (self.cost == 0)
    }
}

// The stages in use are in the rules; the other places are unused.
pub fn stages_fit(s: Stream) -> bool
    ensures { result ≡ (list_all stage_ok (stages_of s) && list_all stage_unused (drop s.depth s.stages)) }
{
    parts_fit(&s.stages, s.depth)
}

// How many stages or tuples a stream has.
fn count_ok(n: usize) -> bool
    ensures { result ≡ within 1 n 4 }
{
    (1..=4).contains(&n)
}

fn deadline_ok(d: u32) -> bool
    ensures { result ≡ within 1 d 200000 }
{
    (1..=200000).contains(&d)
}

impl Part for Stream {
    ghost ok = { stream_ok };

    ghost unused = { stream_unused };

    #[tactic(auto, using(laws::proofs::Fits::and_assoc), unfolding(rules::specs::Streams::stream_ok))]
    fn ok(&self) -> bool {
        count_ok(self.depth)
            & stages_fit(*self)
            & deadline_ok(self.deadline)
            & count_ok(self.count)
            & (offset_of(self.tuples[0].tuple) == 0)
            & tuples_fit(*self)
    }

    #[tactic(auto, unfolding(rules::specs::Streams::stream_unused))]
    fn unused(&self) -> bool {
        (self.depth == 0)
            & parts_fit(&self.stages, 0)
            & (self.deadline == 0)
            & (self.count == 0)
            & tuples_unused(&self.tuples)
    }
}

fn one_stage_each(x: &Set) -> bool
    ensures { result ≡ list_all one_stage (streams_of x.now) }
{
    streams_of(x).iter().all(|s| s.depth == 1)
}

// Is the set's version one of the two? In version 1 every stream has one stage.
#[tactic(auto, unfolding(rules::specs::Streams::version_ok))]
fn version_ok(x: &Set) -> bool
    ensures { result ≡ version_ok x.now }
{
    match x.version {
        1 => one_stage_each(x),
        version => version == 2,
    }
}

#[tactic(auto, using(laws::proofs::Fits::and_assoc), unfolding(rules::specs::Streams::valid))]
pub fn is_valid(x: Set) -> bool
    ensures { result ≡ valid x }
{
    (x.count <= 16) & parts_fit(&x.streams, x.count) & version_ok(&x)
}

// ---- places

// The first n places, all where there are no n.
fn first<T>(places: &[T], n: usize) -> &[T]
    ensures { result.now ≡ take n places.now }
{
    &places[..n.min(places.len())]
}

// The stages of a stream, in order.
pub fn stages_of(s: &Stream) -> &[Stage]
    ensures value { result.now ≡ stages_of s.now }
    ensures bound { length result.now ≤ 4 }
{
    first(&s.stages, s.depth)
}

// The tuples of a stream, in order.
pub fn tuples_of(s: &Stream) -> &[TuplePlace]
    ensures value { result.now ≡ tuples_of s.now }
    ensures bound { length result.now ≤ 4 }
{
    first(&s.tuples, s.count)
}

// The streams of a set, in order.
pub fn streams_of(x: &Set) -> &[Stream]
    ensures value { result.now ≡ streams_of x.now }
    ensures bound { length result.now ≤ 16 }
{
    first(&x.streams, x.count)
}

pub fn no_stream() -> Stream
    ensures { result ≡ no_stream }
{
    Stream {
        depth: 0,
        stages: [Stage { task: 0, cost: 0 }; 4],
        deadline: 0,
        count: 0,
        tuples: [TuplePlace {
            tuple: Tuple::Once(0),
        }; 4],
    }
}

pub fn empty_set() -> Set
    ensures { result ≡ empty_set }
{
    Set {
        count: 0,
        streams: [no_stream(); 16],
        version: 1,
    }
}

// The stream of a number; past the end stands an unused place.
pub fn stream_at(x: Set, k: usize) -> Stream
    ensures { result ≡ stream_at x k }
{
    match x.streams.get(k) {
        Some(s) => *s,
        None => no_stream(),
    }
}

// ---- numbers

// The difference, 0 where it would be below.
pub fn less(a: u32, b: u32) -> u32
    ensures { result ≡ a - b }
{
    a.saturating_sub(b)
}
