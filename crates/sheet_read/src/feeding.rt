// Bits come, field after field.
ghost use Rattle.std.specs.Prelude.{◌≡◌, ◌+◌, ◌<◌, ◌≤◌};
ghost use Rattle.laws.specs.Bits.{bits};
ghost use Rattle.rules.specs.Streams.{empty_set, no_stream};
ghost use Rattle.sheet_carried.specs.Reader.{front_of, joined_of, no_stages, refused_of, run, stage_in, start_of, stream_in};
ghost use Rattle.sheet_carried.specs.Kept.{Holds, Kept};

use crate::{table, tuples};
use bits::Gathered;
use rules::{Place, Set, Stage, Stream, TuplePlace};
use sheet_carried::{Carried, Point};

// ---- stages, tuples and streams

fn stage_in(task: u32, cost: u32) -> Stage
    ensures { result ≡ stage_in task cost }
{
    Stage {
        task: task as usize,
        cost,
    }
}

fn no_stages() -> [Stage; 4]
    ensures { result ≡ no_stages }
{
    [Stage { task: 0, cost: 0 }; 4]
}

fn stream_in(values: [u32; 9], stages: [Stage; 4], n: usize, tuples: [TuplePlace; 4]) -> Stream
    ensures { result ≡ stream_in values stages n tuples }
{
    Stream {
        // "stages less one"
        depth: values[table::STAGES] as usize + 1,
        stages,
        deadline: values[table::DEADLINE],
        count: n,
        tuples,
    }
}

fn no_stream() -> Stream
    ensures { result ≡ no_stream }
{
    Stream {
        depth: 0,
        stages: no_stages(),
        deadline: 0,
        count: 0,
        tuples: tuples::no_tuples(),
    }
}

// The streams in use are taken out of a set, and it is of version 1.
pub(crate) fn cleared(x: Set) -> Set
    requires { (x.count ≤ 16) × Holds 16 no_stream x.count x.streams }
    ensures { result ≡ empty_set }
{
    let mut streams = x.streams;
    streams[..x.count].fill(no_stream());
    Set {
        count: 0,
        streams,
        version: 1,
    }
}

// A stream is whole: of the values that were read the count stays.
fn front(values: [u32; 9]) -> [u32; 9]
    ensures { result ≡ front_of values }
{
    [0, values[table::COUNT], 0, 0, 0, 0, 0, 0, 0]
}

// ---- bits come

pub(crate) fn start() -> Carried
    ensures { result ≡ start_of }
{
    Carried {
        point: table::begun(table::VERSION, 0),
        values: [0; 9],
        stages: no_stages(),
        places: tuples::no_tuples(),
        set: stream_valid::empty_set(),
    }
}

// A refused reader keeps nothing but its refusal.
#[tactic(auto, unfolding(sheet_carried::specs::Reader::refused_of))]
fn refused(f: usize, x: Set) -> Carried
    requires { (x.count ≤ 16) × Holds 16 no_stream x.count x.streams }
    ensures { result ≡ refused_of f }
{
    Carried {
        point: table::begun(f, 0),
        values: [0; 9],
        stages: no_stages(),
        places: tuples::no_tuples(),
        set: cleared(x),
    }
}

// Bits come behind those of a field that have come.
fn joined(p: Point, g: Gathered) -> Point
    requires { (g.got ≤ p.left) × (g.got ≤ 20) × (p.acc < 1048576) × (g.value < 1048576) }
    ensures { result ≡ joined_of p g }
{
    let got = g.got;
    Point {
        row: p.row,
        whole: p.whole,
        acc: (p.acc << got) + g.value,
        left: p.left - got,
    }
}

// The bytes of a sheet, or of a piece of one. `joined` stands twice, so that the compiler sees that a field whose bits came at once is
// whole; what an unused stream has is made once, so that the compiler copies a stream that is whole in large steps.
pub(crate) fn feed(s: Carried, piece: &[u8]) -> Carried
    requires { Kept s }
    ensures { result ≡ run s (bits piece.now) }
{
    let mut point = s.point;
    let mut values = s.values;
    let mut stages = s.stages;
    let mut places = s.places;
    let mut set = s.set;
    let blank = no_stages();
    let none = tuples::no_tuples();
    let mut rule = table::rule(point, values);
    let mut at = Place { byte: 0, bit: 0 };
    // kept: a while, its place moves by as many bits as a field has
    while (at.byte < piece.len()) & (0 < point.left) {
        let g = bits::gather(piece, at, point.left);
        at = bits::after(at, g.got);
        if g.got < point.left {
            point = joined(point, g);
        } else {
            point = joined(point, g);
            let f = point.row;
            let n = point.whole;
            let v = point.acc as u32;
            if !table::in_rule(rule, v) {
                return refused(table::refusal(f), set);
            }
            if f == table::OFFSET {
                places[n] = tuples::tuple_of(values[table::CYCLE], v);
                if n < values[table::TUPLES] as usize {
                    values[table::CYCLE] = 0;
                    values[table::OFFSET] = v;
                    point = table::begun(table::CYCLE, n + 1);
                    rule = table::rule(point, values);
                } else {
                    let k = set.count;
                    set.streams[k] = stream_in(values, stages, n + 1, places);
                    set.count = k + 1;
                    let next = table::opened(set.version, k + 1, values[table::COUNT] as usize);
                    point = table::begun(next, 0);
                    values = front(values);
                    stages = blank;
                    places = none;
                    rule = table::rule(point, values);
                }
            } else if f == table::COST {
                stages[n] = stage_in(values[table::TASK], v);
                values[table::TASK] = 0;
                if n < values[table::STAGES] as usize {
                    point = table::begun(table::TASK, n + 1);
                    rule = table::rule(point, values);
                } else {
                    point = table::begun(table::behind(set.version, table::COST), 0);
                    rule = table::rule(point, values);
                }
            } else if f == table::VERSION {
                set.version = v;
                point = table::begun(table::COUNT, n);
                rule = table::rule(point, values);
            } else if f == table::TUPLES {
                values[table::TUPLES] = v;
                let t = tuples::before_last(values, piece, at);
                places = t.places;
                values[table::CYCLE] = t.cycle;
                values[table::OFFSET] = t.low;
                at = t.at;
                point = table::begun(table::CYCLE, t.whole);
                rule = table::rule(point, values);
            } else if f < table::PADDING {
                values[f] = v;
                point = table::begun(table::following(set.version, f, v), n);
                rule = table::rule(point, values);
            } else {
                point = table::begun(f + 1, n);
                rule = table::rule(point, values);
            }
        }
    }
    Carried {
        point,
        values,
        stages,
        places,
        set,
    }
}
