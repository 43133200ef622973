// What is kept is in its rules: a function for each clause.
ghost use Rattle.std.specs.Prelude.{◌≡◌, cond, ◌&&◌, get_or, take, eqb, ltb, ◌-◌, ◌^◌, ◌<◌, ◌≤◌};
ghost use Rattle.rules.specs.Streams.{no_tuple, offset_at};
ghost use Rattle.sheet_carried.specs.Table.{width_of};
ghost use Rattle.sheet_carried.specs.Kept.{most_whole, stages_whole, tuples_whole};
ghost use Rattle.sheet_carried.specs.Left.{count_fits, dated, deepened, fits, held, kept_fits, last_of, point_fits, stages_fit, tuples_fit, values_fit, version_fits};

use crate::{Carried, Point};
use rules::{Stage, Stream, Tuple, TuplePlace};

// ---- by row
// kept: a row is a number, as the definitions' table and the carried state's layout (docs/STATE.md) count it

// A number for each row of a value; none behind them.
pub(crate) fn by_row(row: [usize; 9], f: usize) -> usize
    ensures { result ≡ get_or row f 0 }
{
    row.get(f).copied().unwrap_or(0)
}

// ---- the field that comes

// How many bits the field of a row has.
pub(crate) fn width(f: usize) -> usize
    ensures { result ≡ width_of f }
{
    if f < 9 {
        return by_row([4, 5, 18, 2, 4, 16, 2, 20, 17], f);
    }
    if f < 17 { 1 } else { 0 }
}

// Those bits of a field of `w` that have come make a number.
fn came_fits(acc: u64, w: usize, left: usize) -> bool
    requires { (left ≤ w) × (w ≤ 20) }
    ensures { result ≡ ltb acc (2 ^ (w - left)) }
{
    acc < 1u64 << (w - left)
}

fn point_fits(p: Point) -> bool
    ensures { result ≡ point_fits p }
{
    let w = width(p.row);
    let left = p.left as usize;
    if w < left {
        return false;
    }
    let came = came_fits(p.acc, w, left);
    (p.row < 20) & (((0 < left) | (w == 0)) & came)
}

// ---- the streams that are whole

#[tactic(auto, unfolding(crate::specs::Left::version_fits))]
fn version_fits(version: u32, f: usize) -> bool
    ensures { result ≡ version_fits version f }
{
    if version == 1 {
        (f < 3) | (3 < f)
    } else {
        (1 <= f) & (f <= 16)
    }
}

#[tactic(auto, unfolding(crate::specs::Left::count_fits))]
fn count_fits(f: usize, k: usize, n: usize) -> bool
    ensures { result ≡ count_fits f k n }
{
    if (2 <= f) & (f <= 8) { k < n } else { k == n }
}

// ---- the stream that is being read

// Before its deadline a stream of version 1 has all its stages, and one of version 2 none.
fn first_stages(version: u32, all: usize) -> usize
    ensures { result ≡ cond (eqb version 1) all 0 }
{
    if version == 1 { all } else { 0 }
}

// How many stages are whole before a row; `less` are the stages less one.
#[tactic(auto, unfolding(crate::specs::Kept::stages_whole))]
fn whole_stages(version: u32, less: u32, f: usize, n: usize) -> usize
    ensures { result ≡ stages_whole version less f n }
{
    let all = less as usize + 1;
    let first = first_stages(version, all);
    by_row([0, 0, first, 0, n, n, all, all, all], f)
}

#[tactic(auto, unfolding(crate::specs::Kept::tuples_whole))]
fn whole_tuples(f: usize, n: usize) -> usize
    ensures { result ≡ tuples_whole f n }
{
    by_row([0, 0, 0, 0, 0, 0, 0, n, n], f)
}

// How many stages or tuples may be whole before a row.
#[tactic(auto, unfolding(crate::specs::Kept::most_whole))]
fn most_whole(f: usize, values: [u32; 9]) -> usize
    ensures { result ≡ most_whole f values }
{
    let stages = values[3] as usize;
    let tuples = values[6] as usize;
    by_row([0, 0, 0, 0, stages, stages, 0, tuples, tuples], f)
}

fn offset_at(places: [TuplePlace; 4], j: usize) -> u32
    requires { j < 4 }
    ensures { result ≡ offset_at (get_or places j no_tuple) }
{
    stream_valid::offset_of(places[j].tuple)
}

// The offset of the last of the first `k` tuples, 0 behind none.
fn last_offset(k: usize, places: [TuplePlace; 4]) -> u32
    ensures { result ≡ last_of 0 (take k places) }
{
    if k == 0 {
        0
    } else {
        offset_at(places, k.min(4) - 1)
    }
}

// As a stream of `k` stages and `j` tuples they are tested as those of any stream.
fn part(k: usize, stages: [Stage; 4], j: usize, places: [TuplePlace; 4]) -> bool
    ensures { result ≡ (stages_fit k stages && tuples_fit j places) }
{
    let s = Stream {
        depth: k,
        stages,
        deadline: 0,
        count: j,
        tuples: places,
    };
    let staged = stream_valid::stages_fit(s);
    let first = offset_at(places, 0);
    let tupled = stream_valid::tuples_fit(s);
    staged & ((first == 0) & tupled)
}

// ---- the values

#[tactic(auto, unfolding(crate::specs::Left::held))]
fn in_rule(read: bool, low: u32, high: u32, v: u32) -> bool
    ensures { result ≡ held read low high v }
{
    if read {
        (low <= v) & (v <= high)
    } else {
        v == 0
    }
}

#[tactic(auto, unfolding(crate::specs::Left::dated))]
fn has_date(version: u32, f: usize) -> bool
    ensures { result ≡ dated version f }
{
    if version == 1 {
        (6 <= f) & (f <= 8)
    } else {
        (3 <= f) & (f <= 8)
    }
}

#[tactic(auto, unfolding(crate::specs::Left::deepened))]
fn has_depth(version: u32, f: usize) -> bool
    ensures { result ≡ deepened version f }
{
    if version == 1 {
        false
    } else {
        (4 <= f) & (f <= 8)
    }
}

fn values_fit(version: u32, f: usize, low: u32, values: [u32; 9]) -> bool
    ensures { result ≡ values_fit version f low values }
{
    let count = in_rule((2 <= f) & (f <= 16), 0, 16, values[1]);
    let date = in_rule(has_date(version, f), 1, 200000, values[2]);
    let depth = in_rule(has_depth(version, f), 0, 3, values[3]);
    let task = in_rule(f == 5, 0, 15, values[4]);
    let limit = in_rule((7 <= f) & (f <= 8), 0, 3, values[6]);
    let cycle = in_rule(f == 8, 0, 1000000, values[7]);
    (values[0] == 0)
        & (count
            & (date
                & (depth & (task & ((values[5] == 0) & (limit & (cycle & (values[8] == low))))))))
}

// ---- all of it

fn kept(c: Carried) -> bool
    ensures { result ≡ kept_fits c.point.row c.point.whole c.values c.stages c.places c.set }
{
    let f = c.point.row;
    let n = c.point.whole;
    let j = whole_tuples(f, n);
    let k = whole_stages(c.set.version, c.values[3], f, n);
    let valid = stream_valid::is_valid(c.set);
    let version = version_fits(c.set.version, f);
    let count = count_fits(f, c.set.count, c.values[1] as usize);
    let most = most_whole(f, c.values);
    let part = part(k, c.stages, j, c.places);
    let valued = values_fit(c.set.version, f, last_offset(j, c.places), c.values);
    valid & (version & (count & ((n <= most) & (part & valued))))
}

#[tactic(auto, unfolding(crate::specs::Left::fits))]
pub(crate) fn fits(c: Carried) -> bool
    ensures { result ≡ fits c }
{
    let here = point_fits(c.point);
    let kept = kept(c);
    here & kept
}
