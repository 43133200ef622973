// The fields of a sheet as data: a row for each, and for each version the order in which they come.
ghost use Rattle.std.specs.Prelude.{◌≡◌, ◌<◌};
ghost use Rattle.laws.specs.Lists.{within};
ghost use Rattle.sheet_carried.specs.Table.{row, row_of, greatest_of, in_rule_of, refusal_of, behind_of, opened_of, following_of};
ghost use Rattle.sheet_carried.specs.Reader.{point_at, rule_of};

use sheet_carried::{Point, SheetField};

// The rows that something else than the next row can come behind, or that a value is looked up by.
// kept: a row is a number, as the definitions' table and the carried state's layout (docs/STATE.md) count it
pub(crate) const VERSION: usize = 0;

pub(crate) const COUNT: usize = 1;

pub(crate) const DEADLINE: usize = 2;

pub(crate) const STAGES: usize = 3;

pub(crate) const TASK: usize = 4;

pub(crate) const COST: usize = 5;

pub(crate) const TUPLES: usize = 6;

pub(crate) const CYCLE: usize = 7;

pub(crate) const OFFSET: usize = 8;
// seven padding bits, and a bit of a further byte
pub(crate) const PADDING: usize = 9;
// refused with 6, and behind it with 7 and with 10
pub(crate) const REFUSED: usize = 17;

pub(crate) const OUT_OF_RULE: usize = 18;

pub(crate) const LEFTOVER: usize = 19;

// ---- rows

fn field(width: u32, least: u32, greatest: u32) -> SheetField
    ensures { result ≡ row width least greatest }
{
    SheetField {
        width,
        least,
        greatest,
    }
}

// The table, row by row. A padding bit is 0, a bit of a further byte has no value, and a refused sheet has no bits.
#[tactic(auto, unfolding(sheet_carried::specs::Table::row_of))]
fn row(f: usize) -> SheetField
    ensures { result ≡ row_of f }
{
    if f < PADDING {
        return match f {
            VERSION => field(4, 1, 2),
            COUNT => field(5, 0, 16),
            DEADLINE => field(18, 1, 200000),
            STAGES => field(2, 0, 3),
            TASK => field(4, 0, 15),
            COST => field(16, 1, 65535),
            TUPLES => field(2, 0, 3),
            CYCLE => field(20, 0, 1000000),
            _ => field(17, 0, 100000),
        };
    }
    if REFUSED <= f {
        return field(0, 0, 0);
    }
    if f == REFUSED - 1 {
        field(1, 1, 0)
    } else {
        field(1, 0, 0)
    }
}

// "the first is 0 and they never fall": how large an offset behind `n` tuples may be.
#[tactic(auto, unfolding(sheet_carried::specs::Table::greatest_of, sheet_carried::specs::Table::row_of))]
fn greatest_offset(n: usize) -> u32
    ensures { result ≡ greatest_of 8 n }
{
    if n == 0 { 0 } else { 100000 }
}

// The row of the field that comes, with an offset's own bounds: it is looked up once for a field.
#[tactic(auto, unfolding(sheet_carried::specs::Reader::rule_of, sheet_carried::specs::Table::least_of, sheet_carried::specs::Table::greatest_of))]
pub(crate) fn rule(p: Point, values: [u32; 9]) -> SheetField
    ensures { result ≡ rule_of p values }
{
    let r = row(p.row);
    if p.row == OFFSET {
        let low = values[OFFSET];
        return field(r.width, low, greatest_offset(p.whole));
    }
    r
}

// Whether `v` may be the value of a field with the rule `r`.
pub(crate) fn in_rule(r: SheetField, v: u32) -> bool
    ensures { result ≡ within r.least v r.greatest }
{
    (r.least <= v) & (v <= r.greatest)
}

// Whether `v` may be the value of the field `f`, behind `n` tuples, the last of them at `low`.
#[tactic(auto, unfolding(sheet_carried::specs::Table::in_rule_of, sheet_carried::specs::Table::least_of, sheet_carried::specs::Table::greatest_of))]
pub(crate) fn fits(f: usize, n: usize, low: u32, v: u32) -> bool
    ensures { result ≡ in_rule_of f n low v }
{
    if f == OFFSET {
        return (low <= v) & (v <= greatest_offset(n));
    }
    in_rule(row(f), v)
}

// The row of the refusal that any other value gets.
#[tactic(auto, unfolding(sheet_carried::specs::Table::refusal_of))]
pub(crate) fn refusal(f: usize) -> usize
    ensures { result ≡ refusal_of f }
{
    match f {
        VERSION => REFUSED,
        COUNT..PADDING => OUT_OF_RULE,
        _ => LEFTOVER,
    }
}

// ---- what comes next

// A version's order: what comes behind a field, where no further stage or tuple of its stream does. In version 2 it is the table's own.
#[tactic(auto, unfolding(sheet_carried::specs::Table::behind_of))]
pub(crate) fn behind(version: u32, f: usize) -> usize
    requires { f < 9 }
    ensures { result ≡ behind_of version f }
{
    if version == 1 {
        return match f {
            COUNT => TASK,
            DEADLINE => TUPLES,
            COST => DEADLINE,
            _ => f + 1,
        };
    }
    f + 1
}

// What comes behind `k` whole streams of `n`.
#[tactic(auto, unfolding(sheet_carried::specs::Table::opened_of))]
pub(crate) fn opened(version: u32, k: usize, n: usize) -> usize
    ensures { result ≡ opened_of version k n }
{
    if k < n {
        behind(version, COUNT)
    } else {
        PADDING
    }
}

// What comes behind a field with the value `v`.
#[tactic(auto, unfolding(sheet_carried::specs::Table::following_of))]
pub(crate) fn following(version: u32, f: usize, v: u32) -> usize
    requires { f < 9 }
    ensures { result ≡ following_of version f v }
{
    if f == COUNT {
        return opened(version, 0, v as usize);
    }
    behind(version, f)
}

// Before the field `f`, of which no bit has come, behind `n` stages or tuples.
pub(crate) fn begun(f: usize, n: usize) -> Point
    ensures { result ≡ point_at f n }
{
    let r = row(f);
    Point {
        row: f,
        whole: n,
        acc: 0,
        left: r.width,
    }
}
