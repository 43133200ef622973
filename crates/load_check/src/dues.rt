// A set's tuples laid out in rows, so that the loop over lengths reads plain numbers in place.
ghost use Rattle.std.specs.Prelude.{◌≡◌, ◌≤◌, ◌<◌, ◌+◌, ◌++◌, ◌∷◌, [], length};
ghost use Rattle.rules.specs.Valid.{Between, ValidCycle, ValidStream, ValidSet};
ghost use Rattle.rules.specs.Streams.{offset, streams_of};
ghost use Rattle.load_check.specs.Dues.{row_due, used, dues, stream_due, RowFor, RowsFit, Grows, RowsOf};

use crate::{Row, Rows};
use rules::{Set, Stream, Tuple};

// ---- laying out

// A tuple of a stream is first due at deadline plus offset. Once is a cycle that no length of 32 bits completes.
fn row_of(cost: u32, deadline: u32, tuple: Tuple) -> Row
    requires { (cost ≤ 262140) × (Between 1 deadline 200000) × (offset tuple ≤ 100000) × (ValidCycle tuple) }
    ensures { RowFor cost deadline tuple result }
{
    match tuple {
        Tuple::Once(a) => Row {
            cost,
            first: deadline + a,
            cycle: 4294967295,
        },
        Tuple::Every(cycle, a) => Row {
            cost,
            first: deadline + a,
            cycle,
        },
    }
}

fn put_row(t: &mut Rows, row: Row)
    requires { t.old.count < 64 }
    ensures rows { used t.new ≡ used t.old ++ row ∷ [] }
    ensures count { t.new.count ≡ t.old.count + 1 }
{
    t.rows[t.count] = row;
    t.count += 1;
}

fn put_stream(t: &mut Rows, s: &Stream)
    requires { (t.old.count ≤ 60) × (RowsFit (used t.old)) × (ValidStream s.now) }
    ensures { Grows t.old 4 (stream_due s.now) t.new }
{
    let cost = load_cycles::stream_cost(*s) as u32;
    for p in stream_valid::tuples_of(s) {
        put_row(t, row_of(cost, s.deadline, p.tuple));
    }
}

pub(crate) fn rows_of(x: &Set) -> Rows
    requires { ValidSet x.now }
    ensures { RowsOf (streams_of x.now) result }
{
    let mut t = Rows {
        count: 0,
        rows: [Row {
            cost: 0,
            first: 0,
            cycle: 0,
        }; 64],
    };
    for s in stream_valid::streams_of(x) {
        put_stream(&mut t, s);
    }
    t
}

// ---- reading

// The rows in use.
pub(crate) fn used(t: &Rows) -> &[Row]
    requires { t.now.count ≤ 64 }
    ensures { result.now ≡ used t.now }
{
    &t.rows[..t.count]
}

fn row_due(row: Row, i: u32) -> u64
    requires { 0 < row.cycle }
    ensures { result ≡ row_due i row }
{
    if row.first <= i {
        u64::from(row.cost) * (u64::from((i - row.first) / row.cycle) + 1)
    } else {
        0
    }
}

// What the rows add by the length i.
pub(crate) fn dues_at(rows: &[Row], i: u32) -> u64
    requires { RowsFit rows.now }
    ensures { result ≡ dues rows.now i }
{
    let mut acc = 0;
    for row in rows {
        acc += row_due(*row, i);
    }
    acc
}
