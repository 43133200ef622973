// The testing of a range of lengths.
ghost use Rattle.std.specs.Prelude.{◌≡◌, ◌≤◌};
ghost use Rattle.rules.specs.Valid.{ValidSet};
ghost use Rattle.rules.specs.Streams.{streams_of};
ghost use Rattle.load_check.specs.Dues.{RowsFit};
ghost use Rattle.load_check.specs.Lengths.{Spanned, Ranged};

use crate::{Row, blocked, dues};
use rules::Set;

// The lengths from `from` up to `stop`, at all of which the blocking is `blocked`: the first late one and its demand.
fn test_span(rows: &[Row], blocked: u64, from: u32, stop: u32) -> Option<(u64, u64)>
    requires { (RowsFit rows.now) × (blocked ≤ 1048560) }
    ensures { Spanned rows.now blocked from stop result }
{
    for i in from..stop {
        let w = dues::dues_at(rows, i) + blocked;
        if u64::from(i) < w {
            return Some((u64::from(i), w));
        }
    }
    None
}

// The lengths from `from` up to `end`, in order, from deadline to deadline: the first late one and its demand.
pub(crate) fn test_range(x: &Set, from: u32, end: u32) -> Option<(u64, u64)>
    requires { ValidSet x.now }
    ensures { Ranged (streams_of x.now) from end result }
{
    let t = dues::rows_of(x);
    let rows = dues::used(&t);
    let mut i = from;
    // kept: the new form is no plainer, since this steps from deadline to deadline
    while i < end {
        let stop = blocked::next_deadline(x, i, end);
        if let Some(late) = test_span(rows, blocked::blockings(x, i), i, stop) {
            return Some(late);
        }
        i = stop;
    }
    None
}
