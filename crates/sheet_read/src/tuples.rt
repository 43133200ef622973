// Tuples that come at once: a cycle and its offset in one step, where both lie in eight bytes that are there.
ghost use Rattle.std.specs.Prelude.{◌≡◌, ◌&&◌, ◌+◌, ◌*◌, ◌<◌, ◌≤◌, length};
ghost use Rattle.rules.specs.Recordings.{bit_at};
ghost use Rattle.rules.specs.Sheet.{tuple_of};
ghost use Rattle.sheet_carried.specs.Table.{in_rule_of};
ghost use Rattle.sheet_carried.specs.Reader.{no_tuples, value_at};
ghost use Rattle.sheet_read.specs.AtOnce.{AtOnce};

use crate::{Came, table};
use rules::{Place, Tuple, TuplePlace};

pub(crate) fn tuple_of(cycle: u32, offset: u32) -> TuplePlace
    ensures { result ≡ tuple_of cycle offset }
{
    if cycle == 0 {
        TuplePlace {
            tuple: Tuple::Once(offset),
        }
    } else {
        TuplePlace {
            tuple: Tuple::Every(cycle, offset),
        }
    }
}

pub(crate) fn no_tuples() -> [TuplePlace; 4]
    ensures { result ≡ no_tuples }
{
    [TuplePlace {
        tuple: Tuple::Once(0),
    }; 4]
}

// Whether the fields of a tuple are in their rules, behind `n` tuples, the last of them at `low`.
fn in_rule(cycle: u32, offset: u32, n: usize, low: u32) -> bool
    ensures { result ≡ (in_rule_of 7 n low cycle && in_rule_of 8 n low offset) }
{
    let cycle = table::fits(table::CYCLE, n, low, cycle);
    let offset = table::fits(table::OFFSET, n, low, offset);
    cycle & offset
}

// The tuples of a stream that come before its last one, from a place on, as far as they come at once. The last one ends the stream, and
// is read field by field, as is any that is cut or out of rule.
pub(crate) fn before_last(values: [u32; 9], piece: &[u8], from: Place) -> Came
    requires { (value_at values 6 ≤ 3) × (from.bit < 8) × (bit_at from ≤ 8 * length piece.now) }
    ensures { AtOnce values piece.now (bit_at from) result }
{
    let mut came = Came {
        whole: 0,
        places: no_tuples(),
        cycle: values[table::CYCLE],
        low: values[table::OFFSET],
        at: from,
    };
    for k in 0..values[table::TUPLES] as usize {
        let Some((cycle, offset)) = bits::take_two(piece, came.at, 20, 17) else {
            return came;
        };
        if !in_rule(cycle, offset, k, came.low) {
            return came;
        }
        came.places[k] = tuple_of(cycle, offset);
        came.whole = k + 1;
        came.cycle = 0;
        came.low = offset;
        came.at = bits::after(came.at, 37);
    }
    came
}
