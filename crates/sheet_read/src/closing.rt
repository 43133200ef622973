// What the sheet reads as when no bit comes any more.
ghost use Rattle.std.specs.Prelude.{◌≡◌};
ghost use Rattle.rules.specs.Sheet.{no_set};
ghost use Rattle.sheet_carried.specs.Table.{answer_of};
ghost use Rattle.sheet_carried.specs.Reader.{close_of};
ghost use Rattle.sheet_carried.specs.Kept.{Kept};

use crate::{feeding, table};
use rules::{ReadResult, Refusal};
use sheet_carried::Carried;

#[tactic(auto, unfolding(sheet_carried::specs::Table::answer_of, sheet_carried::specs::Table::why_of))]
fn answer(f: usize) -> Result<(), Refusal>
    ensures { result ≡ answer_of f }
{
    match f {
        0..table::PADDING => Err(Refusal::BitsMissing),
        table::PADDING..table::REFUSED => Ok(()),
        table::REFUSED => Err(Refusal::BadVersion),
        table::OUT_OF_RULE => Err(Refusal::OutOfRule),
        _ => Err(Refusal::Leftover),
    }
}

// A refusal, with the empty set.
pub(crate) fn no_set(why: Refusal) -> ReadResult
    ensures { result ≡ no_set why }
{
    ReadResult {
        answer: Err(why),
        set: stream_valid::empty_set(),
    }
}

#[tactic(auto, unfolding(sheet_carried::specs::Reader::close_of))]
pub(crate) fn close(s: Carried) -> ReadResult
    requires { Kept s }
    ensures { result ≡ close_of s }
{
    let point = s.point;
    let set = s.set;
    match answer(point.row) {
        Ok(()) => ReadResult {
            answer: Ok(()),
            set,
        },
        Err(why) => ReadResult {
            answer: Err(why),
            set: feeding::cleared(set),
        },
    }
}
