// The pieces of a sheet as an input brings them: each behind a byte that says how many bytes it has.
#![tactic(auto)]

ghost use Rattle.std.specs.Prelude.{◌≡◌, eqb};
ghost use Rattle.cable_frames.specs.Frames.{first_frames, step_of, taken_of};

use sheet_carried::Carried;

// What is carried of the sheet, and how many bytes of the piece are to come: 0 where a length comes.
#[derive(Clone, Copy)]
pub struct Frames {
    pub carried: Carried,
    pub left: usize,
}

pub fn first() -> Frames
    ensures { result ≡ first_frames }
{
    Frames {
        carried: sheet_read::cable(),
        left: 0,
    }
}

// A byte: a length, or a byte of the piece. It is fed as it comes: any division into pieces gives the same set.
fn step(f: Frames, b: u8) -> Frames
    ensures { result ≡ step_of f b }
{
    if f.left == 0 {
        return Frames {
            carried: f.carried,
            left: b as usize,
        };
    }
    Frames {
        carried: sheet_read::feed(f.carried, &[b]).carried,
        left: f.left - 1,
    }
}

// Bytes of the input, any cut.
pub fn take(f: Frames, bytes: &[u8]) -> Frames
    ensures { result ≡ taken_of f bytes.now }
{
    let mut next = f;
    for b in bytes {
        next = step(next, *b);
    }
    next
}

// Has the input stopped behind a whole piece?
pub fn is_whole(f: Frames) -> bool
    ensures { result ≡ eqb f.left 0 }
{
    f.left == 0
}
