// Questions about a sheet for a caller in another language: bytes come in, one number goes out.
#![tactic(auto)]

ghost use Rattle.std.specs.Prelude.{◌≡◌};
ghost use Rattle.laws.specs.Bits.{bits};
ghost use Rattle.rules.specs.Sheet.{read_of};
ghost use Rattle.sheet_carried.specs.Reader.{run, start_of};
ghost use Rattle.load_check.specs.Sheets.{SheetVerdict};
ghost use Rattle.exports.specs.Codes.{halves, answer_number, read_code, verdict_code, VerdictOfSheet, run_code};

use rules::{ReadResult, Refusal, Set, Verdict};
use sheet_carried::Carried;

// kept: the C interface: one number goes out, so two are packed into it, each by its lowest 32 bits
#[tactic(auto, unfolding(crate::specs::Codes::halves))]
fn in_halves(upper: u64, lower: u64) -> u64
    ensures { result ≡ halves upper lower }
{
    upper % 4294967296 * 4294967296 + lower % 4294967296
}

// ---- reading

// kept: the C interface: an answer goes out as its number
fn answer_number(a: Result<(), Refusal>) -> u64
    ensures { result ≡ answer_number a }
{
    match a {
        Ok(()) => 0,
        Err(why) => answer_numbers::refusal_number(why),
    }
}

// The answer's number, and the deadline of stream k, 0 where there is none.
#[tactic(auto, unfolding(crate::specs::Codes::read_code))]
fn told(r: ReadResult, k: usize) -> u64
    ensures { result ≡ read_code r k }
{
    let s = stream_valid::stream_at(r.set, k);
    in_halves(answer_number(r.answer), u64::from(s.deadline))
}

// What the bytes read as.
#[unsafe(no_mangle)]
pub extern "C" fn sheet_read(bytes: &[u8], k: usize) -> u64
    ensures { result ≡ read_code (read_of bytes.now) k }
{
    told(sheet_read::read(bytes), k)
}

// ---- reading in pieces

// The bytes are fed in pieces of `size`, the last one of what is left; for a size of 0 all in one.
fn fed(bytes: &[u8], size: usize) -> Carried
    ensures { result ≡ run start_of (bits bytes.now) }
{
    let size = if size == 0 { usize::MAX } else { size };
    let mut c = sheet_read::cable();
    for piece in bytes.chunks(size) {
        c = sheet_read::feed(c, piece).carried;
    }
    c
}

// As `sheet_read`, the bytes fed in pieces of `size`: however they are cut, the number is the same.
#[unsafe(no_mangle)]
pub extern "C" fn sheet_fed(bytes: &[u8], size: usize, k: usize) -> u64
    ensures { result ≡ read_code (read_of bytes.now) k }
{
    told(sheet_read::close(fed(bytes, size)), k)
}

// ---- the verdict

// kept: the C interface: 0 accept, 256 late, 257 overload or the refusal's number, and the late length
#[tactic(auto, unfolding(crate::specs::Codes::verdict_code))]
fn verdict_code(v: Verdict) -> u64
    ensures { result ≡ verdict_code v }
{
    match v {
        Verdict::Accept => in_halves(0, 0),
        Verdict::Late(i, _) => in_halves(256, i),
        Verdict::Overload => in_halves(257, 0),
        Verdict::Refused(why) => in_halves(answer_numbers::refusal_number(why), 0),
    }
}

// The verdict of the sheet.
#[unsafe(no_mangle)]
pub extern "C" fn sheet_verdict(bytes: &[u8]) -> u64
    ensures { VerdictOfSheet (read_of bytes.now) result }
{
    let r = sheet_read::read(bytes);
    verdict_code(load_check::sheet_verdict(r.answer, r.set))
}

// The verdict of what a sheet reads as, by calls that test n lengths each.
fn verdict_in_calls(a: Result<(), Refusal>, set: Set, n: u32) -> Verdict
    ensures { SheetVerdict a set result }
{
    match a {
        Ok(()) => load_resume::in_calls(set, n),
        Err(why) => Verdict::Refused(why),
    }
}

// The same number as `sheet_verdict`, by calls that test n lengths each.
#[unsafe(no_mangle)]
pub extern "C" fn sheet_in_calls(bytes: &[u8], n: u32) -> u64
    ensures { VerdictOfSheet (read_of bytes.now) result }
{
    let r = sheet_read::read(bytes);
    verdict_code(verdict_in_calls(r.answer, r.set, n))
}

// ---- calls

// The state after the calls, from the start of the set that the bytes read as: how many are pending, and the clock.
#[unsafe(no_mangle)]
pub extern "C" fn sheet_run(bytes: &[u8], calls: &[u8]) -> u64
    ensures { result ≡ run_code bytes.now calls.now }
{
    let r = sheet_read::read(bytes);
    let last = scheduler_run::last_state(r.set, calls);
    in_halves(last.count as u64, u64::from(last.clock))
}
