// What `sheet_text` prints: what is wrong with a text and where, or what was made of it.
#![tactic(auto)]

ghost use Rattle.std.specs.Prelude.{◌≡◌};
ghost use Rattle.line.specs.Line.{holding, puts};
ghost use Rattle.text_faults.specs.Notes.{fault_words, fault_line, plural, made_line};

use line::Line;
use text_line::Fault;

// What is wrong with a line.
fn words(why: Fault) -> &'static [u8]
    ensures { result.now ≡ fault_words why }
{
    match why {
        Fault::NotTask => b"the line does not begin with task and a number",
        Fault::Task => b"the task is not from 0 to 15",
        Fault::NotCost => b"the task is not followed by cost and a number",
        Fault::Cost => b"the cost is not from 1 to 65535",
        Fault::TwoStages => b"there is more than one stage, and the first line is not version 2",
        Fault::FiveStages => b"there are more than 4 stages",
        Fault::NotDeadline => b"the cost is not followed by deadline and a number",
        Fault::Deadline => b"the deadline is not from 1 to 200000",
        Fault::NotTuple =>
            b"the deadline is not followed by tuples alone, such as once@0 or every 20@0",
        Fault::Cycle => b"a cycle is not from 1 to 1000000",
        Fault::Offset => b"the first offset is not 0, or an offset falls or is above 100000",
        Fault::FiveTuples => b"there are more than 4 tuples",
        Fault::NotJitter => b"jitter is not followed by two numbers alone, such as jitter 20 2",
        Fault::Jitter =>
            b"the jitter Z J is out of rule: Z from 1 to 1000000, 2J at most Z, Z - 2J at most 100000",
        Fault::LongLine => b"the line is too long for a stream",
        Fault::LateVersion => b"version 2 is not the first line",
        Fault::ManyStreams => b"there are more than 16 streams",
    }
}

// The message for a bad line: its number and what is wrong with it.
pub fn fault_line(n: u64, why: Fault) -> Line
    ensures { result ≡ holding (fault_line n why) }
{
    let at = line::word(line::one(line::blank(), b"line", n), b": ");
    line::put(line::word(at, words(why)), b'\n')
}

// A number of things: one of them has no s at its end.
#[tactic(auto, unfolding(line::specs::Line::puts))]
fn things(l: Line, n: u64) -> Line
    ensures { result ≡ puts l (plural n) }
{
    if n == 1 { l } else { line::put(l, b's') }
}

// The line for a sheet that was written.
pub fn made_line(streams: u64, bytes: u64) -> Line
    ensures { result ≡ holding (made_line streams bytes) }
{
    let first = line::word(line::one(line::blank(), b"set.bin:", streams), b" stream");
    let next = line::word(line::one(things(first, streams), b",", bytes), b" byte");
    line::put(things(next, bytes), b'\n')
}
