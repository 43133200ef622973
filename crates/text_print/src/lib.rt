// A set's readable text, put on a page.
#![tactic(auto)]

ghost use Rattle.std.specs.Prelude.{◌≡◌, true, ◌++◌, [], ◌≤◌, length, drop};
ghost use Rattle.rules.specs.Streams.{valid};
ghost use Rattle.line.specs.Line.{holding, puts};
ghost use Rattle.ascii.specs.Decimal.{newline};
ghost use Rattle.text_line.specs.Lines.{limit_text};
ghost use Rattle.text_print.specs.Listed.{first_text, text_of, text_room, list_of, page_of};

use line::Line;
use rules::{Refusal, Set, Stream};

// Room for the text of any set: a line for the version, and one for each of 16 streams.
pub const ROOM: usize = 17 * text_tidy::ROOM;

// The line that tells the version, with its newline; a text of version 1 has none.
#[tactic(auto, using(line::proofs::Puts::last), unfolding(line::specs::Line::puts))]
fn first_line(version: u32) -> Line
    ensures { result ≡ puts (holding []) (first_text version) }
{
    if version == 2 {
        line::put(line::word(line::blank(), b"version 2"), b'\n')
    } else {
        line::blank()
    }
}

// What stands behind the stages in a stream's line, with the newline.
#[tactic(auto, using(line::proofs::Puts::last))]
fn line_end(s: Stream) -> Line
    ensures { result ≡ puts (holding []) (limit_text s ++ newline) }
{
    line::put(text_line::limit_line(s), b'\n')
}

// The lines of a valid set, one behind the other, on a page that has room for them.
fn put_lines(x: Set, out: &mut [u8]) -> usize
    requires { (valid x ≡ true) × (text_room ≤ length out.old) }
    ensures { (result ≡ length (text_of x)) × (out.new ≡ text_of x ++ drop (length (text_of x)) out.old) }
{
    let mut at = page::append(out, 0, first_line(x.version));
    for s in stream_valid::streams_of(&x) {
        at = page::append(out, at, text_line::stages_line(*s));
        at = page::append(out, at, line_end(*s));
    }
    at
}

// A set's text at the front of a page, and how long it is. An invalid set is refused with 7, a page that has not room
// for the text of any set with 11; the page then stays as it is.
#[tactic(auto, unfolding(crate::specs::Listed::list_of, crate::specs::Listed::page_of))]
pub fn print(x: Set, out: &mut [u8]) -> Result<usize, Refusal>
    ensures { (result ≡ list_of x (length out.old)) × (out.new ≡ page_of x out.old) }
{
    if !stream_valid::is_valid(x) {
        return Err(Refusal::OutOfRule);
    }
    if out.len() < ROOM {
        return Err(Refusal::ShortBuffer);
    }
    Ok(put_lines(x, out))
}
