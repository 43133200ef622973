// What the check program prints: how far it is, the verdict, and what a late length's demand is made of.
#![tactic(auto)]

ghost use Rattle.std.specs.Prelude.{ℕ, ◌≡◌, ◌<◌, true, Option};
ghost use Rattle.line.specs.Line.{holding};
ghost use Rattle.page.specs.Pages.{room_for, Onto};
ghost use Rattle.check_lines.specs.Told.{part_line, progress_line, sixteen_room, parts_room, first_lines, part_lines, made_of, shown_of};

use line::Line;
use load_parts::Part;
use rules::{Set, Verdict};

// Room for all that is printed: a line for the verdict, and one for each of 16 streams and 16 tasks.
pub const ROOM: usize = 33 * line::ROOM;

// How many lengths were tested, of how many.
pub fn progress_line(tested: u32, all: u32) -> Line
    ensures { result ≡ holding (progress_line tested all) }
{
    let front = line::one(line::blank(), b"tested", u64::from(tested));
    line::put(line::one(front, b" of", u64::from(all)), b'\n')
}

// No part has no line.
pub fn part_line(p: Option<Part>) -> Line
    ensures { result ≡ holding (part_line p) }
{
    match p {
        None => line::blank(),
        Some(Part::Due(k, c, e)) => {
            let front = line::one(line::blank(), b"stream", k as u64);
            line::put(
                line::one(line::one(front, b" cost", c), b" times", e),
                b'\n',
            )
        }
        Some(Part::Blocks(t, b)) => {
            let front = line::one(line::blank(), b"task", t as u64);
            line::put(line::one(front, b" blocked by", b), b'\n')
        }
    }
}

// ---- the page

// The lines of the parts of 16 numbers, in their order.
fn sixteen_onto<F: Fn(usize) -> Option<Part>>(part: F, out: &mut [u8], at: usize) -> usize
    requires call { F.IsAlwaysCallable part }
    requires room { room_for out.old at sixteen_room ≡ true }
    ensures { (f : ℕ → Option Part) × ((k : ℕ) → k < 16 → F.post part k (f k)) × Onto out.old at (first_lines f 16) result out.new }
{
    let mut end = at;
    for k in 0..16 {
        end = page::append(out, end, part_line(part(k)));
    }
    end
}

// The streams, then the tasks.
fn parts_onto(x: Set, i: u32, out: &mut [u8], at: usize) -> usize
    requires { room_for out.old at parts_room ≡ true }
    ensures { Onto out.old at (part_lines x i) result out.new }
{
    let end = sixteen_onto(|k| load_parts::stream_part(x, i, k), out, at);
    sixteen_onto(|t| load_parts::task_part(x, i, t), out, end)
}

// Only a late length has parts.
fn made_onto(x: Set, v: Verdict, out: &mut [u8], at: usize) -> usize
    requires { room_for out.old at parts_room ≡ true }
    ensures { Onto out.old at (made_of x v) result out.new }
{
    match v {
        Verdict::Late(i, _) => {
            if i <= 4294967295 {
                parts_onto(x, i as u32, out, at)
            } else {
                at
            }
        }
        Verdict::Accept | Verdict::Overload | Verdict::Refused(_) => at,
    }
}

// The verdict, and for a late set what the demand is made of, at the front of a page; a page that has not room for all of any set stays as it is.
pub fn show(x: Set, v: Verdict, out: &mut [u8]) -> usize
    ensures { Onto out.old 0 (shown_of x v out.old) result out.new }
{
    if ROOM <= out.len() {
        let at = page::append(out, 0, answer_words::verdict_line(v));
        made_onto(x, v, out, at)
    } else {
        0
    }
}
