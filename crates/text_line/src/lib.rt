// A stream as a line of text: `task 0 cost 2 deadline 5 once@0 every 20@16`, or `task 0 cost 2 deadline 5 jitter 20 2`;
// in a text of version 2 with its stages: `task 1 cost 2 task 4 cost 3 deadline 40 every 50@0`.
#![tactic(auto)]

ghost use Rattle.std.specs.Prelude.{◌≡◌, ◌≤◌, ◌++◌, [], length, not};
ghost use Rattle.std.specs.List.{fold, position};
ghost use Rattle.ascii.specs.Decimal.{is_digit};
ghost use Rattle.rules.specs.Streams.{no_stream, stages_of, tuples_of};
ghost use Rattle.line.specs.Line.{holding, puts};
ghost use Rattle.text_line.specs.Lines.{starts_at, digits, ended_at, number_at, field_at, needed, offset_at, every_at, tuple_at, added, finished, tuples_at, alone, jitter_said, each_way_at, jitter_at, limit_at, with_deadline, deadline_at, stages_end, space_at, cost_at, pair_at, staged, most_stages, too_many, stages_at, line_read, longest, judged, stage_text, place_text, stages_text, limit_text};

use line::Line;
use rules::{Stage, Stream, Tuple, TuplePlace};
use text_tidy::Row;

// Why a line is no stream.
#[derive(Clone, Copy)]
pub enum Fault {
    NotTask,
    Task,
    NotCost,
    Cost,
    TwoStages,
    FiveStages,
    NotDeadline,
    Deadline,
    NotTuple,
    Cycle,
    Offset,
    FiveTuples,
    NotJitter,
    Jitter,
    LongLine,
    LateVersion,
    ManyStreams,
}

// Why no number is read: none stands there, or it is out of range.
#[derive(Clone, Copy)]
pub enum NumberFault {
    Missing,
    Outside,
}

// What a line says that is not empty.
#[derive(Clone, Copy)]
pub enum Said {
    Stream(Stream),
    Version,
}

// ---- reading

// kept: a line and a place in it stand as two parameters. A slice of what is left is no plainer: each of the eight functions that hand a place
// back would hand back a slice within a pair, a Result and once an Option, and its contract would have to map all of that to the bytes.
// kept: the least and the greatest number stand as two parameters: a RangeInclusive is not Copy, and a contract would have to say that it is not spent.

// The bytes of w stand in the line from `at` on.
fn starts(line: &[u8], at: usize, w: &[u8]) -> bool
    ensures { result ≡ starts_at w.now line.now at }
{
    at <= line.len() && line[at..].starts_with(w)
}

// A number whose digits stand from `at` to `end`, and where it ends.
#[tactic(auto, unfolding(crate::specs::Lines::ended_at))]
fn ended(at: usize, end: usize, n: u64, low: u32, high: u32) -> Result<(u32, usize), NumberFault>
    ensures { result ≡ ended_at low high at end n }
{
    if end == at {
        return Err(NumberFault::Missing);
    }
    if !(u64::from(low)..=u64::from(high)).contains(&n) {
        return Err(NumberFault::Outside);
    }
    Ok((n as u32, end))
}

// Where the first byte stands that is no digit.
fn first_other(rest: &[u8]) -> Option<usize>
    ensures { result ≡ position (λ b. not (is_digit b)) rest.now }
{
    rest.iter().position(|b| !ascii::is_digit(*b))
}

// The digits at the front.
fn digits(rest: &[u8]) -> &[u8]
    ensures { result.now ≡ digits rest.now }
{
    &rest[..first_other(rest).unwrap_or(rest.len())]
}

fn number_at(line: &[u8], at: usize, low: u32, high: u32) -> Result<(u32, usize), NumberFault>
    requires { at ≤ length line.now }
    ensures { result ≡ number_at low high line.now at }
{
    let digits = digits(&line[at..]);
    let mut n: u64 = 0;
    for b in digits {
        n = n * 10 + ascii::digit_of(*b);
        if u64::from(u32::MAX) < n {
            return Err(NumberFault::Outside);
        }
    }
    ended(at, at + digits.len(), n, low, high)
}

// The word w, and behind it a number from low to high.
#[tactic(auto, using(crate::proofs::Numbers::starts_room), unfolding(crate::specs::Lines::field_at))]
fn field_at(
    line: &[u8],
    at: usize,
    w: &[u8],
    low: u32,
    high: u32,
) -> Result<(u32, usize), NumberFault>
    ensures { result ≡ field_at w.now low high line.now at }
{
    if starts(line, at, w) {
        number_at(line, at + w.len(), low, high)
    } else {
        Err(NumberFault::Missing)
    }
}

// A field that a line needs: what is wrong with the line where it is missing or out of range.
#[tactic(auto, unfolding(crate::specs::Lines::needed, crate::specs::Lines::by_field))]
fn need(
    line: &[u8],
    at: usize,
    w: &[u8],
    low: u32,
    high: u32,
    missing: Fault,
    outside: Fault,
) -> Result<(u32, usize), Fault>
    ensures { result ≡ needed (field_at w.now low high line.now at) missing outside }
{
    field_at(line, at, w, low, high).map_err(|why| match why {
        NumberFault::Missing => missing,
        NumberFault::Outside => outside,
    })
}

#[tactic(auto, unfolding(crate::specs::Lines::offset_at, crate::specs::Lines::leads))]
fn offset_at(line: &[u8], at: usize, z: u32, low: u32, high: u32) -> Result<(Tuple, usize), Fault>
    ensures { result ≡ offset_at z low high line.now at }
{
    let (a, end) = need(line, at, b"@", low, high, Fault::NotTuple, Fault::Offset)?;
    Ok((Tuple::Every(z, a), end))
}

#[tactic(auto, unfolding(crate::specs::Lines::every_at, crate::specs::Lines::leads))]
fn every_at(line: &[u8], at: usize, low: u32, high: u32) -> Result<(Tuple, usize), Fault>
    ensures { result ≡ every_at low high line.now at }
{
    let (z, end) = need(
        line,
        at,
        b" every ",
        1,
        1000000,
        Fault::NotTuple,
        Fault::Cycle,
    )?;
    offset_at(line, end, z, low, high)
}

// A tuple whose offset is from low to high, and where it ends.
#[tactic(auto, unfolding(crate::specs::Lines::tuple_at, crate::specs::Lines::by_field))]
fn tuple_at(line: &[u8], at: usize, low: u32, high: u32) -> Result<(Tuple, usize), Fault>
    ensures { result ≡ tuple_at low high line.now at }
{
    match field_at(line, at, b" once@", low, high) {
        Ok((a, end)) => Ok((Tuple::Once(a), end)),
        Err(NumberFault::Missing) => every_at(line, at, low, high),
        Err(NumberFault::Outside) => Err(Fault::Offset),
    }
}

// One tuple more. A stream that has four stays as it is.
#[tactic(auto, unfolding(crate::specs::Lines::added))]
fn add(s: Stream, t: Tuple) -> Stream
    ensures { result ≡ added s t }
{
    let k = s.count;
    if k < 4 {
        let mut next = s;
        next.tuples[k] = TuplePlace { tuple: t };
        next.count = k + 1;
        next
    } else {
        s
    }
}

// The line ends here.
fn finish(s: Stream) -> Result<Stream, Fault>
    ensures { result ≡ finished s }
{
    if s.count == 0 {
        Err(Fault::NotTuple)
    } else {
        Ok(s)
    }
}

// The tuples, at most four: the first offset is 0, and none falls.
fn tuples(line: &[u8], at: usize, s: Stream) -> Result<Stream, Fault>
    ensures { result ≡ tuples_at 4 s 0 0 line.now at }
{
    let mut next = s;
    let mut here = at;
    let mut low = 0;
    let mut high = 0;
    for _ in 0..4usize {
        if line.len() <= here {
            return finish(next);
        }
        let (t, end) = tuple_at(line, here, low, high)?;
        next = add(next, t);
        here = end;
        low = stream_valid::offset_of(t);
        high = 100000;
    }
    if line.len() <= here {
        finish(next)
    } else {
        Err(Fault::FiveTuples)
    }
}

// The line ends behind a jitter.
fn end_alone(line: &[u8], at: usize, s: Stream) -> Result<Stream, Fault>
    ensures { result ≡ alone s line.now at }
{
    if line.len() <= at {
        Ok(s)
    } else {
        Err(Fault::NotJitter)
    }
}

// The stream with the tuples of the jittered cycle (z, j).
#[tactic(auto, unfolding(crate::specs::Lines::jitter_said, crate::specs::Lines::by_jitter))]
fn jitter_said(line: &[u8], at: usize, s: Stream, z: u32, j: u32) -> Result<Stream, Fault>
    ensures { result ≡ jitter_said s z j line.now at }
{
    match stream_limits::jittered(z, j) {
        Ok((t, u)) => end_alone(line, at, add(add(s, t), u)),
        Err(_) => Err(Fault::Jitter),
    }
}

#[tactic(auto, unfolding(crate::specs::Lines::each_way_at, crate::specs::Lines::leads))]
fn each_way_at(line: &[u8], at: usize, s: Stream, z: u32) -> Result<Stream, Fault>
    ensures { result ≡ each_way_at s z line.now at }
{
    let (j, end) = need(line, at, b" ", 0, u32::MAX, Fault::NotJitter, Fault::Jitter)?;
    jitter_said(line, end, s, z, j)
}

#[tactic(auto, unfolding(crate::specs::Lines::jitter_at, crate::specs::Lines::leads))]
fn jitter_at(line: &[u8], at: usize, s: Stream) -> Result<Stream, Fault>
    ensures { result ≡ jitter_at s line.now at }
{
    let (z, end) = need(
        line,
        at,
        b" jitter ",
        0,
        u32::MAX,
        Fault::NotJitter,
        Fault::Jitter,
    )?;
    each_way_at(line, end, s, z)
}

// A stream's event limit: a jitter, or tuples.
#[tactic(auto, unfolding(crate::specs::Lines::limit_at))]
fn limit_at(line: &[u8], at: usize, s: Stream) -> Result<Stream, Fault>
    ensures { result ≡ limit_at s line.now at }
{
    if starts(line, at, b" jitter") {
        jitter_at(line, at, s)
    } else {
        tuples(line, at, s)
    }
}

fn with_deadline(s: Stream, d: u32) -> Stream
    ensures { result ≡ with_deadline s d }
{
    Stream { deadline: d, ..s }
}

#[tactic(auto, unfolding(crate::specs::Lines::deadline_at, crate::specs::Lines::leads))]
fn deadline_at(line: &[u8], at: usize, s: Stream) -> Result<Stream, Fault>
    ensures { result ≡ deadline_at s line.now at }
{
    let (d, end) = need(
        line,
        at,
        b"deadline ",
        1,
        200000,
        Fault::NotDeadline,
        Fault::Deadline,
    )?;
    limit_at(line, end, with_deadline(s, d))
}

// No stage stands here: the deadline does, behind a stage.
fn stages_end(line: &[u8], at: usize, s: Stream) -> Result<Stream, Fault>
    ensures { result ≡ stages_end s line.now at }
{
    if s.depth == 0 {
        Err(Fault::NotTask)
    } else {
        deadline_at(line, at, s)
    }
}

#[tactic(auto, using(crate::proofs::Numbers::starts_room), unfolding(crate::specs::Lines::space_at))]
fn space_at(line: &[u8], at: usize, task: u32, cost: u32) -> Result<(Stage, usize), Fault>
    ensures { result ≡ space_at task cost line.now at }
{
    if starts(line, at, b" ") {
        let g = Stage {
            task: task as usize,
            cost,
        };
        Ok((g, at + 1))
    } else {
        Err(Fault::NotDeadline)
    }
}

#[tactic(auto, unfolding(crate::specs::Lines::cost_at, crate::specs::Lines::leads))]
fn cost_at(line: &[u8], at: usize, task: u32) -> Result<(Stage, usize), Fault>
    ensures { result ≡ cost_at task line.now at }
{
    let (cost, end) = need(line, at, b" cost ", 1, 65535, Fault::NotCost, Fault::Cost)?;
    space_at(line, end, task, cost)
}

// A task, a cost and the space behind them, and where that ends; nothing where no task stands.
#[tactic(auto, unfolding(crate::specs::Lines::pair_at, crate::specs::Lines::by_field, crate::specs::Lines::leads))]
fn pair_at(line: &[u8], at: usize) -> Result<Option<(Stage, usize)>, Fault>
    ensures { result ≡ pair_at line.now at }
{
    match field_at(line, at, b"task ", 0, 15) {
        Ok((task, end)) => {
            let g = cost_at(line, end, task)?;
            Ok(Some(g))
        }
        Err(NumberFault::Missing) => Ok(None),
        Err(NumberFault::Outside) => Err(Fault::Task),
    }
}

// One stage more. A stream that has four stays as it is.
#[tactic(auto, unfolding(crate::specs::Lines::staged))]
fn add_stage(s: Stream, g: Stage) -> Stream
    ensures { result ≡ staged s g }
{
    let k = s.depth;
    if k < 4 {
        let mut next = s;
        next.stages[k] = g;
        next.depth = k + 1;
        next
    } else {
        s
    }
}

// How many stages a line has at most, and what is wrong with one that has more.
fn most_stages(version: u32) -> usize
    ensures { result ≡ most_stages version }
{
    if version == 1 { 1 } else { 4 }
}

fn too_many(version: u32) -> Fault
    ensures { result ≡ too_many version }
{
    if version == 1 {
        Fault::TwoStages
    } else {
        Fault::FiveStages
    }
}

// No stage more: the deadline stands here.
#[tactic(auto, unfolding(crate::specs::Lines::stages_at))]
fn last_stage(line: &[u8], at: usize, s: Stream, version: u32) -> Result<Stream, Fault>
    ensures { result ≡ stages_at version 0 s line.now at }
{
    if starts(line, at, b"task ") {
        Err(too_many(version))
    } else {
        stages_end(line, at, s)
    }
}

// The stages, and what stands behind them.
fn stages(line: &[u8], version: u32) -> Result<Stream, Fault>
    ensures { result ≡ stages_at version (most_stages version) no_stream line.now 0 }
{
    let mut next = stream_valid::no_stream();
    let mut here = 0;
    for _ in 0..most_stages(version) {
        match pair_at(line, here)? {
            Some((g, end)) => {
                next = add_stage(next, g);
                here = end;
            }
            None => return stages_end(line, here, next),
        }
    }
    last_stage(line, here, next, version)
}

// What a line says in a text of this version; nothing where it is empty.
#[tactic(auto, unfolding(crate::specs::Lines::line_read, crate::specs::Lines::leads))]
pub fn read_line(line: &[u8], version: u32) -> Result<Option<Said>, Fault>
    ensures { result ≡ line_read version line.now }
{
    if line.is_empty() {
        return Ok(None);
    }
    if line == b"version 2".as_slice() {
        return Ok(Some(Said::Version));
    }
    let s = stages(line, version)?;
    Ok(Some(Said::Stream(s)))
}

// How many bytes a line has at most in a text of this version.
fn longest_line(version: u32) -> usize
    ensures { result ≡ longest version }
{
    if version == 1 { 127 } else { 191 }
}

// What the tidy bytes of a line say in a text of this version.
#[tactic(auto, unfolding(crate::specs::Lines::judged))]
pub fn judge(row: Row, version: u32) -> Result<Option<Said>, Fault>
    ensures { result ≡ judged version row }
{
    if row.len <= longest_line(version) {
        read_line(&row.bytes[..row.len], version)
    } else {
        Err(Fault::LongLine)
    }
}

// ---- writing

// A stage, and a space behind it.
fn stage_text(l: Line, g: Stage) -> Line
    ensures { result ≡ puts l (stage_text g) }
{
    let task = line::one(l, b"task", g.task as u64);
    let cost = line::one(task, b" cost", u64::from(g.cost));
    line::put(cost, b' ')
}

fn tuple_text(l: Line, p: TuplePlace) -> Line
    ensures { result ≡ puts l (place_text p) }
{
    match p.tuple {
        Tuple::Once(a) => line::decimal(line::word(l, b" once@"), u64::from(a)),
        Tuple::Every(z, a) => line::decimal(
            line::word(line::one(l, b" every", u64::from(z)), b"@"),
            u64::from(a),
        ),
    }
}

// The tuples in use, one behind the other.
fn tuples_text(l: Line, s: Stream) -> Line
    ensures { result ≡ fold (λ l p. puts l (place_text p)) l (tuples_of s) }
{
    let tuples = stream_valid::tuples_of(&s);
    tuples.iter().copied().fold(l, tuple_text)
}

// The stages in use, one behind the other.
fn stages_text(l: Line, s: Stream) -> Line
    ensures { result ≡ fold (λ l g. puts l (stage_text g)) l (stages_of s) }
{
    let stages = stream_valid::stages_of(&s);
    stages.iter().copied().fold(l, stage_text)
}

// The front of a stream's own line: its stages, a space behind each.
pub fn stages_line(s: Stream) -> Line
    ensures { result ≡ puts (holding []) (stages_text s) }
{
    stages_text(line::blank(), s)
}

// The rest of it, without the newline: the deadline and the event limit.
pub fn limit_line(s: Stream) -> Line
    ensures { result ≡ puts (holding []) (limit_text s) }
{
    let deadline = line::one(line::blank(), b"deadline", u64::from(s.deadline));
    tuples_text(deadline, s)
}
