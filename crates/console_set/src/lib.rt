// The console's commands that change the set: what each leaves of it, and what it prints.
#![tactic(auto)]

ghost use Rattle.std.specs.Prelude.{◌≡◌};
ghost use Rattle.ascii.specs.Decimal.{letters};
ghost use Rattle.line.specs.Line.{holding};
ghost use Rattle.answer_words.specs.Words.{line_of};
ghost use Rattle.console_set.specs.SetCommands.{streams_put, version_put, with_stream, stages_put, stage_put, tuple_put, depth_of, stream_put, set_read, set_after, set_line};

use console_names::{NUMBERS, SetCommand};
use line::Line;
use rules::{Set, Stage, Stream, Tuple, TuplePlace};

// The set after a command, and the line that is printed.
#[derive(Clone, Copy)]
pub struct SetAfter {
    pub set: Set,
    pub line: Line,
}

// ---- what is put into a stream; a place that there is not stays out

fn put_stages(s: Stream, n: usize) -> Stream
    ensures { result ≡ stages_put s n }
{
    Stream { depth: n, ..s }
}

fn put_stage(s: Stream, j: usize, task: usize, cost: u32) -> Stream
    ensures { result ≡ stage_put s j task cost }
{
    let mut next = s;
    console_names::place(&mut next.stages, j, Stage { task, cost });
    next
}

fn put_tuple(s: Stream, j: usize, t: Tuple) -> Stream
    ensures { result ≡ tuple_put s j t }
{
    let mut next = s;
    console_names::place(&mut next.tuples, j, TuplePlace { tuple: t });
    next
}

// One stage, or none where all four numbers are 0.
#[tactic(auto, unfolding(crate::specs::SetCommands::depth_of))]
fn depth_of(task: usize, cost: u32, deadline: u32, count: usize) -> usize
    ensures { result ≡ depth_of task cost deadline count }
{
    if task == 0 && cost == 0 && deadline == 0 && count == 0 {
        0
    } else {
        1
    }
}

// The task and the cost go into stage place 0.
fn put_stream(s: Stream, task: usize, cost: u32, deadline: u32, count: usize) -> Stream
    ensures { result ≡ stream_put s task cost deadline count }
{
    Stream {
        depth: depth_of(task, cost, deadline, count),
        deadline,
        count,
        ..put_stage(s, 0, task, cost)
    }
}

// ---- what is put into the set; a place that there is not stays out

fn put_streams(x: Set, n: usize) -> Set
    ensures { result ≡ streams_put x n }
{
    Set { count: n, ..x }
}

fn put_version(x: Set, n: u32) -> Set
    ensures { result ≡ version_put x n }
{
    Set { version: n, ..x }
}

#[tactic(auto, unfolding(crate::specs::SetCommands::with_stream))]
fn put_at(x: Set, i: usize, s: Stream) -> Set
    ensures { result ≡ with_stream x i s }
{
    let mut next = x;
    console_names::place(&mut next.streams, i, s);
    next
}

// ---- every command

fn put(x: Set) -> SetAfter
    ensures { result ≡ record { set = x; line = holding (line_of (letters "put")) } }
{
    SetAfter {
        set: x,
        line: console_words::put_line(),
    }
}

#[tactic(auto, unfolding(crate::specs::SetCommands::set_read))]
fn read(sheet: &[u8]) -> SetAfter
    ensures { result ≡ set_read sheet.now }
{
    let r = sheet_read::read(sheet);
    SetAfter {
        set: r.set,
        line: console_words::read_line(r.answer, r.set.count),
    }
}

// A command with its numbers; `sheet` is the bytes behind `read`, and no other looks at it.
#[tactic(auto, unfolding(crate::specs::SetCommands::set_read))]
pub fn after(x: Set, k: SetCommand, n: [u32; NUMBERS], sheet: &[u8]) -> SetAfter
    ensures { result ≡ record { set = set_after k n sheet.now x; line = holding (set_line k sheet.now) } }
{
    let i = n[0] as usize;
    let j = n[1] as usize;
    let s = stream_valid::stream_at(x, i);
    match k {
        SetCommand::Read => read(sheet),
        SetCommand::Streams => put(put_streams(x, i)),
        SetCommand::Stream => put(put_at(x, i, put_stream(s, j, n[2], n[3], n[4] as usize))),
        SetCommand::Once => put(put_at(x, i, put_tuple(s, j, Tuple::Once(n[2])))),
        SetCommand::Every => put(put_at(x, i, put_tuple(s, j, Tuple::Every(n[2], n[3])))),
        SetCommand::Version => put(put_version(x, n[0])),
        SetCommand::Stages => put(put_at(x, i, put_stages(s, j))),
        SetCommand::Stage => put(put_at(x, i, put_stage(s, j, n[2] as usize, n[3]))),
    }
}
