// The blocking of each task, and up to where it stays the same.
#![tactic(auto, using(laws::proofs::Sums::top_none, std::proofs::lemmas::List::take_all), unfolding(rules::specs::Load::has, rules::specs::Load::blocks_for))]

ghost use Rattle.std.specs.Prelude.{◌≡◌, ◌≤◌, ◌<◌};
ghost use Rattle.std.specs.List.{list_any};
ghost use Rattle.rules.specs.Valid.{ValidSet};
ghost use Rattle.rules.specs.Streams.{streams_of};
ghost use Rattle.rules.specs.Load.{has, urgent, less_one, blocks_for, blocks, blocking};
ghost use Rattle.load_check.specs.Blocked.{blockings_of, Nearer, NextDeadline};

use rules::{Set, Stage, Stream};

// ---- a stream and a task

// Is a stage of the stream on the task?
fn has_task(s: &Stream, t: usize) -> bool
    ensures { result ≡ has t s.now }
{
    stream_valid::stages_of(s).iter().any(|g| g.task == t)
}

fn is_urgent(s: &Stream, i: u32, t: usize) -> bool
    ensures { result ≡ urgent t i s.now }
{
    has_task(s, t) && s.deadline <= i
}

// c - 1 of a stage on the task, 0 of any other.
fn less_one(g: Stage, t: usize) -> u32
    ensures { result ≡ less_one t g }
{
    if g.task == t {
        g.cost.saturating_sub(1)
    } else {
        0
    }
}

// The largest c - 1 among the stream's stages on the task, 0 where there is none.
fn blocks_for(s: &Stream, t: usize) -> u32
    ensures { result ≡ blocks_for t s.now }
{
    let mut most = 0;
    for g in stream_valid::stages_of(s) {
        most = most.max(less_one(*g, t));
    }
    most
}

fn blocks_of(s: &Stream, i: u32, t: usize) -> u32
    ensures { result ≡ blocks t i s.now }
{
    if s.deadline <= i { 0 } else { blocks_for(s, t) }
}

// ---- the streams of a set

fn any_urgent(x: &Set, i: u32, t: usize) -> bool
    ensures { result ≡ list_any (urgent t i) (streams_of x.now) }
{
    stream_valid::streams_of(x)
        .iter()
        .any(|s| is_urgent(s, i, t))
}

pub(crate) fn task_blocking(x: &Set, i: u32, t: usize) -> u32
    ensures { result ≡ blocking (streams_of x.now) i t }
{
    if !any_urgent(x, i, t) {
        return 0;
    }
    let mut most = 0;
    for s in stream_valid::streams_of(x) {
        most = most.max(blocks_of(s, i, t));
    }
    most
}

// The blocking of all tasks at a length.
pub(crate) fn blockings(x: &Set, i: u32) -> u64
    requires { ValidSet x.now }
    ensures { result ≡ blockings_of (streams_of x.now) i }
{
    let mut acc = 0;
    for t in 0..16 {
        acc += u64::from(task_blocking(x, i, t));
    }
    acc
}

// The nearest so far, or the deadline d where it lies between.
fn nearer(i: u32, d: u32, nearest: u32) -> u32
    ensures { Nearer i d nearest result }
{
    if i < d { d.min(nearest) } else { nearest }
}

// The first deadline after i, or the end: up to there the blocking is that of i.
pub(crate) fn next_deadline(x: &Set, i: u32, end: u32) -> u32
    requires { i < end }
    ensures { NextDeadline (streams_of x.now) i end result }
{
    let mut nearest = end;
    for s in stream_valid::streams_of(x) {
        nearest = nearer(i, s.deadline, nearest);
    }
    nearest
}
