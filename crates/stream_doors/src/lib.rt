// The doors of streams: which one a stream has, when it is shut, and what is left to wait after an accepted post and after a unit.
#![tactic(auto)]

ghost use Rattle.std.specs.Prelude.{◌≡◌, leb};
ghost use Rattle.rules.specs.Doors.{door_of, shut, wait_after, wait_later, most_wait};

use rules::{Door, Stream, Tuple};

// ---- which one

// The door of a stream, by its one or two tuples; with none or more it has no door.
#[tactic(auto, unfolding(rules::specs::Doors::door_of))]
pub fn door_of(s: &Stream) -> Door
    ensures { result ≡ door_of s.now }
{
    match (s.count, s.tuples[0].tuple, s.tuples[1].tuple) {
        (1, Tuple::Once(_), _) => Door::Single,
        (1, Tuple::Every(z, _), _) => Door::Spaced(z, z),
        (2, Tuple::Once(_), Tuple::Every(z, a)) => Door::Spaced(z, a),
        _ => Door::Unguarded,
    }
}

// ---- its wait

// Does the wait refuse a post?
#[tactic(auto, unfolding(rules::specs::Doors::shut))]
pub fn is_shut(d: Door, wait: u32) -> bool
    ensures { result ≡ shut d wait }
{
    match d {
        Door::Unguarded => false,
        Door::Single => 0 < wait,
        Door::Spaced(z, a) => z.saturating_sub(a) < wait,
    }
}

// The wait after an accepted post. A sum of two 32-bit numbers has more bits.
#[tactic(auto, unfolding(rules::specs::Doors::wait_after))]
pub fn wait_after(d: Door, wait: u32) -> u64
    ensures { result ≡ wait_after d wait }
{
    match d {
        Door::Unguarded => u64::from(wait),
        Door::Single => 1,
        Door::Spaced(z, a) => u64::from(wait) + u64::from(z.max(a)),
    }
}

// The most that a wait can be.
#[tactic(auto, unfolding(rules::specs::Doors::most_wait))]
fn most_wait(d: Door) -> u64
    ensures { result ≡ most_wait d }
{
    match d {
        Door::Unguarded => 0,
        Door::Single => 1,
        Door::Spaced(z, a) => u64::from(z.saturating_sub(a)) + u64::from(z.max(a)),
    }
}

// Is a wait at most what the door allows?
pub fn may_wait(d: Door, wait: u32) -> bool
    ensures { result ≡ leb wait (most_wait d) }
{
    u64::from(wait) <= most_wait(d)
}

// The wait after a unit that moved the clock.
#[tactic(auto, unfolding(rules::specs::Doors::wait_later))]
pub fn wait_later(d: Door, wait: u32) -> u32
    ensures { result ≡ wait_later d wait }
{
    match d {
        Door::Unguarded | Door::Single => wait,
        Door::Spaced(_, _) => wait.saturating_sub(1),
    }
}
