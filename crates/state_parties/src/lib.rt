// Whose the pending messages are, and whether each party keeps to its places.
#![tactic(auto)]

ghost use Rattle.std.specs.Prelude.{◌≡◌, leb, drop, length};
ghost use Rattle.std.specs.List.{list_all};
ghost use Rattle.rules.specs.Parties.{owns, together, owner_unused, owners_for, all_ours, all_places};
ghost use Rattle.rules.specs.declared.Party.TheVariants.{Theirs};
ghost use Rattle.state_parties.specs.Shares.{held_in, place_left, shared_of};

use rules::{Message, Party, Places};

// ---- one stream

// Is a stream theirs, by its number? A number that no stream has counts as ours.
#[tactic(auto, unfolding(rules::specs::Parties::same))]
fn is_theirs(owners: &[Party; 16], stream: usize) -> bool
    ensures { result ≡ owns owners.now Theirs stream }
{
    matches!(owners.get(stream), Some(Party::Theirs))
}

// ---- all of them

// How many of the pending messages each party has.
#[derive(Clone, Copy)]
pub struct Held {
    pub ours: usize,
    pub theirs: usize,
}

// How many of these messages each party has.
pub fn counted(pending: &[Message], owners: &[Party; 16]) -> Held
    ensures { result ≡ held_in owners.now pending.now }
{
    let theirs = pending
        .iter()
        .filter(|m| is_theirs(owners, m.stream))
        .count();
    Held {
        ours: pending.len() - theirs,
        theirs,
    }
}

// What is behind the first n streams is ours.
#[tactic(auto, unfolding(rules::specs::Parties::same, rules::specs::Parties::owner_unused))]
fn rest_ours(owners: &[Party; 16], n: usize) -> bool
    ensures { result ≡ list_all owner_unused (drop n owners.now) }
{
    owners.iter().skip(n).all(|o| matches!(o, Party::Ours))
}

pub fn places_fit(places: Places) -> bool
    ensures { result ≡ leb (together places) 64 }
{
    u64::from(places.ours) + u64::from(places.theirs) <= 64
}

// How many of the pending messages each party has, as an error where the parties' rules are not kept: the places together are at most 64, what a set of so
// many streams does not use is ours, and neither party has more pending than its number.
pub fn share(
    pending: &[Message],
    owners: &[Party; 16],
    streams: usize,
    places: Places,
) -> Result<Held, Held>
    ensures { result ≡ shared_of pending.now owners.now streams places }
{
    let held = counted(pending, owners);
    let fits = places_fit(places)
        && rest_ours(owners, streams)
        && held.ours <= places.ours as usize
        && held.theirs <= places.theirs as usize;
    if fits { Ok(held) } else { Err(held) }
}

// ---- a start

// The owners of a set's n streams: what it does not have is ours.
pub fn owners_for(n: usize, given: [Party; 16]) -> [Party; 16]
    ensures { result ≡ owners_for n given }
{
    let mut owners = given;
    owners[n.min(16)..].fill(Party::Ours);
    owners
}

pub fn all_ours() -> [Party; 16]
    ensures { result ≡ all_ours }
{
    [Party::Ours; 16]
}

pub fn all_places() -> Places
    ensures { result ≡ all_places }
{
    Places {
        ours: 64,
        theirs: 0,
    }
}

// ---- a post

// Has an owner a place left?
pub fn has_place(owner: Party, held: Held, places: Places) -> bool
    ensures { result ≡ place_left owner held places }
{
    match owner {
        Party::Ours => held.ours < places.ours as usize,
        Party::Theirs => held.theirs < places.theirs as usize,
    }
}
