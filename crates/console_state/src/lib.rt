// The console's commands that change the state, or what a start uses: what each leaves of them, and what it prints.
#![tactic(auto)]

ghost use Rattle.std.specs.Prelude.{◌≡◌, set};
ghost use Rattle.ascii.specs.Decimal.{letters};
ghost use Rattle.line.specs.Line.{holding};
ghost use Rattle.answer_words.specs.Words.{line_of};
ghost use Rattle.console_state.specs.StateCommands.{clock_put, pending_put, message_put, staged_put, door_put, owner_of, first_terms, started, posted, ran, state_after, terms_after, state_line};

use console_names::{NUMBERS, StateCommand};
use line::Line;
use rules::{Message, Party, Places, PostResult, Set, StartResult, State, UnitResult};

// What a start uses beside the set: whose each stream is, and the parties' places.
#[derive(Clone, Copy)]
pub struct Terms {
    pub owners: [Party; 16],
    pub places: Places,
}

// The state after a command, what a start then uses, and the line that is printed.
#[derive(Clone, Copy)]
pub struct StateAfter {
    pub state: State,
    pub terms: Terms,
    pub line: Line,
}

// What a start uses at first.
pub fn first() -> Terms
    ensures { result ≡ first_terms }
{
    Terms {
        owners: state_parties::all_ours(),
        places: state_parties::all_places(),
    }
}

// ---- what is put into the state; a place that there is not stays out

fn put_clock(s: State, n: u32) -> State
    ensures { result ≡ clock_put s n }
{
    State { clock: n, ..s }
}

fn put_pending(s: State, n: usize) -> State
    ensures { result ≡ pending_put s n }
{
    State { count: n, ..s }
}

fn put_message(s: State, i: usize, stream: usize, deadline: u32, used: u32) -> State
    ensures { result ≡ message_put s i stream deadline used }
{
    let mut next = s;
    console_names::place(
        &mut next.messages,
        i,
        Message {
            stream,
            deadline,
            used,
            stage: 0,
        },
    );
    next
}

fn put_staged(s: State, i: usize, n: usize) -> State
    ensures { result ≡ staged_put s i n }
{
    let mut next = s;
    if i < next.messages.len() {
        next.messages[i].stage = n;
    }
    next
}

fn put_door(s: State, i: usize, n: u32) -> State
    ensures { result ≡ door_put s i n }
{
    let mut next = s;
    console_names::place(&mut next.waits, i, n);
    next
}

// ---- whose the streams are

// kept: the new form is no plainer, for a From of another crate's type cannot stand here.
fn owner_of(n: u32) -> Party
    ensures { result ≡ owner_of n }
{
    if n == 0 { Party::Ours } else { Party::Theirs }
}

// The owners with this party in place i.
fn put_owner(owners: [Party; 16], i: usize, n: u32) -> [Party; 16]
    ensures { result ≡ set owners i (owner_of n) }
{
    let mut next = owners;
    console_names::place(&mut next, i, owner_of(n));
    next
}

// ---- every command

fn put(s: State, t: Terms) -> StateAfter
    ensures { result ≡ record { state = s; terms = t; line = holding (line_of (letters "put")) } }
{
    StateAfter {
        state: s,
        terms: t,
        line: console_words::put_line(),
    }
}

#[tactic(auto, unfolding(crate::specs::StateCommands::started))]
fn start(x: Set, t: Terms) -> StateAfter
    ensures { result ≡ started x t }
{
    let StartResult { answer, state } = scheduler::start_for(x, t.owners, t.places);
    StateAfter {
        state,
        terms: t,
        line: console_words::start_line(answer),
    }
}

#[tactic(auto, unfolding(crate::specs::StateCommands::posted))]
fn post(s: State, t: Terms, k: u32) -> StateAfter
    ensures { result ≡ posted s t k }
{
    let PostResult { answer, state } = scheduler::post(s, k as usize);
    StateAfter {
        state,
        terms: t,
        line: answer_words::post_line(s.clock, answer),
    }
}

#[tactic(auto, unfolding(crate::specs::StateCommands::ran))]
fn unit(s: State, t: Terms, done: bool) -> StateAfter
    ensures { result ≡ ran s t done }
{
    let UnitResult { answer, state } = scheduler::unit(s, done);
    StateAfter {
        state,
        terms: t,
        line: answer_words::unit_line(s.clock, answer),
    }
}

// A command with its numbers, where the console holds the set x, the state s and the terms t.
#[tactic(auto, unfolding(crate::specs::StateCommands::started, crate::specs::StateCommands::posted, crate::specs::StateCommands::ran))]
pub fn after(x: Set, s: State, t: Terms, k: StateCommand, n: [u32; NUMBERS]) -> StateAfter
    ensures { result ≡ record { state = state_after k n x t s; terms = terms_after k n t; line = holding (state_line k n x t s) } }
{
    let i = n[0] as usize;
    let j = n[1] as usize;
    let places = Places {
        ours: n[0],
        theirs: n[1],
    };
    match k {
        StateCommand::Start => start(x, t),
        StateCommand::Clock => put(put_clock(s, n[0]), t),
        StateCommand::Pending => put(put_pending(s, i), t),
        StateCommand::Message => put(put_message(s, i, j, n[2], n[3]), t),
        StateCommand::Post => post(s, t, n[0]),
        StateCommand::Unit => unit(s, t, false),
        StateCommand::Done => unit(s, t, true),
        StateCommand::Staged => put(put_staged(s, i, j), t),
        StateCommand::Door => put(put_door(s, i, n[1]), t),
        StateCommand::Owner => {
            let owners = put_owner(t.owners, i, n[1]);
            put(s, Terms { owners, ..t })
        }
        StateCommand::Places => put(s, Terms { places, ..t }),
        StateCommand::Owns => {
            let owners = put_owner(s.owners, i, n[1]);
            put(State { owners, ..s }, t)
        }
        StateCommand::Room => put(State { places, ..s }, t),
    }
}
