// What a line of the console asks for.
#![tactic(auto)]

ghost use Rattle.std.specs.Prelude.{◌≡◌, ◌∷◌, [], ◌==◌, length};
ghost use Rattle.std.specs.List.{list_all, position};
ghost use Rattle.std.specs.Option.{option_map};
ghost use Rattle.ascii.specs.Hex.{is_hex};
ghost use Rattle.console_names.specs.Rows.{wanted};
ghost use Rattle.console_parse.specs.Bytes.{front, is_hex_text, is_steps};
ghost use Rattle.console_parse.specs.Scan.{number_of, next_of, step_byte};
ghost use Rattle.console_parse.specs.Lines.{asked, is_text, text_ok, order_of, order_at};

use console_names::{Command, NUMBERS, Row, Text};

// The bytes of the longest line that can be a command.
pub const LONGEST: usize = 4096;

// A command with its numbers, zeros behind them, and where its text starts in the line: at the line's end where it has none.
#[derive(Clone, Copy)]
pub struct Order {
    pub command: Command,
    pub numbers: [u32; NUMBERS],
    pub text: usize,
}

fn first_space(rest: &[u8]) -> Option<usize>
    ensures { result ≡ position (λ b. b == 32) rest.now }
{
    rest.iter().position(|b| *b == b' ')
}

// How long the word at the front is: up to the first space, or to the line's end.
fn word_len(rest: &[u8]) -> usize
    ensures { result ≡ length (front rest.now) }
{
    first_space(rest).unwrap_or(rest.len())
}

fn number_of(w: &[u8], most: u32) -> Option<u32>
    ensures { result ≡ number_of most w.now }
{
    if w.is_empty() {
        return None;
    }
    if 10 < w.len() {
        return None;
    }
    let mut n: u64 = 0;
    for b in w {
        if !ascii::is_digit(*b) {
            return None;
        }
        n = n * 10 + ascii::digit_of(*b);
        if u64::from(u32::MAX) < n {
            return None;
        }
    }
    if n <= u64::from(most) {
        Some(n as u32)
    } else {
        None
    }
}

// The number behind a space, and what is left behind it.
fn next_number(rest: &[u8], most: u32) -> Option<(u32, &[u8])>
    ensures { option_map (λ p. (p.0, p.1.now)) result ≡ next_of most rest.now }
{
    let (first, behind) = rest.split_first()?;
    if *first != b' ' {
        return None;
    }
    let (word, left) = behind.split_at(word_len(behind));
    let n = number_of(word, most)?;
    Some((n, left))
}

// A command with no numbers in a line of this length.
fn bare(command: Command, size: usize) -> Order
    ensures { result ≡ order_at command [] size }
{
    Order {
        command,
        numbers: [0; NUMBERS],
        text: size,
    }
}

// The numbers that a row asks for, in what stands behind the command's name in a line of this length.
fn numbers(size: usize, behind: &[u8], r: Row) -> Order
    ensures { result ≡ asked size (wanted r) behind.now }
{
    let mut numbers = [0; NUMBERS];
    let mut rest = behind;
    for k in 0..r.most.len().min(NUMBERS) {
        let Some((n, left)) = next_number(rest, r.most[k]) else {
            return bare(Command::Unknown, size);
        };
        numbers[k] = n;
        rest = left;
    }
    // Behind the last number stands the command's text, and nothing else.
    if text_behind(rest, r.text) {
        Order {
            command: r.command,
            numbers,
            text: size.saturating_sub(rest.len().saturating_sub(1)),
        }
    } else {
        bare(Command::Unknown, size)
    }
}

// The text behind the numbers, behind its space; an empty one leaves its space out as well.
fn text_behind(rest: &[u8], text: Option<Text>) -> bool
    ensures { result ≡ text_ok text rest.now }
{
    match rest.split_first() {
        None => true,
        Some((first, behind)) => { *first == b' ' && !behind.is_empty() && is_text(behind, text) }
    }
}

fn is_text(w: &[u8], text: Option<Text>) -> bool
    ensures { result ≡ is_text text w.now }
{
    match text {
        None => false,
        Some(Text::Hex) => is_hex_text(w),
        Some(Text::Steps) => is_steps(w),
    }
}

fn all_hex(w: &[u8]) -> bool
    ensures { result ≡ list_all is_hex w.now }
{
    w.iter().all(|b| ascii::is_hex(*b))
}

#[tactic(auto, unfolding(crate::specs::Bytes::is_hex_text))]
fn is_hex_text(w: &[u8]) -> bool
    ensures { result ≡ is_hex_text w.now }
{
    w.len() % 2 == 0 && all_hex(w)
}

// A byte of a trace; a p may wait for its digit.
fn is_step_byte(waiting: bool, b: u8) -> bool
    ensures { result ≡ step_byte waiting b }
{
    if waiting {
        ascii::is_hex(b)
    } else {
        matches!(b, b'p' | b'u' | b'd')
    }
}

fn is_steps(w: &[u8]) -> bool
    ensures { result ≡ is_steps w.now }
{
    let mut waiting = false;
    for b in w {
        if !is_step_byte(waiting, *b) {
            return false;
        }
        waiting = !waiting & (*b == b'p');
    }
    !waiting
}

// The command of a line.
pub fn parse(line: &[u8]) -> Order
    ensures { result ≡ order_of line.now }
{
    if line.is_empty() {
        return bare(Command::Nothing, 0);
    }
    if LONGEST < line.len() {
        return bare(Command::Unknown, line.len());
    }
    let (name, behind) = line.split_at(word_len(line));
    numbers(line.len(), behind, console_names::row_of(name))
}
