// What a byte of a trace asks for.
#![tactic(auto)]

ghost use Rattle.std.specs.Prelude.{◌≡◌};
ghost use Rattle.trace_bytes.specs.Steps.{between_steps, after_p, heard_of, end_of};

use rules::{Call, Refusal};

// What is asked.
#[derive(Clone, Copy)]
pub enum Heard {
    // Nothing: a space or a newline between steps.
    Skip,
    // A p: its digit has to follow.
    More,
    // A step.
    Makes(Call),
}

#[tactic(auto, unfolding(crate::specs::Steps::between_steps))]
fn between_steps(b: u8) -> Result<Heard, Refusal>
    ensures { result ≡ between_steps b }
{
    match b {
        b'p' => Ok(Heard::More),
        b'u' => Ok(Heard::Makes(Call::Units(false))),
        b'd' => Ok(Heard::Makes(Call::Units(true))),
        b' ' | b'\n' => Ok(Heard::Skip),
        _ => Err(Refusal::BadByte),
    }
}

#[tactic(auto, unfolding(crate::specs::Steps::after_p))]
fn after_p(b: u8) -> Result<Heard, Refusal>
    ensures { result ≡ after_p b }
{
    if ascii::is_hex(b) {
        Ok(Heard::Makes(Call::Posts(usize::from(ascii::hex_of(b)))))
    } else {
        Err(Refusal::BadByte)
    }
}

// A byte of a trace; a p may wait for its digit. 9 for a byte that is no step.
pub fn hear(waiting: bool, b: u8) -> Result<Heard, Refusal>
    ensures { result ≡ heard_of waiting b }
{
    if waiting {
        after_p(b)
    } else {
        between_steps(b)
    }
}

// The end of a trace. 9 where a p waits for its digit.
pub fn at_end(waiting: bool) -> Result<Heard, Refusal>
    ensures { result ≡ end_of waiting }
{
    if waiting {
        return Err(Refusal::BadByte);
    }
    Ok(Heard::Skip)
}
