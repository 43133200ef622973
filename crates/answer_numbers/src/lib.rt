// The numbers that the cab prints.
#![tactic(auto)]

ghost use Rattle.std.specs.Prelude.{◌≡◌};
ghost use Rattle.rules.specs.Numbers.{number};

use rules::Refusal;

// The number of a refusal.
pub fn refusal_number(why: Refusal) -> u64
    ensures { result ≡ number why }
{
    why as u64
}
