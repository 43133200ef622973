// Bytes as digits and words.
#![tactic(auto)]

ghost use Rattle.std.specs.Prelude.{◌≡◌, ◌-◌, ◌%◌};
ghost use Rattle.ascii.specs.Decimal.{is_digit};
ghost use Rattle.ascii.specs.Hex.{is_hex, hex_of, hex_digit};
ghost use Rattle.ascii.specs.Same.{same as same_word};

// Whether a byte is a decimal digit, and its value; 0 for a byte before the digits.
pub fn is_digit(b: u8) -> bool
    ensures { result ≡ is_digit b }
{
    (b'0' <= b) & (b <= b'9')
}

pub fn digit_of(b: u8) -> u64
    ensures { result ≡ b - 48 }
{
    u64::from(b.saturating_sub(b'0'))
}

// Whether a byte is a lower-case hex digit, and its value; 0 to 15 for any byte.
pub fn is_hex(b: u8) -> bool
    ensures { result ≡ is_hex b }
{
    is_digit(b) || matches!(b, b'a'..=b'f')
}

pub fn hex_of(b: u8) -> u8
    ensures { result ≡ hex_of b }
{
    let first = if b <= b'9' { b'0' } else { b'a' - 10 };
    b.saturating_sub(first) % 16
}

// The hex digit of a number, of which the low four bits count.
pub fn hex_digit(n: u8) -> u8
    ensures { result ≡ hex_digit (n % 16) }
{
    let low = n % 16;
    if low <= 9 {
        b'0' + low
    } else {
        b'a' - 10 + low
    }
}

// Are two words the same?
pub fn same(v: &[u8], w: &[u8]) -> bool
    ensures { result ≡ same_word v.now w.now }
{
    v == w
}
