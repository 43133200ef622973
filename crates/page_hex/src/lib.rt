// Bytes as two hex digits each, read and printed.
#![tactic(auto)]

ghost use Rattle.std.specs.Prelude.{◌≡◌, ◌∷◌, [], ◌+◌, ◌*◌, ◌/◌, ◌%◌};
ghost use Rattle.ascii.specs.Hex.{hex_of, hex_digit, hexed};
ghost use Rattle.page.specs.Pages.{Onto};
ghost use Rattle.page_hex.specs.Unhexed.{fitting, unhexed_in};
ghost use Rattle.line.specs.Line.{holding};

use line::Line;

// The byte of two digits.
fn byte_of(a: u8, b: u8) -> u8
    ensures { result ≡ hex_of a * 16 + hex_of b }
{
    ascii::hex_of(a) * 16 + ascii::hex_of(b)
}

// The bytes that hex digits stand for, in the first places of a buffer, and how many they are. A buffer too short for all of them
// takes the first.
pub fn unhex(digits: &[u8], bytes: &mut [u8]) -> usize
    ensures { (result ≡ fitting digits.now bytes.old) × (bytes.new ≡ unhexed_in digits.now bytes.old) }
{
    let n = (digits.len() / 2).min(bytes.len());
    for k in 0..n {
        bytes[k] = byte_of(digits[2 * k], digits[2 * k + 1]);
    }
    n
}

// The two digits of a byte.
fn pair(b: u8) -> Line
    ensures { result ≡ holding (hex_digit (b / 16) ∷ hex_digit (b % 16) ∷ []) }
{
    let high = line::put(line::blank(), ascii::hex_digit(b / 16));
    line::put(high, ascii::hex_digit(b % 16))
}

// The digits of the bytes, behind the first `at` bytes of a page, and where they end; a page that has no room for all of them stays as
// it is.
pub fn print(bytes: &[u8], out: &mut [u8], at: usize) -> usize
    ensures { Onto out.old at (hexed bytes.now) result out.new }
{
    if out.len() < at {
        return at;
    }
    if (out.len() - at) / 2 < bytes.len() {
        return at;
    }
    let mut end = at;
    for b in bytes {
        end = page::append(out, end, pair(*b));
    }
    end
}
