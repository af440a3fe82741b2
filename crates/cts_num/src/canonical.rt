//! Canonical decimal text read back as a number.

ghost use Rattle.std.specs.Prelude.{◌≡◌, ◌↔◌, ℕ, ◌*◌, ◌+◌, ◌^◌, ◌<◌, ◌≤◌, MatchOption};
ghost use Rattle.cts_num.specs.Canonical.{canonical_of};
ghost use Rattle.cts_num.specs.Decimal.{decimal_text};
ghost use Rattle.cts_num.specs.Number.{digit_number};

use crate::write::decimal;

// A number below this one takes a further digit.
const LAST_FRONT: u128 = 10_000_000_000_000_000_000_000_000_000_000_000_000;

/// The number whose canonical text at `places` this is, in units of 10^-`places`. None where the text
/// is not canonical, or has more than 38 digits.
///
/// The whole part has no leading zero, except that zero is `0`. With places above 0, a point and
/// exactly that many digits follow.
pub fn read_canonical(text: &[u8], places: u32) -> Option<u128>
    requires { places ≤ 16 }
    ensures same { result ≡ canonical_of places text.now }
    ensures some { (number : ℕ) → (result ≡ Some number)
        ↔ ((text.now ≡ decimal_text places number) × (number < 10 ^ 38)) }
{
    let number = all_digits(text)?;
    if decimal(number, places).bytes() == text {
        Some(number)
    } else {
        None
    }
}

// The number of a text's digits, whatever stands between them, if it has at most 38 digits.
fn all_digits(text: &[u8]) -> Option<u128>
    ensures { MatchOption result
        (10 ^ 38 ≤ digit_number text.now)
        (λ number. (number ≡ digit_number text.now) × (number < 10 ^ 38)) }
{
    let mut number: u128 = 0;
    for byte in text {
        if byte.is_ascii_digit() {
            if number >= LAST_FRONT {
                return None;
            }
            number = number * 10 + u128::from(*byte - b'0');
        }
    }
    Some(number)
}
