//! Numbers in canonical text whose whole part has few digits, read in one pass.

ghost use Rattle.std.specs.Prelude.{◌≡◌, ℕ, ◌+◌, ◌*◌, ◌/◌, ◌^◌, ◌<◌, ◌≤◌, ◌++◌, codes, length, take, slice_index, Some, IfSome};
ghost use Rattle.std.specs.Bool.{OnTrue};
ghost use Rattle.std.specs.Char.{IsAsciiDigit};
ghost use Rattle.cts_num.specs.Decimal.{fraction_text, whole_text};
ghost use Rattle.cts_num.specs.Number.{digit_number};
ghost use Rattle.cts_report_reader.specs.Reader.{IsStop, is_number_byte};
ghost use Rattle.cts_report_reader.specs.Words.{number_at};

use cts_num::POWERS_OF_TEN;

// Any number of so many digits is below 2^64.
const MOST: usize = 18;

/// A number in canonical text with so many places, and what follows it, where its whole part has at most
/// 18 digits. Other bytes are not looked into any further.
#[inline(always)]
pub fn short_number(bytes: &[u8], places: usize) -> Option<(u128, &[u8])>
    requires { places ≤ 16 }
    ensures found { IfSome result (λ found. number_at places bytes.now ≡ Some (found.0, found.1.now)) }
    ensures small { IfSome result (λ found. found.0 < 10 ^ 38) }
{
    let (whole, rest) = whole_part(bytes)?;
    let (value, rest) = with_fraction(whole, places, rest)?;
    if is_ended(rest) {
        Some((value, rest))
    } else {
        None
    }
}

// A whole number without leading zeros, and what follows it.
#[inline(always)]
fn whole_part(bytes: &[u8]) -> Option<(u64, &[u8])>
    ensures text { IfSome result (λ found. bytes.now ≡ whole_text found.0 ++ found.1.now) }
    ensures few { IfSome result (λ found. found.0 < 10 ^ 18) }
{
    let (whole, size) = digits(bytes, MOST);
    if size == 0 || (size > 1 && bytes[0] == b'0') {
        return None;
    }
    Some((whole, &bytes[size..]))
}

// The number with this whole part, where the point and so many digits follow, and what is left.
#[inline(always)]
fn with_fraction(whole: u64, places: usize, bytes: &[u8]) -> Option<(u128, &[u8])>
    requires places { places ≤ 16 }
    requires whole { whole < 10 ^ 18 }
    ensures whole { IfSome result (λ found. found.0 / 10 ^ places ≡ whole) }
    ensures text { IfSome result (λ found. bytes.now ≡ fraction_text places found.0 ++ found.1.now) }
    ensures small { IfSome result (λ found. found.0 < 10 ^ 38) }
{
    if places == 0 {
        return Some((u128::from(whole), bytes));
    }
    let rest = after_point(bytes)?;
    if rest.len() < places {
        return None;
    }
    let (text, rest) = rest.split_at(places);
    let fraction = all_digits(text)?;
    let value = u128::from(whole) * u128::from(POWERS_OF_TEN[places]) + u128::from(fraction);
    Some((value, rest))
}

// What follows a point.
#[inline(always)]
fn after_point(bytes: &[u8]) -> Option<&[u8]>
    ensures { IfSome result (λ rest. bytes.now ≡ codes "." ++ rest.now) }
{
    match bytes {
        [b'.', rest @ ..] => Some(rest),
        _ => None,
    }
}

// The number of a text of digits alone. Its length is known where the places are, so that no loop is left.
#[inline(always)]
fn all_digits(text: &[u8]) -> Option<u64>
    requires { length text.now ≤ 16 }
    ensures digits { IfSome result (λ _. (k : ℕ) → k < length text.now → IsAsciiDigit (slice_index text.now k)) }
    ensures number { IfSome result (λ number. number ≡ digit_number text.now) }
    ensures small { IfSome result (λ number. number < 10 ^ length text.now) }
{
    let mut number = 0;
    for byte in text {
        if !byte.is_ascii_digit() {
            return None;
        }
        number = number * 10 + u64::from(*byte - b'0');
    }
    Some(number)
}

// The number of the digits in front, at most so many, and how many they are.
#[inline(always)]
fn digits(bytes: &[u8], most: usize) -> (u64, usize)
    requires { most ≤ 18 }
    ensures inside { result.1 ≤ length bytes.now }
    ensures few { result.1 ≤ most }
    ensures digits { (k : ℕ) → k < result.1 → IsAsciiDigit (slice_index bytes.now k) }
    ensures number { result.0 ≡ digit_number (take result.1 bytes.now) }
    ensures small { result.0 < 10 ^ result.1 }
{
    let end = bytes.len().min(most);
    let mut number = 0;
    let mut size = 0;
    while size < end && bytes[size].is_ascii_digit() {
        number = number * 10 + u64::from(bytes[size] - b'0');
        size += 1;
    }
    (number, size)
}

// Whether no number goes on here.
#[inline(always)]
fn is_ended(bytes: &[u8]) -> bool
    ensures { OnTrue result (IsStop bytes.now) }
{
    match bytes {
        [] => true,
        [byte, ..] => !is_number_byte(*byte),
    }
}

/// Whether a number is written with this byte, among others.
pub fn is_number_byte(byte: u8) -> bool
    ensures { result ≡ is_number_byte byte }
{
    byte.is_ascii_digit() || byte == b'.'
}
