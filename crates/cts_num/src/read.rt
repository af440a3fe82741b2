//! Decimal text read as a number.

ghost use Rattle.std.specs.Prelude.{◌≡◌, ◌≢◌, ◌↔◌, ℕ, ◌+◌, ◌-◌, ◌*◌, ◌^◌, ◌<◌, ◌≤◌, min, length, take, slice_index, OnOk, IfErr, MatchResult};
ghost use Rattle.std.specs.Char.{IsAsciiDigit};
ghost use Rattle.cts_num.specs.Number.{digit_number};
ghost use Rattle.cts_num.specs.Reading.{IsDecimal, IsEmptyDecimal, IsFirstBadByte, IsFirstTooFine, IsReading, IsTailFault, front_size, reading_of};

use crate::powers::POWERS_OF_TEN;
use crate::runs::run_number;
use thiserror::Error;

/// Why a text is not read as a number. A place counts the bytes of the text from 0, the point
/// included.
#[derive(Clone, Copy, Debug, PartialEq, Error)]
pub enum DecimalFault {
    /// The text has no byte, or is one point.
    #[error("a number without digits")]
    Empty,
    /// The first byte that is neither a digit nor the first point.
    #[error("a bad byte in a number at {at}")]
    BadByte { at: usize },
    /// The first digit past the places that is not 0.
    #[error("a number too fine at {at}")]
    TooFine { at: usize },
    /// The value is 10^18 units or more.
    #[error("a number too great")]
    TooGreat,
}

// The least number that is too great.
const LIMIT: u64 = 1_000_000_000_000_000_000;

/// The value of a decimal text in units of 10^-`places`, below 10^18.
///
/// A decimal text has digits, at most one point and at least one digit, and may be of any length.
/// Leading zeros are accepted, and so are zeros past the places, `.5` and `5.`. The faults are
/// those of [`DecimalFault`], the first of them in its order.
pub fn read_decimal(text: &[u8], places: u32) -> Result<u64, DecimalFault>
    requires { places ≤ 16 }
    ensures reading { IsReading text.now places result }
    ensures same { result ≡ reading_of text.now places }
    ensures ok { (value : ℕ)
        → (result ≡ Ok value) ↔ (IsDecimal text.now places value × (value < 10 ^ 18)) }
    ensures empty { (result ≡ Err DecimalFault.Empty) ↔ IsEmptyDecimal text.now }
    ensures bad_byte { (at : ℕ)
        → (result ≡ Err (DecimalFault.BadByte at)) ↔ IsFirstBadByte text.now at }
    ensures too_fine { (at : ℕ)
        → (result ≡ Err (DecimalFault.TooFine at)) ↔ IsFirstTooFine text.now places at }
    ensures too_great { (result ≡ Err DecimalFault.TooGreat)
        ↔ ((value : ℕ) × IsDecimal text.now places value × (10 ^ 18 ≤ value)) }
{
    read_any(text, places as usize)
}

/// The number in front of a text in units of 10^-`places`, as [`read_decimal`] reads it, and how many
/// bytes it takes: the digits in front, and where a point follows them the point and the digits after
/// it, at most as many as there are places. A text without a digit in front has an empty number.
#[inline]
pub fn read_front(text: &[u8], places: u32) -> (Result<u64, DecimalFault>, usize)
    requires { places ≤ 16 }
    ensures size { result.1 ≡ front_size places text.now }
    ensures within { result.1 ≤ length text.now }
    ensures reading { result.0 ≡ reading_of (take result.1 text.now) places }
{
    let places = places as usize;
    let (whole, point) = read_digits(text, 0, text.len(), 0);
    if point == 0 {
        return (Err(DecimalFault::Empty), 0);
    }
    if point == text.len() || text[point] != b'.' {
        return (scaled(whole, places), point);
    }
    let end = text.len().min(point + 1 + places);
    let (number, kept) = read_digits(text, point + 1, end, whole);
    (scaled(number, places - (kept - point - 1)), kept)
}

/// As [`read_front`], for a number that may have many digits after its point: four to fifteen of them are read at once.
#[inline(always)]
pub fn read_long_front(text: &[u8], places: u32) -> (Result<u64, DecimalFault>, usize)
    requires { places ≤ 16 }
    ensures size { result.1 ≡ front_size places text.now }
    ensures within { result.1 ≤ length text.now }
    ensures reading { result.0 ≡ reading_of (take result.1 text.now) places }
{
    let places = places as usize;
    let (front, point) = read_digits(text, 0, text.len(), 0);
    if point == 0 {
        return (Err(DecimalFault::Empty), 0);
    }
    if point == text.len() || text[point] != b'.' {
        return (scaled(front, places), point);
    }
    let end = text.len().min(point + 1 + places);
    let (number, kept) = read_fraction(text, point + 1, end, front);
    (scaled(number, places - (kept - point - 1)), kept)
}

fn read_any(text: &[u8], places: usize) -> Result<u64, DecimalFault>
    requires { places ≤ 16 }
    ensures { IsReading text.now places result }
{
    match text {
        [] | [b'.'] => Err(DecimalFault::Empty),
        _ => read_some(text, places),
    }
}

fn read_some(text: &[u8], places: usize) -> Result<u64, DecimalFault>
    requires places { places ≤ 16 }
    requires some { 0 < length text.now }
    requires not_point { length text.now ≡ 1 → slice_index text.now 0 ≢ 46 }
    ensures { IsReading text.now places result }
{
    let (whole, point) = read_digits(text, 0, text.len(), 0);
    if point == text.len() {
        return scaled(whole, places);
    }
    if text[point] != b'.' {
        return Err(DecimalFault::BadByte { at: point });
    }
    let end = text.len().min(point + 1 + places);
    let (number, kept) = read_digits(text, point + 1, end, whole);
    if kept < end {
        return Err(DecimalFault::BadByte { at: kept });
    }
    check_tail(text, kept)?;
    scaled(number, places - (kept - point - 1))
}

// Reads digits from `from` to before `to` after those of the number `front`, and returns where they
// end. A number of `LIMIT` or more stays at `LIMIT`, since a text may be long.
fn read_digits(text: &[u8], from: usize, to: usize, front: u64) -> (u64, usize)
    requires from { from ≤ to }
    requires to { to ≤ length text.now }
    requires front { front ≡ min (digit_number (take from text.now)) LIMIT }
    ensures from { from ≤ result.1 }
    ensures to { result.1 ≤ to }
    ensures digits { (k : ℕ) → from ≤ k → k < result.1 → IsAsciiDigit (slice_index text.now k) }
    ensures stop { result.1 < to → ¬ IsAsciiDigit (slice_index text.now result.1) }
    ensures number { result.0 ≡ min (digit_number (take result.1 text.now)) LIMIT }
{
    let mut number = front;
    let mut at = from;
    while at < to && text[at].is_ascii_digit() {
        if number >= LIMIT / 10 {
            return (LIMIT, digits_end(text, at + 1, to));
        }
        number = number * 10 + u64::from(text[at] - b'0');
        at += 1;
    }
    (number, at)
}

// As `read_digits`. A run of many digits is read at once, where its number can't reach `LIMIT`.
#[inline(always)]
fn read_fraction(text: &[u8], from: usize, to: usize, front: u64) -> (u64, usize)
    requires from { from ≤ to }
    requires to { to ≤ length text.now }
    requires front { front ≡ min (digit_number (take from text.now)) LIMIT }
    ensures from { from ≤ result.1 }
    ensures to { result.1 ≤ to }
    ensures digits { (k : ℕ) → from ≤ k → k < result.1 → IsAsciiDigit (slice_index text.now k) }
    ensures stop { result.1 < to → ¬ IsAsciiDigit (slice_index text.now result.1) }
    ensures number { result.0 ≡ min (digit_number (take result.1 text.now)) LIMIT }
{
    let count = to - from;
    if count >= 4 && count < 16 && front < 1000 {
        if let Some(number) = run_number(text, from, to) {
            return (front * POWERS_OF_TEN[count] + number, to);
        }
    }
    read_digits(text, from, to, front)
}

// Where the digits from `from` to before `to` end.
fn digits_end(text: &[u8], from: usize, to: usize) -> usize
    requires from { from ≤ to }
    requires to { to ≤ length text.now }
    ensures from { from ≤ result }
    ensures to { result ≤ to }
    ensures digits { (k : ℕ) → from ≤ k → k < result → IsAsciiDigit (slice_index text.now k) }
    ensures stop { result < to → ¬ IsAsciiDigit (slice_index text.now result) }
{
    let mut at = from;
    while at < to && text[at].is_ascii_digit() {
        at += 1;
    }
    at
}

// Past the places only zeros may follow.
fn check_tail(text: &[u8], from: usize) -> Result<(), DecimalFault>
    requires { from ≤ length text.now }
    ensures zeros { OnOk result
        ((k : ℕ) → from ≤ k → k < length text.now → slice_index text.now k ≡ 48) }
    ensures fault { IfErr result (IsTailFault text.now from) }
{
    let mut fine = from;
    while fine < text.len() && text[fine] == b'0' {
        fine += 1;
    }
    let bad = digits_end(text, fine, text.len());
    if bad < text.len() {
        Err(DecimalFault::BadByte { at: bad })
    } else if fine < text.len() {
        Err(DecimalFault::TooFine { at: fine })
    } else {
        Ok(())
    }
}

// `number` with `zeros` more places.
fn scaled(number: u64, zeros: usize) -> Result<u64, DecimalFault>
    requires number { number ≤ LIMIT }
    requires zeros { zeros ≤ 16 }
    ensures { MatchResult result
        (λ value. (value ≡ number * 10 ^ zeros) × (value < LIMIT))
        (λ fault. (fault ≡ DecimalFault.TooGreat) × (LIMIT ≤ number * 10 ^ zeros)) }
{
    let value = u128::from(number) * u128::from(POWERS_OF_TEN[zeros]);
    if value < u128::from(LIMIT) {
        Ok(value as u64)
    } else {
        Err(DecimalFault::TooGreat)
    }
}
