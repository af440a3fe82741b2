//! Numbers written as decimal text over the front of a slice, from the first digit to the last.

ghost use Rattle.std.specs.Prelude.{◌≡◌, ◌+◌, ◌/◌, ◌%◌, ◌^◌, ◌<◌, ◌≤◌, ◌++◌, length, take, IfSome};
ghost use Rattle.cts_num.specs.Decimal.{decimal_text, fraction_text, whole_text};

use crate::powers::POWERS_OF_TEN;
use crate::write::{CHUNK, decimal, split, write_low, write_pair};

// A whole part below this one has at most eight digits.
const SHORT: u64 = 100_000_000;

/// Writes the canonical decimal text of `value`, which counts units of 10^-`places`, over the front of
/// `text`, and returns how many bytes it takes. The bytes behind them are any bytes afterwards.
#[inline(always)]
pub fn write_decimal(value: u128, places: u32, text: &mut [u8]) -> usize
    requires value { value < 10 ^ 38 }
    requires places { places ≤ 16 }
    requires room { 39 ≤ length text.old }
    ensures size { result ≡ length (decimal_text places value) }
    ensures short { result ≤ 39 }
    ensures written { take result text.new ≡ decimal_text places value }
{
    match short_parts(value, places as usize) {
        Some((whole, low)) => {
            let point = write_short(whole, text);
            write_point(low, places as usize, text, point)
        }
        None => write_long(value, places, text),
    }
}

// The whole part, where it has at most eight digits, and a number that ends with the digits of the
// fraction.
#[inline(always)]
fn short_parts(value: u128, places: usize) -> Option<(u64, u64)>
    requires { places ≤ 16 }
    ensures { IfSome result (λ parts. (parts.0 ≡ value / 10 ^ places)
        × (parts.1 % 10 ^ places ≡ value % 10 ^ places) × (parts.0 < 10 ^ 8)) }
{
    if value <= u128::from(u64::MAX) {
        let number = value as u64;
        let whole = number / POWERS_OF_TEN[places];
        if whole < SHORT {
            return Some((whole, number));
        }
    } else if places == CHUNK {
        let (whole, low) = split(value);
        if whole < u128::from(SHORT) {
            return Some((whole as u64, low));
        }
    }
    None
}

// As `write_decimal`, for any number.
#[cold]
#[inline(never)]
fn write_long(value: u128, places: u32, text: &mut [u8]) -> usize
    requires value { value < 10 ^ 38 }
    requires places { places ≤ 16 }
    requires room { 39 ≤ length text.old }
    ensures size { result ≡ length (decimal_text places value) }
    ensures short { result ≤ 39 }
    ensures written { take result text.new ≡ decimal_text places value }
{
    let digits = decimal(value, places);
    let bytes = digits.bytes();
    text[..bytes.len()].copy_from_slice(bytes);
    bytes.len()
}

// Writes a whole number, and returns how many digits it has.
#[inline(always)]
fn write_short(number: u64, text: &mut [u8]) -> usize
    requires number { number < 10 ^ 8 }
    requires room { 8 ≤ length text.old }
    ensures size { result ≡ length (whole_text number) }
    ensures short { result ≤ 8 }
    ensures written { take result text.new ≡ whole_text number }
{
    if number < 10_000 {
        return write_four(number, text);
    }
    let end = write_four(number / 10_000, text) + 4;
    write_low(number, 4, text, end);
    end
}

// As `write_short`, for at most four digits.
#[inline(always)]
fn write_four(number: u64, text: &mut [u8]) -> usize
    requires number { number < 10 ^ 4 }
    requires room { 4 ≤ length text.old }
    ensures size { result ≡ length (whole_text number) }
    ensures short { result ≤ 4 }
    ensures written { take result text.new ≡ whole_text number }
{
    if number < 100 {
        return write_two(number, text);
    }
    let at = write_two(number / 100, text);
    write_pair(number % 100, text, at);
    at + 2
}

// As `write_short`, for one or two digits.
#[inline(always)]
fn write_two(number: u64, text: &mut [u8]) -> usize
    requires number { number < 100 }
    requires room { 2 ≤ length text.old }
    ensures size { result ≡ length (whole_text number) }
    ensures short { result ≤ 2 }
    ensures written { take result text.new ≡ whole_text number }
{
    if number < 10 {
        text[0] = b'0' + number as u8;
        1
    } else {
        write_pair(number, text, 0);
        2
    }
}

// Writes the point and the fraction behind the first `at` bytes, and returns where they end.
#[inline(always)]
fn write_point(number: u64, places: usize, text: &mut [u8], at: usize) -> usize
    requires places { places ≤ 16 }
    requires room { at + 17 ≤ length text.old }
    ensures size { result ≡ at + length (fraction_text places number) }
    ensures short { result ≤ at + 17 }
    ensures written { take result text.new ≡ take at text.old ++ fraction_text places number }
{
    if places == 0 {
        return at;
    }
    text[at] = b'.';
    let end = at + 1 + places;
    write_low(number, places, text, end);
    end
}
