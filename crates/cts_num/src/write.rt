//! Numbers written as decimal text, from the last digit to the first.

ghost use Rattle.std.specs.Prelude.{◌≡◌, ℕ, ◌+◌, ◌-◌, ◌/◌, ◌%◌, ◌^◌, ◌<◌, ◌≤◌, List, ◌++◌, length, take, drop};
ghost use Rattle.cts_num.specs.Decimal.{decimal_text, fraction_text, padded_text, pair_text, whole_text};

use crate::sixteen::sixteen_digits;
use std::marker::Model;

// The longest text has 38 digits and a point.
const CAPACITY: usize = 39;

// A value of two words is cut after this many digits, as many as the greatest number of places.
pub(crate) const CHUNK: usize = 16;

const CHUNK_UNIT: u64 = 10_000_000_000_000_000;

// 2^64 is `WORD_CHUNKS * CHUNK_UNIT + WORD_REST`.
const WORD_CHUNKS: u64 = 1_844;

const WORD_REST: u64 = 6_744_073_709_551_616;

// The numbers from 00 to 99.
static PAIRS: [u8; 200] =
    *b"00010203040506070809101112131415161718192021222324252627282930313233343536373839404142434445464748495051525354555657585960616263646566676869707172737475767778798081828384858687888990919293949596979899";

/// A number's decimal text, kept in a fixed array. Contracts see the list of its bytes.
#[derive(Drop)]
pub struct Digits {
    buffer: [u8; CAPACITY],
    start: usize,
}

impl Model for Digits {
    ghost Value = { List ℕ };

    ghost view = { λ digits. drop digits.start digits.buffer };

    ghost invariant = { λ digits. digits.start ≤ 39 };
}

impl Digits {
    /// The bytes of the text.
    pub fn bytes(&self) -> &[u8]
        ensures { result.now ≡ self.now }
    {
        &self.buffer[self.start..]
    }
}

/// The canonical decimal text of `value`, which counts units of 10^-`places`.
///
/// The whole part has no leading zero, except that zero is `0`. With places above 0, a point and
/// exactly that many digits follow. The text is at most 39 bytes.
#[inline(always)]
pub fn decimal(value: u128, places: u32) -> Digits
    requires value { value < 10 ^ 38 }
    requires places { places ≤ 16 }
    ensures text { result ≡ decimal_text places value }
    ensures short { length result ≤ 39 }
{
    let mut digits = Digits {
        buffer: [0; CAPACITY],
        start: CAPACITY,
    };
    digits.start = write_ending(value, places as usize, &mut digits.buffer);
    digits
}

// Writes the text so that it ends with the buffer, and returns where it starts.
#[inline(always)]
fn write_ending(value: u128, places: usize, buffer: &mut [u8]) -> usize
    requires value { value < 10 ^ 38 }
    requires places { places ≤ 16 }
    requires room { length (decimal_text places value) ≤ length buffer.old }
    ensures start { result + length (decimal_text places value) ≡ length buffer.old }
    ensures written { drop result buffer.new ≡ decimal_text places value }
{
    if value <= u128::from(u64::MAX) {
        let (whole, end) = write_fraction(value as u64, places, buffer);
        return write_word(whole, buffer, end);
    }
    let (high, low) = split(value);
    let (rest, end) = write_fraction(low, places, buffer);
    let width = CHUNK - places;
    write_low(rest, width, buffer, end);
    write_whole(high, buffer, end - width)
}

// The chunks of a value, and what is left below one. A small high word is turned into chunks and a
// rest without the slow division of two words.
#[inline(always)]
pub(crate) fn split(value: u128) -> (u128, u64)
    ensures chunks { result.0 ≡ value / 10 ^ 16 }
    ensures low { result.1 ≡ value % 10 ^ 16 }
{
    let high = value >> 64;
    if high < 1024 {
        let high = high as u64;
        let low = (value & u128::from(u64::MAX)) as u64;
        let rest = high * WORD_REST + low % CHUNK_UNIT;
        let chunks = high * WORD_CHUNKS + low / CHUNK_UNIT + rest / CHUNK_UNIT;
        (u128::from(chunks), rest % CHUNK_UNIT)
    } else {
        let unit = u128::from(CHUNK_UNIT);
        (value / unit, (value % unit) as u64)
    }
}

// Writes the point and the fraction so that they end with the buffer. Returns the whole part, and
// where its text is to end.
#[inline(always)]
fn write_fraction(number: u64, places: usize, buffer: &mut [u8]) -> (u64, usize)
    requires places { places ≤ 16 }
    requires room { length (fraction_text places number) ≤ length buffer.old }
    ensures whole { result.0 ≡ number / 10 ^ places }
    ensures end { result.1 + length (fraction_text places number) ≡ length buffer.old }
    ensures long { length buffer.new ≡ length buffer.old }
    ensures written { drop result.1 buffer.new ≡ fraction_text places number }
{
    let end = buffer.len();
    if places == 0 {
        return (number, end);
    }
    let whole = write_low(number, places, buffer, end);
    let point = end - places - 1;
    buffer[point] = b'.';
    (whole, point)
}

// Writes the digits so that they end at `end`, and returns where they start.
fn write_whole(number: u128, buffer: &mut [u8], end: usize) -> usize
    requires room { length (whole_text number) ≤ end }
    requires end { end ≤ length buffer.old }
    ensures start { result + length (whole_text number) ≡ end }
    ensures written { drop result buffer.new ≡ whole_text number ++ drop end buffer.old }
{
    let mut rest = number;
    let mut at = end;
    while rest > u128::from(u64::MAX) {
        let (chunks, low) = split(rest);
        write_low(low, CHUNK, buffer, at);
        at -= CHUNK;
        rest = chunks;
    }
    write_word(rest as u64, buffer, at)
}

// As `write_whole`, for a number of one word.
#[inline(always)]
fn write_word(number: u64, buffer: &mut [u8], end: usize) -> usize
    requires room { length (whole_text number) ≤ end }
    requires end { end ≤ length buffer.old }
    ensures start { result + length (whole_text number) ≡ end }
    ensures written { drop result buffer.new ≡ whole_text number ++ drop end buffer.old }
{
    let mut rest = number;
    let mut at = end;
    while rest >= 100 {
        at -= 2;
        write_pair(rest % 100, buffer, at);
        rest /= 100;
    }
    write_first(rest, buffer, at)
}

// As `write_whole`, for one or two digits.
#[inline(always)]
fn write_first(number: u64, buffer: &mut [u8], end: usize) -> usize
    requires small { number < 100 }
    requires room { length (whole_text number) ≤ end }
    requires end { end ≤ length buffer.old }
    ensures start { result + length (whole_text number) ≡ end }
    ensures written { drop result buffer.new ≡ whole_text number ++ drop end buffer.old }
{
    if number < 10 {
        buffer[end - 1] = b'0' + number as u8;
        end - 1
    } else {
        write_pair(number, buffer, end - 2);
        end - 2
    }
}

// Writes the last `width` digits so that they end at `end`, and returns the number before them.
#[inline(always)]
pub(crate) fn write_low(number: u64, width: usize, buffer: &mut [u8], end: usize) -> u64
    requires room { width ≤ end }
    requires end { end ≤ length buffer.old }
    ensures rest { result ≡ number / 10 ^ width }
    ensures before { take (end - width) buffer.new ≡ take (end - width) buffer.old }
    ensures written { drop (end - width) buffer.new
        ≡ padded_text width (number % 10 ^ width) ++ drop end buffer.old }
{
    let start = end - width;
    if width == CHUNK {
        buffer[start..end].copy_from_slice(&sixteen_digits(number % CHUNK_UNIT));
        return number / CHUNK_UNIT;
    }
    let mut rest = number;
    let mut at = end;
    while at - start >= 2 {
        at -= 2;
        write_pair(rest % 100, buffer, at);
        rest /= 100;
    }
    if at > start {
        buffer[start] = b'0' + (rest % 10) as u8;
        rest /= 10;
    }
    rest
}

/// Writes a number below 100 as two digits at this place of a buffer.
#[inline(always)]
pub(crate) fn write_pair(pair: u64, buffer: &mut [u8], at: usize)
    requires pair { pair < 100 }
    requires room { at + 2 ≤ length buffer.old }
    ensures before { take at buffer.new ≡ take at buffer.old }
    ensures written { drop at buffer.new ≡ pair_text pair ++ drop (at + 2) buffer.old }
{
    let from = pair as usize * 2;
    let (tens, ones) = (PAIRS[from], PAIRS[from + 1]);
    buffer[at] = tens;
    buffer[at + 1] = ones;
}
