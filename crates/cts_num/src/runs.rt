//! Runs of four to sixteen digits, by vectors: one digit in a byte, then two in a lane, then four.

ghost use Rattle.std.specs.Prelude.{◌≡◌, ℕ, ◌+◌, ◌-◌, ◌*◌, ◌/◌, ◌%◌, ◌^◌, ◌<◌, ◌≤◌, ◌++◌, [], ◌∷◌, map, length, replicate, take, slice_index, IfSome, IsTrue};
ghost use Rattle.std.specs.Char.{IsAsciiDigit};
ghost use Rattle.std.specs.Int.Digits.{AllBelowBase};
ghost use Rattle.std.specs.Simd.Lanes.{chunk, number_l};
ghost use Rattle.cts_num.specs.Number.{digit_number};
ghost use Rattle.cts_num.specs.Runs.{coupled};

use crate::powers::POWERS_OF_TEN;
use std::simd::prelude::*;

// Four bytes `0`.
const ZEROS: u32 = 0x3030_3030;

// The first eight bytes from `from` on, and the last eight before `to`, which may be some of them.
#[inline(always)]
fn both_ends(text: &[u8], from: usize, to: usize) -> u8x16
    requires from { from + 8 ≤ to }
    requires to { to ≤ length text.now }
    ensures { result ≡ chunk from 8 text.now ++ chunk (to - 8) 8 text.now }
{
    let first = u8x8::from_slice(&text[from..]);
    let last = u8x8::from_slice(&text[to - 8..]);
    first.shuffle(last, [0, 1, 2, 3, 4, 5, 6, 7, 8, 9, 10, 11, 12, 13, 14, 15])
}

// What the bytes are worth as digits; 10 or more where a byte is none.
#[inline(always)]
fn values(bytes: u8x16) -> u8x16
    requires { length bytes ≡ 16 }
    ensures { result ≡ map (λ byte. (byte + 208) % 256) bytes }
{
    bytes - u8x16::splat(b'0')
}

// Whether all values are those of digits.
#[inline(always)]
fn are_digits(values: u8x16) -> bool
    requires { length values ≡ 16 }
    ensures { IsTrue result → AllBelowBase 10 values }
{
    values.simd_ge(u8x16::splat(10)).to_bitmask() == 0
}

// Two digits in a lane: ten times the lower byte comes to the upper one.
#[inline(always)]
fn pairs(values: u8x16) -> u16x8
    requires long { length values ≡ 16 }
    requires digits { AllBelowBase 10 values }
    ensures lanes { result ≡ coupled 10 values }
    ensures long { length result ≡ 8 }
    ensures bound { AllBelowBase 100 result }
{
    (u16x8::from_le_bytes(values) * u16x8::splat(2561)) >> 8
}

// Four digits in a lane.
#[inline(always)]
fn fours(pairs: u16x8) -> u32x4
    requires long { length pairs ≡ 8 }
    requires pairs { AllBelowBase 100 pairs }
    ensures lanes { result ≡ coupled 100 pairs }
    ensures long { length result ≡ 4 }
    ensures bound { AllBelowBase 10000 result }
{
    (u32x4::from_le_bytes(pairs.to_le_bytes()) * u32x4::splat(6_553_601)) >> 16
}

// The numbers of the first and of the last eight digits.
#[inline(always)]
fn eights(fours: u32x4) -> (u64, u64)
    requires long { length fours ≡ 4 }
    requires fours { AllBelowBase 10000 fours }
    ensures numbers { result.0 ∷ result.1 ∷ [] ≡ coupled 10000 fours }
    ensures first { result.0 < 10 ^ 8 }
    ensures last { result.1 < 10 ^ 8 }
{
    let fours = fours.to_array();
    (eight(fours[0], fours[1]), eight(fours[2], fours[3]))
}

// The number of twice four digits.
#[inline(always)]
fn eight(first: u32, last: u32) -> u64
    requires first { first < 10000 }
    requires last { last < 10000 }
    ensures number { result ≡ first * 10000 + last }
    ensures bound { result < 10 ^ 8 }
{
    u64::from(first) * 10_000 + u64::from(last)
}

// A number of at most eight digits without the last `rest` of them.
#[inline(always)]
fn leading(eight: u64, rest: usize) -> u64
    requires eight { eight < 10 ^ 8 }
    requires rest { rest ≤ 8 }
    ensures { result ≡ eight / 10 ^ rest }
{
    u64::from(eight as u32 / POWERS_OF_TEN[rest] as u32)
}

// As `both_ends` by four bytes, with zeros behind them.
#[inline(always)]
fn short_ends(text: &[u8], from: usize, to: usize) -> u8x16
    requires from { from + 4 ≤ to }
    requires to { to ≤ length text.now }
    ensures { result ≡ chunk from 4 text.now ++ chunk (to - 4) 4 text.now ++ replicate 8 48 }
{
    u32x4::from_array([word(text, from), word(text, to - 4), ZEROS, ZEROS]).to_le_bytes()
}

// Four bytes as one number, the first of them the lowest.
#[inline(always)]
fn word(text: &[u8], at: usize) -> u32
    requires { at + 4 ≤ length text.now }
    ensures { result ≡ number_l 256 (chunk at 4 text.now) }
{
    u32::from_le_bytes([text[at], text[at + 1], text[at + 2], text[at + 3]])
}

// As `run_number`, for four to eight digits.
#[inline(always)]
fn short_number(text: &[u8], from: usize, to: usize) -> Option<u64>
    requires from { from + 4 ≤ to }
    requires few { to ≤ from + 8 }
    requires to { to ≤ length text.now }
    ensures digits { IfSome result (λ _. (k : ℕ) → from ≤ k → k < to → IsAsciiDigit (slice_index text.now k)) }
    ensures number { IfSome result (λ number. digit_number (take to text.now)
        ≡ digit_number (take from text.now) * 10 ^ (to - from) + number) }
    ensures bound { IfSome result (λ number. number < 10 ^ (to - from)) }
{
    let values = values(short_ends(text, from, to));
    if !are_digits(values) {
        return None;
    }
    let fours = fours(pairs(values)).to_array();
    Some(leading(u64::from(fours[0]), 8 - (to - from)) * 10_000 + u64::from(fours[1]))
}

// As `run_number`, for eight to sixteen digits.
#[inline(always)]
fn long_number(text: &[u8], from: usize, to: usize) -> Option<u64>
    requires from { from + 8 ≤ to }
    requires few { to ≤ from + 16 }
    requires to { to ≤ length text.now }
    ensures digits { IfSome result (λ _. (k : ℕ) → from ≤ k → k < to → IsAsciiDigit (slice_index text.now k)) }
    ensures number { IfSome result (λ number. digit_number (take to text.now)
        ≡ digit_number (take from text.now) * 10 ^ (to - from) + number) }
    ensures bound { IfSome result (λ number. number < 10 ^ (to - from)) }
{
    let values = values(both_ends(text, from, to));
    if !are_digits(values) {
        return None;
    }
    let (first, last) = eights(fours(pairs(values)));
    Some(leading(first, 16 - (to - from)) * 100_000_000 + last)
}

/// The number that the bytes from `from` to before `to` write, where all are digits.
#[inline(always)]
pub fn run_number(text: &[u8], from: usize, to: usize) -> Option<u64>
    requires from { from + 4 ≤ to }
    requires few { to ≤ from + 16 }
    requires to { to ≤ length text.now }
    ensures digits { IfSome result (λ _. (k : ℕ) → from ≤ k → k < to → IsAsciiDigit (slice_index text.now k)) }
    ensures number { IfSome result (λ number. digit_number (take to text.now)
        ≡ digit_number (take from text.now) * 10 ^ (to - from) + number) }
    ensures bound { IfSome result (λ number. number < 10 ^ (to - from)) }
{
    if to - from < 8 {
        short_number(text, from, to)
    } else {
        long_number(text, from, to)
    }
}
