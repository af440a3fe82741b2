//! Sixteen digits at a time, by vectors: four digits in a lane, then two, then one in a byte.

ghost use Rattle.std.specs.Prelude.{◌≡◌, ◌+◌, ◌*◌, ◌/◌, ◌%◌, ◌^◌, ◌<◌, [], ◌∷◌};
ghost use Rattle.cts_num.specs.Decimal.{padded_text};

use std::simd::prelude::*;

// Half a word for each four of eight digits, the first four in the lower half's lower half.
// 109_951_163 is 2^40 / 10_000, rounded up.
#[inline(always)]
fn halves(number: u64) -> u64
    requires { number < 10 ^ 8 }
    ensures { result ≡ number / 10000 + number % 10000 * 2 ^ 16 }
{
    (number << 16) - ((number * 109_951_163) >> 40) * ((10_000 << 16) - 1)
}

// Four digits in a lane.
#[inline(always)]
fn fours(number: u64) -> u16x8
    requires { number < 10 ^ 16 }
    ensures { result ≡ number / 10 ^ 12 ∷ number / 10 ^ 8 % 10000 ∷ number / 10000 % 10000
        ∷ number % 10000 ∷ 0 ∷ 0 ∷ 0 ∷ 0 ∷ [] }
{
    let word = halves(number / 100_000_000) + (halves(number % 100_000_000) << 32);
    u16x8::from_le_bytes(u64x2::from_array([word, 0]).to_le_bytes())
}

// Two digits in a lane.
#[inline(always)]
fn twos(number: u64) -> u16x8
    requires { number < 10 ^ 16 }
    ensures { result ≡ number / 10 ^ 14 ∷ number / 10 ^ 12 % 100 ∷ number / 10 ^ 10 % 100
        ∷ number / 10 ^ 8 % 100 ∷ number / 10 ^ 6 % 100 ∷ number / 10000 % 100
        ∷ number / 100 % 100 ∷ number % 100 ∷ [] }
{
    let fours = fours(number);
    let hundreds = fours / u16x8::splat(100);
    let rests = fours - hundreds * u16x8::splat(100);
    hundreds.shuffle(rests, [0, 8, 1, 9, 2, 10, 3, 11])
}

/// The text of a number in sixteen digits, with zeros in front.
#[inline(always)]
pub fn sixteen_digits(number: u64) -> [u8; 16]
    requires { number < 10 ^ 16 }
    ensures { result ≡ padded_text 16 number }
{
    let twos = twos(number);
    let tens = twos / u16x8::splat(10);
    // The tens go to the lower byte of each lane, and the ones above them, which is 256 * two - 2559 * ten.
    let digits = (twos << 8) - tens * u16x8::splat(2559);
    (digits + u16x8::splat(0x3030)).to_le_bytes().to_array()
}
