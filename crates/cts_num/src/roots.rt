//! Roots and quotients of whole numbers, rounded down.

ghost use Rattle.std.specs.Bool.{OnTrue};
ghost use Rattle.std.specs.Prelude.{◌≢◌, pos, ◌-ℤ◌, ◌^◌, ◌<ℤ◌, neg_ℤ};
ghost use Rattle.cts_num.specs.Roots.{IsRoot, IsFloor};

use std::num::{nearest_u64_to_f64, saturating_f64_to_u64};

/// The greatest whole number whose square is at most `n`.
pub fn isqrt(n: u128) -> u128
    ensures { IsRoot n result }
{
    let first = float_root(n);
    if is_root(n, first) {
        return u128::from(first);
    }
    let near = corrected(n, first);
    if is_root(n, near) {
        return u128::from(near);
    }
    let before = near.saturating_sub(1);
    if is_root(n, before) {
        return u128::from(before);
    }
    bisected(n)
}

// As `isqrt`, by a bisection, for the case that no number nearby is the root.
#[cold]
#[inline(never)]
#[tactic(auto, using(crate::proofs::Floors::root_is))]
fn bisected(n: u128) -> u128
    ensures { IsRoot n result }
{
    n.isqrt()
}

// The root of a float near the number. Below 2^100 it is the root or next to it. Nothing is claimed of it: it is looked at
// before it is taken.
#[inline(always)]
fn float_root(n: u128) -> u64 {
    saturating_f64_to_u64(near_float(n).sqrt())
}

// A number that is the root or the next one, by what the square of a first guess leaves. Nothing is claimed of it either.
#[inline(never)]
fn corrected(n: u128, first: u64) -> u64 {
    let square = u128::from(first) * u128::from(first);
    let double = 2.0 * nearest_u64_to_f64(first);
    let more = near_float(n.saturating_sub(square)) / double;
    let less = near_float(square.saturating_sub(n)) / double;
    first
        .saturating_add(saturating_f64_to_u64(more))
        .saturating_sub(saturating_f64_to_u64(less))
}

/// A float near the number. Nothing is claimed of it: it is for a guess that is looked at before it is taken.
#[inline(always)]
pub fn near_float(n: u128) -> f64 {
    let high = (n >> 64) as u64;
    let low = (n & u128::from(u64::MAX)) as u64;
    nearest_u64_to_f64(high) * 18_446_744_073_709_551_616.0 + nearest_u64_to_f64(low)
}

// Whether this is the root.
#[inline(always)]
fn is_root(n: u128, root: u64) -> bool
    ensures { OnTrue result (IsRoot n root) }
{
    let root = u128::from(root);
    let square = root * root;
    if square <= n && n - square <= 2 * root {
        return true;
    }
    false
}

/// The greatest whole number whose product with `b` is at most `a`: the quotient rounded down, also
/// where it is negative.
pub fn floor_div(a: i128, b: i128) -> i128
    requires positive { pos 0 <ℤ b }
    requires not_least { a ≢ neg_ℤ (pos (2 ^ 127)) }
    ensures { IsFloor a b result }
{
    a.div_euclid(b)
}
