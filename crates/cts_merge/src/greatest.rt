//! Greatest lengths of wires, in constant time: where the wires to two sides meet on a distance, and how long
//! a wire is within a delay.

ghost use Rattle.std.specs.Prelude.{ℕ, ◌≡◌, ◌+◌, ◌*◌, ◌^◌, ◌<◌, ◌≤◌};
ghost use Rattle.cts_units.specs.Delay.{wire_delay_of};
ghost use Rattle.cts_units.specs.Limits.{IsWire, max_load};
ghost use Rattle.cts_merge.specs.Lengths.{IsLongest, IsTap};
ghost use Rattle.cts_merge.specs.Side.{IsSideInRange};

use crate::lengths::delay_through;
use crate::side::Side;
use cts_num::{isqrt, near_float};
use cts_units::Wire;
use std::num::{nearest_u64_to_f64, saturating_f64_to_u64};

/// The greatest length in nm from 0 to `d` on the first side at which it is not slower than the second one
/// with the rest of `d`, or 0 where there is none: it takes one quotient.
///
/// The second side's delay through all of `d`, less the first side's own, has to be shared out: each unit
/// that goes from the second wire to the first one takes the same part of it. Nothing wraps: a delay
/// through a length of at most 2^32 is at most 2^111, and such a part is below 2^79.
pub fn tap(wire: Wire, a: &Side, b: &Side, d: u64) -> u64
    requires wire { IsWire wire }
    requires a { IsSideInRange a.now }
    requires b { IsSideInRange b.now }
    requires d { d ≤ 2 ^ 32 }
    ensures { IsTap wire a.now b.now d result }
{
    if d == 0 {
        return 0;
    }
    let whole = delay_through(wire, b, d);
    if whole < a.greatest {
        return 0;
    }
    let unit = unit_share(wire.r, wire.c, d, a.load + b.load);
    let length = (whole - a.greatest) / unit;
    if length < d as u128 { length as u64 } else { d }
}

// What one unit more on one wire and one less on the other one add to the difference of the two delays: its factors have one
// word each.
#[inline(always)]
fn unit_share(r: u64, c: u64, d: u64, loads: u64) -> u128
    requires r_low { 1 ≤ r }
    requires r_high { r ≤ 10 ^ 6 }
    requires c_low { 1 ≤ c }
    requires c_high { c ≤ 10 ^ 6 }
    requires d_low { 1 ≤ d }
    requires d_high { d ≤ 2 ^ 32 }
    requires loads { loads ≤ 2 ^ 57 }
    ensures value { result ≡ r * (2 * (c * d + loads)) }
    ensures some { 0 < result }
{
    u128::from(r) * u128::from(2 * (c * d + loads))
}

/// The greatest length in nm at which a wire into `load` has at most the doubled delay `delta`: it takes
/// one quotient and one root.
pub fn snake(wire: Wire, load: u64, delta: u128) -> u64
    requires wire { IsWire wire }
    requires load { load ≤ max_load }
    requires delta { delta ≤ wire.r * 2 ^ 105 }
    ensures { IsLongest wire load delta result }
{
    wide_snake(wire.r as u128, wire.c as u128, load as u128, delta) as u64
}

/// A length in nm near that of [`snake`], by floats. Nothing is claimed of it: it is looked at before it is taken.
#[inline(always)]
pub(crate) fn near_snake(wire: Wire, load: u64, delta: u128) -> u64 {
    let c = nearest_u64_to_f64(wire.c);
    let load = nearest_u64_to_f64(load);
    // Quotients take longest, and these two don't wait for the delay.
    let ratio = c / nearest_u64_to_f64(wire.r);
    let unit = 1.0 / c;
    let root = (load * load + ratio * near_float(delta)).sqrt();
    saturating_f64_to_u64((root - load) * unit)
}

// With q = delta / r the delay of a length L is at most delta exactly where (c·L + load)² is at most
// load² + c·q. Nothing wraps: load² is at most 2^112, and since q is at most 2^105 and c at most 10^6,
// which is below 2^20, c·q is below 2^125. So the sum is below 2^126, and its root below 2^63.
fn wide_snake(r: u128, c: u128, load: u128, delta: u128) -> u128
    requires r_low { 1 ≤ r }
    requires c_low { 1 ≤ c }
    requires c_high { c ≤ 10 ^ 6 }
    requires load { load ≤ max_load }
    requires delta { delta ≤ r * 2 ^ 105 }
    ensures fits { wire_delay_of r c result load ≤ delta }
    ensures greatest { (x : ℕ) → wire_delay_of r c x load ≤ delta → x ≤ result }
    ensures bound { result < 2 ^ 64 }
{
    let root = isqrt(square(c, load, delta / r));
    (root - load) / c
}

// The number whose root, rounded down, is the bound of c·L + load.
fn square(c: u128, load: u128, quotient: u128) -> u128
    requires c { c ≤ 10 ^ 6 }
    requires load { load ≤ max_load }
    requires quotient { quotient ≤ 2 ^ 105 }
    ensures value { result ≡ load * load + c * quotient }
    ensures bound { result < 2 ^ 126 }
{
    load * load + c * quotient
}
