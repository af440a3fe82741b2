//! Lengths of wire that bring two delays together: a greatest length, or the next unit.

ghost use Rattle.std.specs.Prelude.{◌≡◌, ◌+◌, ◌-◌, ◌*◌, ◌^◌, ◌<◌, ◌≤◌, MatchOption, IfOk, IfErr, IfSome};
ghost use Rattle.cts_units.specs.Limits.{IsWire, max_length};
ghost use Rattle.cts_merge.specs.LeastPair.{IsLeastPair, IsTooLong, Spans};
ghost use Rattle.cts_merge.specs.Side.{IsSideInRange, delay_through};
ghost use Rattle.cts_merge.specs.Stretch.{IsBracket, IsStretch, IsLongStretch};

use crate::greatest::{near_snake, snake, tap};
use crate::side::{Beyond, Side};
use cts_units::{MAX_LENGTH, Wire, wire_delay};

/// The greatest delay of a side through a wire of this length.
#[inline(always)]
pub(crate) fn delay_through(wire: Wire, side: &Side, length: u64) -> u128
    requires wire { IsWire wire }
    requires side { IsSideInRange side.now }
    requires length { length ≤ 2 ^ 32 }
    ensures value { result ≡ delay_through wire side.now length }
    ensures bound { result ≤ 2 ^ 111 }
{
    side.greatest + wire_delay(wire, length, side.load)
}

/// What one unit of wire more than this length adds to the delay of a side.
#[inline(always)]
fn unit_delay(wire: Wire, side: &Side, length: u64) -> u128
    requires wire { IsWire wire }
    requires side { IsSideInRange side.now }
    requires length { length ≤ max_length }
    ensures { delay_through wire side.now (length + 1) ≡ delay_through wire side.now length + result }
{
    u128::from(wire.r) * u128::from(wire.c * (2 * length + 1) + 2 * side.load)
}

/// The last length at which a delay is at most a target, with what the delay there lacks of the target, and
/// what the delay through one unit more is over it.
#[derive(Clone, Copy)]
pub(crate) struct Bracket {
    length: u64,
    short_by: u128,
    long_by: u128,
}

/// The bracket of a target, if it is at this length.
#[inline(always)]
fn bracket_at(wire: Wire, side: &Side, length: u64, target: u128) -> Option<Bracket>
    requires wire { IsWire wire }
    requires side { IsSideInRange side.now }
    requires length { length ≤ max_length }
    ensures { IfSome result (IsBracket (delay_through wire side.now) target) }
{
    let here = delay_through(wire, side, length);
    if target < here {
        return None;
    }
    let short_by = target - here;
    let unit = unit_delay(wire, side, length);
    if unit <= short_by {
        return None;
    }
    Some(Bracket {
        length,
        short_by,
        long_by: unit - short_by,
    })
}

/// The bracket of a target from `base` on, or `None` where it is over the limit of one wire: by a root.
fn bracket_by_root(wire: Wire, side: &Side, base: u64, target: u128) -> Option<Bracket>
    requires wire { IsWire wire }
    requires side { IsSideInRange side.now }
    requires base { base ≤ max_length }
    requires target { target ≤ 2 ^ 111 }
    requires room { delay_through wire side.now base ≤ target }
    ensures { MatchOption result
        (delay_through wire side.now (max_length + 1) ≤ target)
        (IsBracket (delay_through wire side.now) target) }
{
    if delay_through(wire, side, MAX_LENGTH + 1) <= target {
        return None;
    }
    let length = snake(wire, side.load, target - side.greatest);
    let short_by = target - delay_through(wire, side, length);
    Some(Bracket {
        length,
        short_by,
        long_by: unit_delay(wire, side, length) - short_by,
    })
}

/// The bracket of a target from `base` on, or `None` where it is over the limit of one wire. Mostly it is at
/// the base itself, in a balance, or else where floats say.
fn find_bracket(wire: Wire, side: &Side, base: u64, target: u128) -> Option<Bracket>
    requires wire { IsWire wire }
    requires side { IsSideInRange side.now }
    requires base { base ≤ max_length }
    requires target { target ≤ 2 ^ 111 }
    requires room { delay_through wire side.now base ≤ target }
    ensures { MatchOption result
        (delay_through wire side.now (max_length + 1) ≤ target)
        (IsBracket (delay_through wire side.now) target) }
{
    if let Some(found) = bracket_at(wire, side, base, target) {
        return Some(found);
    }
    let near = near_snake(wire, side.load, target - side.greatest).min(MAX_LENGTH);
    if let Some(found) = bracket_at(wire, side, near, target) {
        return Some(found);
    }
    bracket_by_root(wire, side, base, target)
}

/// The length from `base` on at which a side's delay comes nearest to `target`, the shorter of two.
pub(crate) fn stretched(wire: Wire, side: &Side, base: u64, target: u128) -> Result<u64, Beyond>
    requires wire { IsWire wire }
    requires side { IsSideInRange side.now }
    requires base { base ≤ 2 ^ 32 }
    requires target { target ≤ 2 ^ 111 }
    requires room { delay_through wire side.now base ≤ target }
    ensures stretch { IfOk result (λ len. IsStretch (delay_through wire side.now) base target len) }
    ensures within { IfOk result (λ len. len ≤ max_length) }
    ensures beyond { IfErr result (λ _. IsLongStretch (delay_through wire side.now) base target) }
{
    if base > MAX_LENGTH {
        return Err(Beyond);
    }
    let Some(found) = find_bracket(wire, side, base, target) else {
        return Err(Beyond);
    };
    let low = found.length;
    if found.short_by <= found.long_by {
        return Ok(low);
    }
    if low == MAX_LENGTH {
        return Err(Beyond);
    }
    Ok(low + 1)
}

/// The two lengths that divide a gap where each side is the faster one without a wire, and without a
/// limit on them.
fn tapped(wire: Wire, a: &Side, b: &Side, gap: u64) -> (u64, u64)
    requires wire { IsWire wire }
    requires a { IsSideInRange a.now }
    requires b { IsSideInRange b.now }
    requires gap { gap ≤ 2 ^ 32 }
    requires fast_a { delay_through wire a.now 0 < delay_through wire b.now gap }
    requires fast_b { delay_through wire b.now 0 < delay_through wire a.now gap }
    ensures least { IsLeastPair (delay_through wire a.now) (delay_through wire b.now) (Spans gap) result.0 result.1 }
    ensures whole { result.0 + result.1 ≡ gap }
{
    let low = tap(wire, a, b, gap);
    let rest = gap - (low + 1);
    let at_low = delay_through(wire, b, rest + 1) - delay_through(wire, a, low);
    let at_next = delay_through(wire, a, low + 1) - delay_through(wire, b, rest);
    if at_low <= at_next {
        return (low, rest + 1);
    }
    (low + 1, rest)
}

/// The least pair of lengths of two sides over a gap.
pub(crate) fn least_pair(wire: Wire, a: &Side, b: &Side, gap: u64) -> Result<(u64, u64), Beyond>
    requires wire { IsWire wire }
    requires a { IsSideInRange a.now }
    requires b { IsSideInRange b.now }
    ensures least { IfOk result (λ pair.
        IsLeastPair (delay_through wire a.now) (delay_through wire b.now) (Spans gap) pair.0 pair.1) }
    ensures first_within { IfOk result (λ pair. pair.0 ≤ max_length) }
    ensures second_within { IfOk result (λ pair. pair.1 ≤ max_length) }
    ensures beyond { IfErr result (λ _. IsTooLong (delay_through wire a.now) (delay_through wire b.now) (Spans gap)) }
{
    if gap > 2 * MAX_LENGTH {
        return Err(Beyond);
    }
    let alone_a = delay_through(wire, a, 0);
    if delay_through(wire, b, gap) <= alone_a {
        let eb = stretched(wire, b, gap, alone_a)?;
        return Ok((0, eb));
    }
    let alone_b = delay_through(wire, b, 0);
    if delay_through(wire, a, gap) <= alone_b {
        let ea = stretched(wire, a, gap, alone_b)?;
        return Ok((ea, 0));
    }
    let (ea, eb) = tapped(wire, a, b, gap);
    if ea > MAX_LENGTH || eb > MAX_LENGTH {
        return Err(Beyond);
    }
    Ok((ea, eb))
}
