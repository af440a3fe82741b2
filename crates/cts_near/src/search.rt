//! The search for the closest two subtrees.
//!
//! Each subtree has a bound that is at most its gap to every later one. A bound that is too low costs a look once it is
//! the least of all, and then it rises to the gap itself. So a join leaves most bounds as they are.

ghost use Rattle.std.specs.Prelude.{◌≡◌, ℕ, ◌+◌, ◌-◌, ◌<◌, ◌≤◌, All, length, nat_lt, slice_index, slice_index_or, IfOk, ◌-ℤ◌};
ghost use Rattle.std.specs.Int.{int_max};
ghost use Rattle.std.specs.List.{IsFirstBest};
ghost use Rattle.cts_geom.specs.Coordinate.{IsCoordinate};
ghost use Rattle.cts_merge.specs.Side.{IsMergeable};
ghost use Rattle.cts_near.specs.declared.subtree.Subtree.{Subtree};
ghost use Rattle.cts_near.specs.Search.{gap_from as spec_gap_from, AreBounds, AreOtherBounds, IsNearestLater, AreClosestPlaces};

use crate::subtree::Subtree;
use cts_geom::gap;
use cts_num::NoMemory;
use std::alloc::Global;

/// How far apart two subtrees are, in nm.
#[inline(always)]
fn gap_from(s: &Subtree, t: &Subtree) -> u64
    requires s { IsMergeable s.now.side }
    requires t { IsMergeable t.now.side }
    ensures { result ≡ spec_gap_from s.now t.now }
{
    gap(&s.side.region, &t.side.region)
}

/// How far apart the intervals from `a1` to `a2` and from `b1` to `b2` are, below 0 where they overlap.
#[inline(always)]
fn apart(a1: i64, a2: i64, b1: i64, b2: i64) -> i64
    requires a1 { IsCoordinate a1 }
    requires a2 { IsCoordinate a2 }
    requires b1 { IsCoordinate b1 }
    requires b2 { IsCoordinate b2 }
    ensures { result ≡ int_max (b1 -ℤ a2) (a1 -ℤ b2) }
{
    (b1 - a2).max(a1 - b2)
}

/// How far apart two subtrees are along u alone, which is at most their gap.
#[inline(always)]
fn gap_along_u(s: &Subtree, t: &Subtree) -> u64
    requires s { IsMergeable s.now.side }
    requires t { IsMergeable t.now.side }
    ensures { result ≤ spec_gap_from s.now t.now }
{
    let (a, b) = (s.side.region, t.side.region);
    apart(a.u1, a.u2, b.u1, b.u2).max(0) as u64
}

/// Whether the gap of two subtrees is below a limit. Most pairs are too far apart along u, and no more of them is looked
/// at: a branch that nearly always goes one way costs less than the whole gap.
#[inline(always)]
fn is_nearer(s: &Subtree, t: &Subtree, limit: u64) -> bool
    requires s { IsMergeable s.now.side }
    requires t { IsMergeable t.now.side }
    ensures { result ≡ nat_lt (spec_gap_from s.now t.now) limit }
{
    gap_along_u(s, t) < limit && gap_from(s, t) < limit
}

/// The place of the first least bound. The last subtree has no later one, and its bound is left out.
fn first_least(bounds: &[u64]) -> usize
    requires { 2 ≤ length bounds.now }
    ensures { IsFirstBest nat_lt bounds.now (length bounds.now - 1) result }
{
    let mut least = 0;
    let mut bound = bounds[0];
    for place in 1..bounds.len() - 1 {
        if bounds[place] < bound {
            least = place;
            bound = bounds[place];
        }
    }
    least
}

/// The place of the first nearest of the later subtrees, and its gap in nm. No gap to a later one is below the bound,
/// so that the first one of that gap ends the search.
fn nearest_later(subtrees: &[Subtree], place: usize, bound: u64) -> (usize, u64)
    requires place { place + 1 < length subtrees.now }
    requires in_range { All (λ s. IsMergeable s.side) subtrees.now }
    requires bound { (k : ℕ) (d e : Subtree) → place < k → k < length subtrees.now
        → bound ≤ spec_gap_from (slice_index_or subtrees.now place d) (slice_index_or subtrees.now k e) }
    ensures { IsNearestLater subtrees.now place result.0 result.1 }
{
    let subtree = subtrees[place];
    let mut nearest = place + 1;
    let mut least = gap_from(&subtree, &subtrees[nearest]);
    for later in place + 2..subtrees.len() {
        if least == bound {
            return (nearest, least);
        }
        if is_nearer(&subtree, &subtrees[later], least) {
            nearest = later;
            least = gap_from(&subtree, &subtrees[later]);
        }
    }
    (nearest, least)
}

/// The places of the closest two subtrees, by gap, then by the first place, then by the second one. The bounds of
/// subtrees that were looked at rise.
pub(crate) fn closest(subtrees: &[Subtree], bounds: &mut [u64]) -> (usize, usize)
    requires some { 2 ≤ length subtrees.now }
    requires in_range { All (λ s. IsMergeable s.side) subtrees.now }
    requires bounds { AreBounds subtrees.now bounds.old }
    ensures closest { AreClosestPlaces subtrees.now result.0 result.1 }
    ensures bounds { AreBounds subtrees.now bounds.new }
{
    loop {
        let first = first_least(bounds);
        let (second, gap) = nearest_later(subtrees, first, bounds[first]);
        if gap == bounds[first] {
            return (first, second);
        }
        bounds[first] = gap;
    }
}

/// The gap of a subtree to the nearest later one in nm. The last one has no later one: any number is a bound for it.
fn gap_to_later(subtrees: &[Subtree], place: usize) -> u64
    requires place { place < length subtrees.now }
    requires in_range { All (λ s. IsMergeable s.side) subtrees.now }
    ensures { (k : ℕ) (d e : Subtree) → place < k → k < length subtrees.now
        → result ≤ spec_gap_from (slice_index_or subtrees.now place d) (slice_index_or subtrees.now k e) }
{
    if place + 1 == subtrees.len() {
        return u64::MAX;
    }
    nearest_later(subtrees, place, 0).1
}

/// The bounds of subtrees, each the gap to the nearest later one.
pub(crate) fn bounds_of(alloc: Global, subtrees: &[Subtree]) -> Result<Vec<u64>, NoMemory>
    requires in_range { All (λ s. IsMergeable s.side) subtrees.now }
    ensures { IfOk result (λ bounds. AreBounds subtrees.now bounds.items) }
{
    let mut bounds = Vec::with_capacity(alloc, subtrees.len())?;
    for place in 0..subtrees.len() {
        bounds.push(gap_to_later(subtrees, place))?;
    }
    Ok(bounds)
}

/// Renews the bounds after the subtree at `place` was exchanged: its own, and those of earlier ones that it is nearer to.
pub(crate) fn renew(subtrees: &[Subtree], bounds: &mut [u64], place: usize)
    requires place { place < length subtrees.now }
    requires in_range { All (λ s. IsMergeable s.side) subtrees.now }
    requires others { AreOtherBounds place subtrees.now bounds.old }
    ensures { AreBounds subtrees.now bounds.new }
{
    bounds[place] = gap_to_later(subtrees, place);
    let subtree = subtrees[place];
    for earlier in 0..place {
        if is_nearer(&subtrees[earlier], &subtree, bounds[earlier]) {
            bounds[earlier] = gap_from(&subtrees[earlier], &subtree);
        }
    }
}
