//! Distances of regions and the regions in which two of them can be joined.

ghost use Rattle.std.specs.Prelude.{◌≡◌, ◌+◌, ◌^◌, ◌≤◌, pos, ◌+ℤ◌, ◌-ℤ◌, ◌≤ℤ◌};
ghost use Rattle.std.specs.Int.{int_min, int_max};
ghost use Rattle.cts_geom.specs.Coordinate.{IsCoordinate, interval_gap};
ghost use Rattle.cts_geom.specs.Points.{IsSpotInRange};
ghost use Rattle.cts_geom.specs.Regions.{IsRegionInRange, IsGap, gap_of, IsMeet, IsNearest, nearest_of};

use crate::points::Spot;
use crate::regions::Region;

/// How far apart the intervals from `a1` to `a2` and from `b1` to `b2` are.
fn interval_gap(a1: i64, a2: i64, b1: i64, b2: i64) -> u64
    requires a1 { IsCoordinate a1 }
    requires a2 { IsCoordinate a2 }
    requires b1 { IsCoordinate b1 }
    requires b2 { IsCoordinate b2 }
    requires a_ordered { a1 ≤ℤ a2 }
    requires b_ordered { b1 ≤ℤ b2 }
    ensures value { result ≡ interval_gap a1 a2 b1 b2 }
    ensures bound { result ≤ 2 ^ 41 }
{
    if a2 < b1 {
        b1.abs_diff(a2)
    } else if b2 < a1 {
        a1.abs_diff(b2)
    } else {
        0
    }
}

/// The gap of two regions: the least distance of their points, in nm.
pub fn gap(a: &Region, b: &Region) -> u64
    requires a { IsRegionInRange a.now }
    requires b { IsRegionInRange b.now }
    ensures least { IsGap a.now b.now result }
    ensures value { result ≡ gap_of a.now b.now }
    ensures bound { result ≤ 2 ^ 41 }
{
    interval_gap(a.u1, a.u2, b.u1, b.u2).max(interval_gap(a.v1, a.v2, b.v1, b.v2))
}

/// The greater of the differences `a - ea` and `b - eb`.
fn low_bound(a: i64, ea: u64, b: i64, eb: u64) -> i64
    requires a { IsCoordinate a }
    requires ea { ea ≤ 2 ^ 40 }
    requires b { IsCoordinate b }
    requires eb { eb ≤ 2 ^ 40 }
    ensures { result ≡ int_max (a -ℤ pos ea) (b -ℤ pos eb) }
{
    (a - ea as i64).max(b - eb as i64)
}

/// The lesser of the sums `a + ea` and `b + eb`.
fn high_bound(a: i64, ea: u64, b: i64, eb: u64) -> i64
    requires a { IsCoordinate a }
    requires ea { ea ≤ 2 ^ 40 }
    requires b { IsCoordinate b }
    requires eb { eb ≤ 2 ^ 40 }
    ensures { result ≡ int_min (a +ℤ pos ea) (b +ℤ pos eb) }
{
    (a + ea as i64).min(b + eb as i64)
}

/// All spots within `ea` nm of some point of `a` and within `eb` nm of some point of `b`.
///
/// There is one, since the two lengths together reach across the gap. This is the merging region of
/// deferred-merge embedding (Chao, Hsu, Ho 1992), in whole spots.
pub fn meet(a: &Region, ea: u64, b: &Region, eb: u64) -> Region
    requires a { IsRegionInRange a.now }
    requires b { IsRegionInRange b.now }
    requires ea { ea ≤ 2 ^ 40 }
    requires eb { eb ≤ 2 ^ 40 }
    requires reach { gap_of a.now b.now ≤ ea + eb }
    ensures members { IsMeet a.now ea b.now eb result }
    ensures u1 { result.u1 ≡ int_max (a.now.u1 -ℤ pos ea) (b.now.u1 -ℤ pos eb) }
    ensures u2 { result.u2 ≡ int_min (a.now.u2 +ℤ pos ea) (b.now.u2 +ℤ pos eb) }
    ensures v1 { result.v1 ≡ int_max (a.now.v1 -ℤ pos ea) (b.now.v1 -ℤ pos eb) }
    ensures v2 { result.v2 ≡ int_min (a.now.v2 +ℤ pos ea) (b.now.v2 +ℤ pos eb) }
{
    Region {
        u1: low_bound(a.u1, ea, b.u1, eb),
        u2: high_bound(a.u2, ea, b.u2, eb),
        v1: low_bound(a.v1, ea, b.v1, eb),
        v2: high_bound(a.v2, ea, b.v2, eb),
    }
}

/// The point of a region that is nearest to a spot, with the least (u, v) among equally near ones.
pub fn nearest(region: &Region, to: Spot) -> Spot
    requires region { IsRegionInRange region.now }
    requires to { IsSpotInRange to }
    ensures nearest { IsNearest region.now to result }
    ensures value { result ≡ nearest_of region.now to }
{
    let u_gap = interval_gap(region.u1, region.u2, to.u, to.u);
    let v_gap = interval_gap(region.v1, region.v2, to.v, to.v);
    let reach = u_gap.max(v_gap) as i64;
    Spot {
        u: region.u1.max(to.u - reach),
        v: region.v1.max(to.v - reach),
    }
}
