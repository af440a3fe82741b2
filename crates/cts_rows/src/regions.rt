//! Merging regions against scans of all points.

ghost use Rattle.std.specs.Prelude.{◌≤◌};
ghost use Rattle.cts_geom.specs.Points.{IsSpotInRange};
ghost use Rattle.cts_geom.specs.Regions.{IsRegionInRange};

use cts_geom::{Region, Spot, distance, gap, meet, nearest};
use std::process::Abort;

/// Where a region begins in u and in v, each with how far it runs.
type Extent = ((i16, u16), (i16, u16));

fn region(extent: Extent) -> Region
    ensures { IsRegionInRange result }
{
    let ((u, width), (v, height)) = extent;
    let (u1, v1) = (i64::from(u), i64::from(v));
    Region {
        u1,
        u2: u1 + i64::from(width),
        v1,
        v2: v1 + i64::from(height),
    }
}

fn contains(region: &Region, at: Spot) -> bool {
    region.u1 <= at.u && at.u <= region.u2 && region.v1 <= at.v && at.v <= region.v2
}

/// The spot in this row and column of a grid of 21 by 21 round (0, 0).
fn grid_spot(row: u8, column: u8) -> Spot
    requires row { row ≤ 20 }
    requires column { column ≤ 20 }
    ensures { IsSpotInRange result }
{
    Spot {
        u: i64::from(row) - 10,
        v: i64::from(column) - 10,
    }
}

/// The first point of the region on the grid that is nearest to a spot, and its distance.
fn scanned_nearest(region: &Region, to: Spot) -> (Spot, u64)
    requires { IsSpotInRange to }
{
    let mut first = to;
    let mut least = u64::MAX;
    for row in 0..21 {
        for column in 0..21 {
            let at = grid_spot(row, column);
            if contains(region, at) && distance(at, to) < least {
                first = at;
                least = distance(at, to);
            }
        }
    }
    (first, least)
}

/// The least distance of a point of b on the grid from a.
fn scanned_gap(a: &Region, b: &Region) -> u64 {
    let mut least = u64::MAX;
    for row in 0..21 {
        for column in 0..21 {
            let at = grid_spot(row, column);
            let (_, to_a) = scanned_nearest(a, at);
            if contains(b, at) {
                least = least.min(to_a);
            }
        }
    }
    least
}

/// Compares which point of a region is nearest to a spot.
fn compare_nearest(rt: &impl Abort, region: &Region, at: Spot, found: Spot)
    requires region { IsRegionInRange region.now }
    requires at { IsSpotInRange at }
{
    assert_eq!(rt; (at, nearest(region, at)), (at, found));
}

/// Compares a merging region of a and b with scans of the grid.
fn compare_meet(rt: &impl Abort, region: &Region, a: (&Region, u64), b: (&Region, u64))
    requires { IsRegionInRange a.0.now }
{
    for row in 0..21 {
        for column in 0..21 {
            let at = grid_spot(row, column);
            let (nearest_of_a, to_a) = scanned_nearest(a.0, at);
            let (_, to_b) = scanned_nearest(b.0, at);
            let is_near = to_a <= a.1 && to_b <= b.1;
            assert_eq!(rt; (at, contains(region, at)), (at, is_near));
            compare_nearest(rt, a.0, at, nearest_of_a);
        }
    }
}

/// Compares all calls on these regions with scans of the grid, where the lengths reach.
fn compare_with_scans(rt: &impl Abort, a: Extent, ea: u8, b: Extent, eb: u8) {
    let (a, b) = (region(a), region(b));
    let (ea, eb) = (u64::from(ea), u64::from(eb));
    assert!(rt; gap(&a, &b) <= ea + eb);
    compare_meet(rt, &meet(&a, ea, &b, eb), (&a, ea), (&b, eb));
    assert_eq!(rt; gap(&a, &b), scanned_gap(&a, &b));
}

#[test]
fn agree_with_scans_of_all_points(rt: HostRuntime) {
    let origin = ((0, 0), (0, 0));
    let point = ((5, 0), (2, 0));
    compare_with_scans(&rt, origin, 2, point, 3);
    let along_v = ((-4, 0), (-3, 5));
    let along_u = ((-1, 4), (4, 0));
    compare_with_scans(&rt, along_v, 1, along_u, 2);
    compare_with_scans(&rt, along_u, 0, along_v, 5);
    let crossing = ((0, 0), (-2, 7));
    compare_with_scans(&rt, crossing, 0, along_u, 0);
}

/// Compares the ends of the merging region of two regions whose gap is twice a length.
fn meet_halfway(rt: &impl Abort, a: Extent, b: Extent, length: u16, both: Extent) {
    let (a, b, length) = (region(a), region(b), u64::from(length));
    assert_eq!(rt; gap(&a, &b), length + length);
    let (found, want) = (meet(&a, length, &b, length), region(both));
    assert_eq!(rt;
        (found.u1, found.u2, found.v1, found.v2),
        (want.u1, want.u2, want.v1, want.v2)
    );
}

#[test]
fn join_two_sinks_halfway(rt: HostRuntime) {
    // The points (0, 0) and (6, 4) in um, with 5 um to each.
    let (a, b) = (((0, 0), (0, 0)), ((10_000, 0), (2_000, 0)));
    let both = ((5_000, 0), (-3_000, 8_000));
    meet_halfway(&rt, a, b, 5_000, both);
    // All of it is 5 um from (0, 0), and (1, 4) has the least v.
    let both = region(both);
    let least = Spot {
        u: 5_000,
        v: -3_000,
    };
    compare_nearest(&rt, &both, Spot { u: 0, v: 0 }, least);
    let far = Spot { u: 9_000, v: 9_000 };
    compare_nearest(&rt, &both, far, Spot { u: 5_000, v: 5_000 });
}
