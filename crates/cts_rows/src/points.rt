//! Points on paper.

ghost use Rattle.cts_geom.specs.Points.{IsSpotInRange};

use cts_geom::{Half, Spot, distance, halves, spot_of, spot_of_half};
use std::process::Abort;

/// The spot (u, v).
fn spot(at: (i8, i8)) -> Spot
    ensures { IsSpotInRange result }
{
    let (u, v) = at;
    Spot {
        u: i64::from(u),
        v: i64::from(v),
    }
}

/// Compares the spot of a point, the point of that spot in half nm, and how far it is from (0, 0).
fn compare(rt: &impl Abort, point: (u8, u8), at: (i8, i8), half: (i64, i64), from_origin: u64) {
    let (x, y) = half;
    let found = spot_of(i64::from(point.0), i64::from(point.1));
    let away = distance(spot(at), spot((0, 0)));
    assert_eq!(rt;
        (found, halves(spot(at)), away),
        (spot(at), Half { x, y }, from_origin)
    );
}

#[test]
fn agree_with_points_on_paper(rt: HostRuntime) {
    compare(&rt, (0, 0), (0, 0), (0, 0), 0);
    compare(&rt, (3, 4), (7, -1), (6, 8), 7);
    compare(&rt, (6, 4), (10, 2), (12, 8), 10);
    compare(&rt, (5, 0), (5, 5), (10, 0), 5);
}

/// Compares the spot (u, v) of a point in half nm.
fn is_at(rt: &impl Abort, half: (i8, i8), at: Option<(i64, i64)>) {
    let (x, y) = (i64::from(half.0), i64::from(half.1));
    let found = match spot_of_half(Half { x, y }) {
        Some(spot) => Some((spot.u, spot.v)),
        None => None,
    };
    assert_eq!(rt; found, at);
}

#[test]
fn tells_points_without_a_spot(rt: HostRuntime) {
    // (2.5, 2.5) is a spot and (2, 2.5) is not.
    is_at(&rt, (5, 5), Some((5, 0)));
    is_at(&rt, (4, 5), None);
    is_at(&rt, (-3, 4), None);
    is_at(&rt, (-3, -5), Some((-4, 1)));
}
