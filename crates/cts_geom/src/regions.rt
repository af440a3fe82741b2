//! Regions: rectangles in the turned coordinates.

ghost use Rattle.std.specs.Prelude.{◌≤ℤ◌};

/// A region of the plane: all spots (u, v) with u from `u1` to `u2` and v from `v1` to `v2`.
///
/// It is never empty. Contracts see its four numbers; a fact that speaks of its spots says
/// `ContainsSpot`, and two regions with the same spots are equal.
#[derive(Clone, Copy)]
pub struct Region {
    pub u1: i64,
    pub u2: i64,
    pub v1: i64,
    pub v2: i64,
    pub ghost u_ordered: { u1 ≤ℤ u2 },
    pub ghost v_ordered: { v1 ≤ℤ v2 },
}
