//! Points in half nm, and in coordinates that are turned by 45 degrees.

ghost use Rattle.std.specs.Prelude.{◌≡◌, ◌*◌, ◌^◌, ◌≤◌, ◌↔◌, pos, ◌+ℤ◌, ◌-ℤ◌, ◌*ℤ◌, IsNone, IfSome};
ghost use Rattle.cts_geom.specs.Coordinate.{IsCoordinate, IsOdd};
ghost use Rattle.cts_geom.specs.Points.{IsSpotInRange, IsHalfInRange, spot_at, point_of, manhattan_of, distance_of};

/// A point (x, y) in the rotated coordinates u = x + y and v = x - y, in nm.
///
/// Every pair (u, v) is a point whose x and y are both whole or both half.
#[derive(Clone, Copy, PartialEq, Eq, Debug)]
pub struct Spot {
    pub u: i64,
    pub v: i64,
}

/// A point (x, y) in half nm.
#[derive(Clone, Copy, PartialEq, Eq, Debug)]
pub struct Half {
    pub x: i64,
    pub y: i64,
}

/// The spot of the point (x, y), in nm.
pub fn spot_of(x: i64, y: i64) -> Spot
    requires x { IsCoordinate x }
    requires y { IsCoordinate y }
    ensures rotated { result ≡ spot_at x y }
    ensures point { point_of result ≡ record { x = pos 2 *ℤ x; y = pos 2 *ℤ y } }

    // The same as numbers.
    ensures u { result.u ≡ x +ℤ y }
    ensures v { result.v ≡ x -ℤ y }
{
    Spot { u: x + y, v: x - y }
}

/// The point of a spot, in half nm.
pub fn halves(at: Spot) -> Half
    requires { IsSpotInRange at }
    ensures point { result ≡ point_of at }

    // The same as numbers.
    ensures x { result.x ≡ at.u +ℤ at.v }
    ensures y { result.y ≡ at.u -ℤ at.v }
{
    Half {
        x: at.u + at.v,
        y: at.u - at.v,
    }
}

/// The spot of a point in half nm, or `None` where the sum of its coordinates is odd.
pub fn spot_of_half(at: Half) -> Option<Spot>
    requires { IsHalfInRange at }
    ensures odd { IsNone result ↔ IsOdd (at.x +ℤ at.y) }
    ensures even { IfSome result (λ spot. point_of spot ≡ at) }
{
    let sum = at.x + at.y;
    if sum % 2 != 0 {
        return None;
    }
    Some(Spot {
        u: sum / 2,
        v: (at.x - at.y) / 2,
    })
}

/// The Manhattan distance of two points, in nm.
#[tactic(auto, unfolding(crate::specs::Points::distance_of))]
pub fn distance(a: Spot, b: Spot) -> u64
    requires a { IsSpotInRange a }
    requires b { IsSpotInRange b }
    ensures manhattan { 2 * result ≡ manhattan_of (point_of a) (point_of b) }
    ensures rotated { result ≡ distance_of a b }
    ensures bound { result ≤ 2 ^ 41 }
{
    a.u.abs_diff(b.u).max(a.v.abs_diff(b.v))
}
