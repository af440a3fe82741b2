//! Points of whole nm near a place, and their order by the distance from it.
ghost use Rattle.std.specs.Prelude.{◌≡◌, ◌≤◌, ◌^◌, ◌⊎◌, pos, ◌*ℤ◌, ◌≤ℤ◌};
ghost use Rattle.cts_geom.specs.Points.{manhattan_of};
ghost use Rattle.cts_geom.specs.Coordinate.{IsCoordinate};
ghost use Rattle.cts_block.specs.Search.{IsWholeInRange, IsPlaceInRange, IsAhead, IsClosest, IsOn, columns_of, rows_of};
ghost use Rattle.cts_block.specs.declared.whole.Whole.{Whole};
ghost use Rattle.cts_block.specs.Search.{half_of as spec_half_of};

use crate::blocks::Block;
use crate::free::{rounded_down, rounded_up};
use crate::whole::{Range, Segment, Whole};
use cts_geom::{Die, Half};

/// The point in half nm.
pub fn half_of(p: Whole) -> Half
    requires { IsWholeInRange p }
    ensures point { result ≡ spec_half_of p }

    // The same as numbers.
    ensures x { result.x ≡ pos 2 *ℤ p.x }
    ensures y { result.y ≡ pos 2 *ℤ p.y }
{
    Half {
        x: 2 * p.x,
        y: 2 * p.y,
    }
}

/// How far a point is from a place, in half nm.
pub fn reach(from: Half, p: Whole) -> u64
    requires from { IsPlaceInRange from }
    requires p { IsWholeInRange p }
    ensures value { result ≡ manhattan_of from (spec_half_of p) }
    ensures bound { result ≤ 2 ^ 43 }
{
    let to = half_of(p);
    from.x.abs_diff(to.x) + from.y.abs_diff(to.y)
}

/// The one of two points that comes first by the distance from a place, then by x, then by y.
pub fn first_of_two(from: Half, p: Whole, q: Whole) -> Whole
    requires from { IsPlaceInRange from }
    requires p { IsWholeInRange p }
    requires q { IsWholeInRange q }
    ensures one { (result ≡ p) ⊎ (result ≡ q) }
    ensures before_p { IsAhead from result p }
    ensures before_q { IsAhead from result q }
{
    let to_p = reach(from, p);
    let to_q = reach(from, q);
    if to_p != to_q {
        if to_p < to_q { p } else { q }
    } else if p.x != q.x {
        if p.x < q.x { p } else { q }
    } else if p.y < q.y {
        p
    } else {
        q
    }
}

/// The number of the range that is nearest to `number`.
fn clamped(range: Range, number: i64) -> i64
    requires { range.low ≤ℤ range.high }
    ensures low { range.low ≤ℤ result }
    ensures high { result ≤ℤ range.high }
    ensures above { (number ≤ℤ result) ⊎ (result ≡ range.high) }
    ensures below { (result ≤ℤ number) ⊎ (result ≡ range.low) }
{
    if number < range.low {
        range.low
    } else if range.high < number {
        range.high
    } else {
        number
    }
}

/// The numbers of a range that are nearest to a number of halves, from below and from above.
fn closest(range: Range, halves: i64) -> Range
    requires ordered { range.low ≤ℤ range.high }
    requires halves { halves ≤ℤ pos (2 ^ 41) }
    ensures { IsClosest range halves result }
{
    Range {
        low: clamped(range, rounded_down(halves)),
        high: clamped(range, rounded_up(halves)),
    }
}

/// The x of the columns of a die that are nearest to a place: one or two that are next to each other.
pub fn closest_columns(die: &Die, from: Half) -> Range
    requires ordered { die.now.x1 ≤ℤ die.now.x2 }
    requires from { IsPlaceInRange from }
    ensures { IsClosest (columns_of die.now) from.x result }
{
    let columns = Range {
        low: die.x1,
        high: die.x2,
    };
    closest(columns, from.x)
}

/// The y of the rows of a die that are nearest to a place: one or two that are next to each other.
pub fn closest_rows(die: &Die, from: Half) -> Range
    requires ordered { die.now.y1 ≤ℤ die.now.y2 }
    requires from { IsPlaceInRange from }
    ensures { IsClosest (rows_of die.now) from.y result }
{
    let rows = Range {
        low: die.y1,
        high: die.y2,
    };
    closest(rows, from.y)
}

/// No point of the segment is nearer to the place than this, in half nm.
pub fn least_reach(from: Half, segment: Segment) -> u64
    requires from { IsPlaceInRange from }
    requires bottom { IsWholeInRange segment.bottom }
    requires top { IsWholeInRange segment.top }
    ensures { (p : Whole) → IsOn segment p → result ≤ manhattan_of from (spec_half_of p) }
{
    let bottom = half_of(segment.bottom);
    let top = half_of(segment.top);
    if from.y < bottom.y {
        reach(from, segment.bottom)
    } else if top.y < from.y {
        reach(from, segment.top)
    } else {
        from.x.abs_diff(bottom.x)
    }
}

/// The left edge of a block.
pub fn left_edge(block: &Block) -> Segment
    ensures bottom { result.bottom ≡ record { x = block.now.x1; y = block.now.y1 } }
    ensures top { result.top ≡ record { x = block.now.x1; y = block.now.y2 } }
{
    Segment {
        bottom: Whole {
            x: block.x1,
            y: block.y1,
        },
        top: Whole {
            x: block.x1,
            y: block.y2,
        },
    }
}

/// The right edge of a block.
pub fn right_edge(block: &Block) -> Segment
    ensures bottom { result.bottom ≡ record { x = block.now.x2; y = block.now.y1 } }
    ensures top { result.top ≡ record { x = block.now.x2; y = block.now.y2 } }
{
    Segment {
        bottom: Whole {
            x: block.x2,
            y: block.y1,
        },
        top: Whole {
            x: block.x2,
            y: block.y2,
        },
    }
}
