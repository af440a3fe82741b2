//! A way of segments along the axes, its points and distances in half nm.

ghost use Rattle.std.specs.Prelude.{◌≡◌, ◌+◌, ◌^◌, ◌<◌, ◌≤◌, ℕ, length, slice_index_or, All};
ghost use Rattle.cts_geom.specs.declared.points.Half.{Half};
ghost use Rattle.cts_geom.specs.Coordinate.{IsCoordinate};
ghost use Rattle.cts_geom.specs.Points.{IsHalfInRange, manhattan_of};
ghost use Rattle.cts_tree.specs.Path.{path_length};
ghost use Rattle.cts_trunk.specs.Road.{IsCursor, IsWayInRange};
ghost use Rattle.cts_trunk.specs.Way.{point_along, step_to as spec_step_to, toward as spec_toward};

use cts_geom::Half;

/// Where on a way: the number of the segment, and the distance from the start at which it begins.
#[derive(Clone, Copy)]
pub struct Cursor {
    pub segment: usize,
    pub begin: u64,
}

/// The length of a segment along an axis.
pub fn segment_length(from: Half, to: Half) -> u64
    requires from { IsHalfInRange from }
    requires to { IsHalfInRange to }
    ensures value { result ≡ manhattan_of from to }
    ensures bound { result ≤ 2 ^ 42 }
{
    from.x.abs_diff(to.x) + from.y.abs_diff(to.y)
}

/// The coordinate at this distance on the way from one to another.
fn toward(from: i64, to: i64, distance: u64) -> i64
    requires from { IsCoordinate from }
    requires distance { distance ≤ 2 ^ 42 }
    ensures { result ≡ spec_toward from to distance }
{
    if from < to {
        from + distance as i64
    } else if to < from {
        from - distance as i64
    } else {
        from
    }
}

/// The point at this distance on a segment.
fn step_to(from: Half, to: Half, distance: u64) -> Half
    requires from { IsHalfInRange from }
    requires distance { distance ≤ 2 ^ 42 }
    ensures { result ≡ spec_step_to from to distance }
{
    Half {
        x: toward(from.x, to.x, distance),
        y: toward(from.y, to.y, distance),
    }
}

/// The segment at this distance, which is not before the cursor and not at the end of the way.
pub fn advance(points: &[Half], cursor: Cursor, distance: u64) -> Cursor
    requires range { IsWayInRange points.now }
    requires cursor { IsCursor points.now cursor }
    requires ahead { cursor.begin ≤ distance }
    requires inside { distance < path_length points.now }
    ensures cursor { IsCursor points.now result }
    ensures here { result.begin ≤ distance }
    ensures within { result.segment + 1 < length points.now }
    ensures before_end { (p q : Half) → distance < result.begin
        + manhattan_of (slice_index_or points.now result.segment p) (slice_index_or points.now (result.segment + 1) q) }
{
    let mut begin = cursor.begin;
    for segment in cursor.segment..points.len() - 1 {
        let end = begin + segment_length(points[segment], points[segment + 1]);
        if distance < end {
            return Cursor { segment, begin };
        }
        begin = end;
    }
    unreachable!()
}

/// The point at this distance, on the cursor's segment.
pub fn point_at(points: &[Half], cursor: Cursor, distance: u64) -> Half
    requires range { IsWayInRange points.now }
    requires cursor { IsCursor points.now cursor }
    requires here { cursor.begin ≤ distance }
    requires inside { distance < path_length points.now }
    requires within { cursor.segment + 1 < length points.now }
    requires before_end { (p q : Half) → distance < cursor.begin
        + manhattan_of (slice_index_or points.now cursor.segment p) (slice_index_or points.now (cursor.segment + 1) q) }
    ensures { result ≡ point_along points.now distance }
{
    step_to(
        points[cursor.segment],
        points[cursor.segment + 1],
        distance - cursor.begin,
    )
}
