//! What stands in the way of a repeater at a point of the trunk, and how far.

ghost use Rattle.std.specs.Prelude.{◌≡◌, ◌+◌, ◌*◌, ◌^◌, ◌<◌, ◌≤◌, ℕ, length, slice_index_or, Contains};
ghost use Rattle.cts_geom.specs.declared.points.Half.{Half};
ghost use Rattle.cts_geom.specs.Points.{IsHalfInRange, manhattan_of, point_of};
ghost use Rattle.cts_block.specs.FreePoints.{IsHalfInside, IsStrictlyBetween};
ghost use Rattle.cts_tree.specs.Path.{path_length};
ghost use Rattle.cts_trunk.specs.Road.{IsBlockOnChip, IsCursor, IsEven, IsRoad, IsSeen, IsWayInRange};
ghost use Rattle.cts_trunk.specs.Way.{point_along, step_to, toward};

use crate::way::{Cursor, point_at, segment_length};
use cts_block::{Block, FreeMap};
use cts_geom::{Half, Spot, spot_of_half};

/// What is seen at a distance from the source, in half nm.
#[derive(Clone, Copy)]
pub enum Look {
    /// A buffer may stand here.
    Free { place: Spot },
    /// No buffer may stand from here up to this distance.
    Blocked { until: u64 },
}

/// How far the x of a point that lies strictly inside a block stays there on a segment, in half nm.
fn room_across(block: &Block, from: Half, to: Half, at: Half) -> u64
    requires block { IsBlockOnChip block.now }
    requires inside { IsHalfInside block.now at }
    ensures some { 0 < result }
    ensures inside { (e d : ℕ) → at.x ≡ toward from.x to.x e → d < result
        → IsStrictlyBetween block.now.x1 block.now.x2 (toward from.x to.x (e + d)) }
{
    if from.x < to.x {
        (2 * block.x2 - at.x) as u64
    } else if to.x < from.x {
        (at.x - 2 * block.x1) as u64
    } else {
        u64::MAX
    }
}

/// How far the y of a point that lies strictly inside a block stays there on a segment, in half nm.
fn room_along(block: &Block, from: Half, to: Half, at: Half) -> u64
    requires block { IsBlockOnChip block.now }
    requires inside { IsHalfInside block.now at }
    ensures some { 0 < result }
    ensures inside { (e d : ℕ) → at.y ≡ toward from.y to.y e → d < result
        → IsStrictlyBetween block.now.y1 block.now.y2 (toward from.y to.y (e + d)) }
{
    if from.y < to.y {
        (2 * block.y2 - at.y) as u64
    } else if to.y < from.y {
        (at.y - 2 * block.y1) as u64
    } else {
        u64::MAX
    }
}

/// How far the points of a segment from this one on stay inside a block around it.
fn room_in_block(block: &Block, from: Half, to: Half, at: Half) -> u64
    requires block { IsBlockOnChip block.now }
    requires inside { IsHalfInside block.now at }
    ensures some { 0 < result }
    ensures inside { (e d : ℕ) → at ≡ step_to from to e → d < result → IsHalfInside block.now (step_to from to (e + d)) }
{
    room_across(block, from, to, at).min(room_along(block, from, to, at))
}

/// How far the points of a way from this distance on, where one of them lies inside a block, stay inside it on the cursor's
/// segment.
fn blocked_until(points: &[Half], cursor: Cursor, distance: u64, block: &Block, at: Half) -> u64
    requires range { IsWayInRange points.now }
    requires cursor { IsCursor points.now cursor }
    requires here { cursor.begin ≤ distance }
    requires within { cursor.segment + 1 < length points.now }
    requires before_end { (p q : Half) → distance < cursor.begin
        + manhattan_of (slice_index_or points.now cursor.segment p) (slice_index_or points.now (cursor.segment + 1) q) }
    requires block { IsBlockOnChip block.now }
    requires at { at ≡ point_along points.now distance }
    requires inside { IsHalfInside block.now at }
    ensures further { distance < result }
    ensures inside { (d : ℕ) → distance ≤ d → d < result → IsHalfInside block.now (point_along points.now d) }
{
    let from = points[cursor.segment];
    let to = points[cursor.segment + 1];
    let end = cursor.begin + segment_length(from, to);
    distance + room_in_block(block, from, to, at).min(end - distance)
}

/// What is seen at an even distance, on the cursor's segment.
pub fn see(map: &FreeMap, points: &[Half], cursor: Cursor, distance: u64) -> Look
    requires road { IsRoad map.now.blocks map.now.die points.now }
    requires even { (half : ℕ) × (distance ≡ 2 * half) }
    requires cursor { IsCursor points.now cursor }
    requires here { cursor.begin ≤ distance }
    requires inside { distance < path_length points.now }
    requires within { cursor.segment + 1 < length points.now }
    requires before_end { (p q : Half) → distance < cursor.begin
        + manhattan_of (slice_index_or points.now cursor.segment p) (slice_index_or points.now (cursor.segment + 1) q) }
    ensures { IsSeen map.now.blocks map.now.die points.now distance result }
{
    let at = point_at(points, cursor, distance);
    match map.block_around(at) {
        Some(block) => Look::Blocked {
            until: blocked_until(points, cursor, distance, &block, at),
        },
        None => Look::Free {
            place: place_of(at),
        },
    }
}

/// The place at a point whose coordinates have an even sum.
fn place_of(at: Half) -> Spot
    requires range { IsHalfInRange at }
    requires even { IsEven at 0 }
    ensures { point_of result ≡ at }
{
    match spot_of_half(at) {
        Some(place) => place,
        None => unreachable!(),
    }
}
