//! The edges of blocks along which points are free, in the order of their distance from a side of the die.
ghost use Rattle.std.specs.Prelude.{◌≡◌, ◌+◌, ◌*◌, ◌^◌, ◌<◌, ◌≤◌, pos, ◌-ℤ◌, ◌≤ℤ◌, ◌<ℤ◌, All, Contains, IfOk, IfSome, IsSomeAnd};
ghost use Rattle.std.specs.List.Sorted.{IsNonDecreasingBy};
ghost use Rattle.cts_geom.specs.Points.{manhattan_of};
ghost use Rattle.cts_block.specs.declared.blocks.Block.{Block};
ghost use Rattle.cts_block.specs.declared.whole.Whole.{Whole};
ghost use Rattle.cts_block.specs.NearestFree.{IsDieInRange, LiesIn};
ghost use Rattle.cts_block.specs.FreePoints.{IsHalfInDie};
ghost use Rattle.cts_block.specs.Search.{IsPlaceInRange, IsFreeAmong, IsAhead, IsOn, IsOnSide, IsOffset, IsSegmentIn};
ghost use Rattle.cts_block.specs.Search.{half_of as spec_half_of, edge_of as spec_edge_of};
ghost use Rattle.cts_block.specs.Index.{IsEdge, IsExposed, IsExposedIn, HasEdge};

use crate::blocks::Block;
use crate::distance::{left_edge, reach, right_edge};
use crate::edge::Edge;
use crate::obstacles::Obstacles;
use crate::search::{fall, improve, rise};
use crate::whole::{Segment, Side, Whole};
use cts_geom::{Die, Half};
use cts_num::NoMemory;
use std::alloc::Global;

/// The part of a segment from its first to its last free point, if there is one.
pub fn exposed<O: Obstacles>(obstacles: &O, die: &Die, segment: Segment) -> Option<Segment>
    requires die { IsDieInRange die.now }
    requires lie { (block : Block) → O.counts obstacles.now block → LiesIn die.now block }
    requires segment { IsSegmentIn die.now segment }
    ensures in_die { IfSome result (IsSegmentIn die.now) }
    ensures column { IfSome result (λ part. part.bottom.x ≡ segment.bottom.x) }
    ensures bottom_free { IfSome result (λ part.
        IsFreeAmong (O.counts obstacles.now) die.now part.bottom) }
    ensures bottom_on { IfSome result (λ part. IsOn segment part.bottom) }
    ensures top_free { IfSome result (λ part.
        IsFreeAmong (O.counts obstacles.now) die.now part.top) }
    ensures top_on { IfSome result (λ part. IsOn segment part.top) }
    ensures whole { (q : Whole) → IsFreeAmong (O.counts obstacles.now) die.now q → IsOn segment q
        → IsSomeAnd result (λ part. IsOn part q) }
{
    let bottom = rise(obstacles, die, segment.bottom);
    let top = fall(obstacles, die, segment.top);
    if top.y < bottom.y {
        return None;
    }
    Some(Segment { bottom, top })
}

/// The first of a free point and of all free points on these edges, which come in the order of
/// their offsets and are all further away than `start`.
///
/// Stops at the first edge that is further away than the best point.
pub fn improve_along<O: Obstacles>(
    obstacles: &O,
    die: &Die,
    from: Half,
    near: Whole,
    edges: &[Edge],
    start: u64,
) -> Whole
    requires die { IsDieInRange die.now }
    requires lie { (block : Block) → O.counts obstacles.now block → LiesIn die.now block }
    requires from { IsPlaceInRange from }
    requires near { IsFreeAmong (O.counts obstacles.now) die.now near }
    requires in_die { All (λ edge. IsSegmentIn die.now edge.segment) edges.now }
    requires ordered { IsNonDecreasingBy (λ edge. edge.offset) edges.now }
    requires beyond { All (λ edge. start ≤ edge.offset) edges.now }
    requires within { All (λ edge. edge.offset ≤ 2 ^ 41) edges.now }
    requires far { All (λ edge. (q : Whole) → IsOn edge.segment q
        → 2 * edge.offset ≤ manhattan_of from (spec_half_of q) + 2 * start) edges.now }
    ensures free { IsFreeAmong (O.counts obstacles.now) die.now result }
    ensures ahead { IsAhead from result near }
    ensures first { All (λ edge. (q : Whole) → IsFreeAmong (O.counts obstacles.now) die.now q
        → IsOn edge.segment q → IsAhead from result q) edges.now }
{
    let mut best = near;
    for edge in edges {
        if reach(from, best) < 2 * (edge.offset - start) {
            return best;
        }
        best = improve(obstacles, die, from, best, edge.segment);
    }
    best
}

/// That edge of a block.
fn edge_of(block: &Block, side: Side) -> Segment
    ensures bottom { result.bottom ≡ record { x = spec_edge_of side block.now; y = block.now.y1 } }
    ensures top { result.top ≡ record { x = spec_edge_of side block.now; y = block.now.y2 } }
{
    match side {
        Side::Left => left_edge(block),
        Side::Right => right_edge(block),
    }
}

/// How far a point of the die is from the other side of it, in nm.
pub fn offset_of(die: &Die, side: Side, p: Whole) -> u64
    requires die { IsDieInRange die.now }
    requires p { IsHalfInDie die.now (spec_half_of p) }
    ensures value { IsOffset side die.now p.x result }
    ensures bound { result ≤ 2 ^ 41 }
{
    match side {
        Side::Left => die.x2.abs_diff(p.x),
        Side::Right => p.x.abs_diff(die.x1),
    }
}

/// The exposed part of that edge of a block, if there is one.
fn exposed_edge<O: Obstacles>(obstacles: &O, die: &Die, side: Side, block: &Block) -> Option<Edge>
    requires die { IsDieInRange die.now }
    requires lie { (block : Block) → O.counts obstacles.now block → LiesIn die.now block }
    requires block { LiesIn die.now block.now }
    ensures edge { IfSome result (IsEdge side die.now) }
    ensures exposed { IfSome result (IsExposed (O.counts obstacles.now) side die.now block.now) }
    ensures whole { (q : Whole) → IsFreeAmong (O.counts obstacles.now) die.now q
        → q.x ≡ spec_edge_of side block.now → block.now.y1 ≤ℤ q.y → q.y ≤ℤ block.now.y2
        → IsSomeAnd result (λ edge. IsOn edge.segment q) }
{
    let segment = exposed(obstacles, die, edge_of(block, side))?;
    Some(Edge {
        offset: offset_of(die, side, segment.bottom),
        segment,
    })
}

/// The exposed parts of the edges of all blocks on one side, in the order of their offsets.
pub fn edges_on<O: Obstacles>(
    alloc: Global,
    obstacles: &O,
    die: &Die,
    side: Side,
    blocks: &[Block],
) -> Result<Vec<Edge>, NoMemory>
    requires die { IsDieInRange die.now }
    requires lie { (block : Block) → O.counts obstacles.now block → LiesIn die.now block }
    requires blocks { All (LiesIn die.now) blocks.now }
    requires all { (block : Block) → Contains blocks.now block → O.counts obstacles.now block }
    ensures ordered { IfOk result (λ edges. IsNonDecreasingBy (λ edge. edge.offset) edges.items) }
    ensures edges { IfOk result (λ edges. All (IsEdge side die.now) edges.items) }
    ensures exposed { IfOk result (λ edges.
        All (IsExposedIn (O.counts obstacles.now) side die.now blocks.now) edges.items) }
    ensures complete { IfOk result (λ edges. (q : Whole) → IsFreeAmong (O.counts obstacles.now) die.now q
        → IsOnSide (Contains blocks.now) side q → HasEdge edges.items q) }
{
    let mut edges = Vec::new(alloc);
    for block in blocks {
        match exposed_edge(obstacles, die, side, block) {
            Some(edge) => edges.push(edge)?,
            None => {}
        }
    }
    edges.sort_by_key(|edge| edge.offset)?;
    Ok(edges)
}
