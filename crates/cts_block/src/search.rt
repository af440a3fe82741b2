//! The search for the nearest free point: up and down a column, and in columns.
ghost use Rattle.std.specs.Prelude.{◌≡◌, ◌≤ℤ◌};
ghost use Rattle.cts_geom.specs.declared.points.Half.{Half};
ghost use Rattle.cts_block.specs.declared.blocks.Block.{Block};
ghost use Rattle.cts_block.specs.declared.whole.Whole.{Whole};
ghost use Rattle.cts_block.specs.FreePoints.{IsHalfInDie};
ghost use Rattle.cts_block.specs.NearestFree.{IsDieInRange, LiesIn};
ghost use Rattle.cts_block.specs.Search.{IsPlaceInRange, IsFreeAmong, IsAhead, IsClosest, IsOn, IsOnEdge, IsSegmentIn, columns_of};
ghost use Rattle.cts_block.specs.Search.{half_of as spec_half_of};

use crate::blocks::Block;
use crate::distance::{
    closest_rows, first_of_two, half_of, least_reach, left_edge, reach, right_edge,
};
use crate::obstacles::Obstacles;
use crate::whole::{Range, Segment, Whole};
use cts_geom::{Die, Half};

/// The first free point from `from` on upward.
pub fn rise<O: Obstacles>(obstacles: &O, die: &Die, from: Whole) -> Whole
    requires die { IsDieInRange die.now }
    requires lie { (block : Block) → O.counts obstacles.now block → LiesIn die.now block }
    requires in_die { IsHalfInDie die.now (spec_half_of from) }
    ensures free { IsFreeAmong (O.counts obstacles.now) die.now result }
    ensures column { result.x ≡ from.x }
    ensures above { from.y ≤ℤ result.y }
    ensures first { (q : Whole) → IsFreeAmong (O.counts obstacles.now) die.now q
        → q.x ≡ from.x → from.y ≤ℤ q.y → result.y ≤ℤ q.y }
{
    let mut at = from;
    while let Some(block) = obstacles.covering(half_of(at)) {
        at.y = block.y2;
    }
    at
}

/// The first free point from `from` on downward.
pub fn fall<O: Obstacles>(obstacles: &O, die: &Die, from: Whole) -> Whole
    requires die { IsDieInRange die.now }
    requires lie { (block : Block) → O.counts obstacles.now block → LiesIn die.now block }
    requires in_die { IsHalfInDie die.now (spec_half_of from) }
    ensures free { IsFreeAmong (O.counts obstacles.now) die.now result }
    ensures column { result.x ≡ from.x }
    ensures below { result.y ≤ℤ from.y }
    ensures first { (q : Whole) → IsFreeAmong (O.counts obstacles.now) die.now q
        → q.x ≡ from.x → q.y ≤ℤ from.y → q.y ≤ℤ result.y }
{
    let mut at = from;
    while let Some(block) = obstacles.covering(half_of(at)) {
        at.y = block.y1;
    }
    at
}

/// The first free point of a column by the distance from a place, then by y.
#[tactic(auto, using(crate::proofs::SearchLemmas::range_in_die))]
fn first_in_column<O: Obstacles>(obstacles: &O, die: &Die, from: Half, column: Whole) -> Whole
    requires die { IsDieInRange die.now }
    requires lie { (block : Block) → O.counts obstacles.now block → LiesIn die.now block }
    requires from { IsPlaceInRange from }
    requires column { IsHalfInDie die.now (spec_half_of column) }
    ensures free { IsFreeAmong (O.counts obstacles.now) die.now result }
    ensures first { (q : Whole) → IsFreeAmong (O.counts obstacles.now) die.now q
        → q.x ≡ column.x → IsAhead from result q }
{
    let start = closest_rows(die, from);
    let mut low = column;
    low.y = start.low;
    let mut high = column;
    high.y = start.high;
    let below = fall(obstacles, die, low);
    let above = rise(obstacles, die, high);
    first_of_two(from, below, above)
}

/// The first free point of two columns.
#[tactic(auto, using(crate::proofs::SearchLemmas::range_in_die))]
pub fn first_of_columns<O: Obstacles>(obstacles: &O, die: &Die, from: Half, columns: Range) -> Whole
    requires die { IsDieInRange die.now }
    requires lie { (block : Block) → O.counts obstacles.now block → LiesIn die.now block }
    requires from { IsPlaceInRange from }
    requires columns { IsClosest (columns_of die.now) from.x columns }
    ensures free { IsFreeAmong (O.counts obstacles.now) die.now result }
    ensures low { (q : Whole) → IsFreeAmong (O.counts obstacles.now) die.now q
        → q.x ≡ columns.low → IsAhead from result q }
    ensures high { (q : Whole) → IsFreeAmong (O.counts obstacles.now) die.now q
        → q.x ≡ columns.high → IsAhead from result q }
{
    let mut column = Whole {
        x: columns.low,
        y: die.y1,
    };
    let low = first_in_column(obstacles, die, from, column);
    column.x = columns.high;
    let high = first_in_column(obstacles, die, from, column);
    first_of_two(from, low, high)
}

/// The first of a free point and of all free points of a segment.
#[tactic(auto, using(crate::proofs::SearchLemmas::range_in_die))]
pub fn improve<O: Obstacles>(
    obstacles: &O,
    die: &Die,
    from: Half,
    best: Whole,
    segment: Segment,
) -> Whole
    requires die { IsDieInRange die.now }
    requires lie { (block : Block) → O.counts obstacles.now block → LiesIn die.now block }
    requires from { IsPlaceInRange from }
    requires best { IsFreeAmong (O.counts obstacles.now) die.now best }
    requires segment { IsSegmentIn die.now segment }
    ensures free { IsFreeAmong (O.counts obstacles.now) die.now result }
    ensures ahead { IsAhead from result best }
    ensures first { (q : Whole) → IsFreeAmong (O.counts obstacles.now) die.now q
        → IsOn segment q → IsAhead from result q }
{
    if reach(from, best) < least_reach(from, segment) {
        return best;
    }
    first_of_two(
        from,
        best,
        first_in_column(obstacles, die, from, segment.bottom),
    )
}

/// The first of a free point and of all free points on the left and the right edge of a block.
pub fn improve_beside<O: Obstacles>(
    obstacles: &O,
    die: &Die,
    from: Half,
    best: Whole,
    block: &Block,
) -> Whole
    requires die { IsDieInRange die.now }
    requires lie { (block : Block) → O.counts obstacles.now block → LiesIn die.now block }
    requires from { IsPlaceInRange from }
    requires best { IsFreeAmong (O.counts obstacles.now) die.now best }
    requires block { LiesIn die.now block.now }
    ensures free { IsFreeAmong (O.counts obstacles.now) die.now result }
    ensures ahead { IsAhead from result best }
    ensures first { (q : Whole) → IsFreeAmong (O.counts obstacles.now) die.now q
        → IsOnEdge block.now q → IsAhead from result q }
{
    let at_left = improve(obstacles, die, from, best, left_edge(block));
    improve(obstacles, die, from, at_left, right_edge(block))
}
