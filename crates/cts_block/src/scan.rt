//! The search among the blocks of a slice, which takes no memory.
ghost use Rattle.std.specs.Prelude.{◌↔◌, All, IsTrue};
ghost use Rattle.cts_geom.specs.Points.{IsSpotInRange};
ghost use Rattle.cts_block.specs.declared.blocks.Block.{Block};
ghost use Rattle.cts_block.specs.declared.whole.Whole.{Whole};
ghost use Rattle.cts_block.specs.NearestFree.{IsDieInRange, LiesIn, IsFree, IsNearestFree};
ghost use Rattle.cts_block.specs.Search.{IsPlaceInRange, IsFreeAmong, IsAhead, IsOnEdge, IsObstacle, Stops};

use crate::blocks::{Block, Kind};
use crate::distance::closest_columns;
use crate::free::{free_for_buffer, free_for_wire, is_half_inside};
use crate::obstacles::Obstacles;
use crate::search::{first_of_columns, improve_beside};
use crate::whole::Whole;
use cts_geom::{Die, Half, Spot, halves, spot_of};

/// The blocks of a slice that count where a buffer, or else wires alone, is to stand.
#[derive(Clone, Copy)]
struct Scan<'a> {
    blocks: &'a [Block],
    buffered: bool,
}

impl Obstacles for Scan<'_> {
    ghost counts = { λ scan. IsObstacle scan.blocks.now scan.buffered };

    fn covering(&self, point: Half) -> Option<Block> {
        for block in self.blocks {
            if stops(block.kind, self.buffered) && is_half_inside(block, point) {
                return Some(*block);
            }
        }
        None
    }
}

/// Whether blocks of a kind count where a buffer, or else wires alone, is to stand.
pub fn stops(kind: Kind, buffered: bool) -> bool
    ensures { IsTrue result ↔ Stops buffered kind }
{
    buffered || kind.stops_wires()
}

/// The first of a free point and of all free points on the edges of the blocks that count.
fn improve_beside_all(scan: &Scan<'_>, die: &Die, from: Half, start: Whole) -> Whole
    requires die { IsDieInRange die.now }
    requires lie { All (LiesIn die.now) scan.now.blocks.now }
    requires from { IsPlaceInRange from }
    requires start { IsFreeAmong (IsObstacle scan.now.blocks.now scan.now.buffered) die.now start }
    ensures free { IsFreeAmong (IsObstacle scan.now.blocks.now scan.now.buffered) die.now result }
    ensures ahead { IsAhead from result start }
    ensures first { (block : Block) → IsObstacle scan.now.blocks.now scan.now.buffered block
        → (q : Whole) → IsFreeAmong (IsObstacle scan.now.blocks.now scan.now.buffered) die.now q
        → IsOnEdge block q → IsAhead from result q }
{
    let mut best = start;
    for block in scan.blocks {
        if stops(block.kind, scan.buffered) {
            best = improve_beside(scan, die, from, best, block);
        }
    }
    best
}

/// The first of all free points, by the distance from a place, then by x, then by y.
fn first_free(blocks: &[Block], die: &Die, from: Half, buffered: bool) -> Whole
    requires die { IsDieInRange die.now }
    requires lie { All (LiesIn die.now) blocks.now }
    requires from { IsPlaceInRange from }
    ensures free { IsFreeAmong (IsObstacle blocks.now buffered) die.now result }
    ensures first { (q : Whole) → IsFreeAmong (IsObstacle blocks.now buffered) die.now q → IsAhead from result q }
{
    let scan = Scan { blocks, buffered };
    let columns = closest_columns(die, from);
    let near = first_of_columns(&scan, die, from, columns);
    improve_beside_all(&scan, die, from, near)
}

/// Whether a buffer, or else a wire alone, may stand at this point.
fn is_free(blocks: &[Block], die: &Die, at: Spot, buffered: bool) -> bool
    requires { IsSpotInRange at }
    ensures { IsTrue result ↔ IsFree blocks.now die.now buffered at }
{
    if buffered {
        free_for_buffer(blocks, die, at)
    } else {
        free_for_wire(blocks, die, at)
    }
}

/// Where a place moves that isn't free: to the nearest free point of whole nm.
///
/// It stays where it is free for a buffer or, where none is to stand there, for a wire. Otherwise it
/// moves to the free point of whole x and y that is least by its distance from the place, then by
/// x, then by y. There is always one, since no block covers the corners of the die.
pub fn nearest_free(blocks: &[Block], die: &Die, at: Spot, buffered: bool) -> Spot
    requires die { IsDieInRange die.now }
    requires blocks { All (LiesIn die.now) blocks.now }
    requires at { IsSpotInRange at }
    ensures { IsNearestFree blocks.now die.now buffered at result }
{
    if is_free(blocks, die, at, buffered) {
        return at;
    }
    let place = first_free(blocks, die, halves(at), buffered);
    spot_of(place.x, place.y)
}
