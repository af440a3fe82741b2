//! Blocks in a die, prepared for many look-ups.
ghost use Rattle.std.specs.Prelude.{◌≡◌, ◌↔◌, false, Contains, IfOk, IsTrue};
ghost use Rattle.cts_geom.specs.declared.points.Half.{Half};
ghost use Rattle.cts_block.specs.declared.blocks.Block.{Block};
ghost use Rattle.cts_block.specs.FreePoints.{IsPointInRange, IsHalfInside};
ghost use Rattle.cts_block.specs.Search.{IsObstacle};
ghost use Rattle.cts_block.specs.Index.{index_for as spec_index_for};

use crate::blocks::Block;
use crate::free::is_half_in_die;
use crate::index::Index;
use crate::indexing::{first_free, index_of};
use crate::obstacles::Obstacles;
use crate::scan::stops;
use cts_geom::{Die, Half, Spot, halves, spot_of};
use cts_num::NoMemory;
use std::alloc::Global;
use std::marker::Model;

/// Blocks in a die, prepared for many questions about free points. Contracts see the blocks and the
/// die.
#[derive(Drop)]
pub struct FreeMap {
    die: Die,
    for_wires: Index,
    for_buffers: Index,
}

impl Model for FreeMap {
    ghost use Rattle.cts_block.specs.FreeMap.{Floorplan, IsFreeMap};

    ghost Value = { Floorplan };

    ghost view = { λ map. record { blocks = map.for_buffers.raster; die = map.die } };

    ghost invariant = { λ map. IsFreeMap map.die map.for_wires map.for_buffers };
}

impl FreeMap {
    ghost use Rattle.std.specs.Prelude.{◌≡◌, ◌↔◌, All, Contains, IfNone, IfOk, IfSome, IsTrue};
    ghost use Rattle.cts_geom.specs.Points.{IsSpotInRange, point_of};
    ghost use Rattle.cts_block.specs.FreePoints.{IsHalfInside, IsOpenToBuffers, IsPointInRange};
    ghost use Rattle.cts_block.specs.NearestFree.{IsDieInRange, LiesIn, IsFree, IsNearestFree};

    /// Prepares blocks that lie in a die.
    ///
    /// Answers `NoMemory` where an allocation fails.
    pub fn of(alloc: Global, blocks: &[Block], die: &Die) -> Result<FreeMap, NoMemory>
        requires die { IsDieInRange die.now }
        requires blocks { All (LiesIn die.now) blocks.now }
        ensures blocks { IfOk result (λ map. map.blocks ≡ blocks.now) }
        ensures die { IfOk result (λ map. map.die ≡ die.now) }
    {
        let every = Vec::from_slice(alloc, blocks)?;
        let for_buffers = index_of(alloc, every, die)?;
        let for_wires = index_of(alloc, stopping_wires(alloc, blocks)?, die)?;
        Ok(FreeMap {
            die: *die,
            for_wires,
            for_buffers,
        })
    }

    /// Whether a buffer, or else a wire alone, may stand at this point.
    pub fn is_free(&self, at: Spot, buffered: bool) -> bool
        requires { IsSpotInRange at }
        ensures { IsTrue result ↔ IsFree self.now.blocks self.now.die buffered at }
    {
        let point = halves(at);
        let index = index_for(&self.for_wires, &self.for_buffers, buffered);
        is_half_in_die(&self.die, point) && is_clear(index, point)
    }

    /// Whether this point, in the die or not, lies strictly inside no block of either kind.
    pub fn is_open_to_buffers(&self, at: Spot) -> bool
        requires { IsSpotInRange at }
        ensures { IsTrue result ↔ All (IsOpenToBuffers (point_of at)) self.now.blocks }
    {
        is_clear(&self.for_buffers, halves(at))
    }

    /// A block in which this point, in the die or not, lies strictly inside, or `None` exactly where it lies
    /// strictly inside no block of either kind.
    pub fn block_around(&self, point: Half) -> Option<Block>
        requires { IsPointInRange point }
        ensures found { IfSome result (λ block. Contains self.now.blocks block × IsHalfInside block point) }
        ensures none { IfNone result (All (IsOpenToBuffers point) self.now.blocks) }
    {
        self.for_buffers.raster.covering(point)
    }

    /// Where a place moves that isn't free: to the nearest free point, as the function
    /// [`nearest_free`](crate::nearest_free) finds it.
    pub fn nearest_free(&self, at: Spot, buffered: bool) -> Spot
        requires { IsSpotInRange at }
        ensures { IsNearestFree self.now.blocks self.now.die buffered at result }
    {
        if self.is_free(at, buffered) {
            return at;
        }
        let index = index_for(&self.for_wires, &self.for_buffers, buffered);
        let place = first_free(index, &self.die, halves(at));
        spot_of(place.x, place.y)
    }
}

/// The index of the blocks that count.
fn index_for<'a>(for_wires: &'a Index, for_buffers: &'a Index, buffered: bool) -> &'a Index
    ensures { result.now ≡ spec_index_for for_wires.now for_buffers.now buffered }
{
    if buffered { for_buffers } else { for_wires }
}

/// Whether the point lies strictly inside none of the blocks.
fn is_clear(index: &Index, point: Half) -> bool
    requires { IsPointInRange point }
    ensures { IsTrue result ↔ ((block : Block) → Contains index.now.raster block → ¬ IsHalfInside block point) }
{
    index.raster.covering(point).is_none()
}

/// The blocks that stop wires.
fn stopping_wires(alloc: Global, blocks: &[Block]) -> Result<Vec<Block>, NoMemory>
    ensures sound { IfOk result (λ list. (block : Block) → Contains list.items block → IsObstacle blocks.now false block) }
    ensures complete { IfOk result (λ list. (block : Block) → IsObstacle blocks.now false block → Contains list.items block) }
{
    let mut list = Vec::new(alloc);
    for block in blocks {
        if stops(block.kind, false) {
            list.push(*block)?;
        }
    }
    Ok(list)
}
