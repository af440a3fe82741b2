//! The search for the nearest free point with an index of the blocks.
ghost use Rattle.std.specs.Prelude.{◌≡◌, ◌<◌, ◌≤ℤ◌, All, Contains, IfOk};
ghost use Rattle.std.specs.List.Sorted.{IsNonDecreasingBy};
ghost use Rattle.cts_block.specs.declared.edge.Edge.{Edge};
ghost use Rattle.cts_block.specs.declared.whole.Whole.{Whole};
ghost use Rattle.cts_block.specs.FreePoints.{IsHalfInDie};
ghost use Rattle.cts_block.specs.NearestFree.{IsDieInRange, LiesIn};
ghost use Rattle.cts_block.specs.Search.{IsPlaceInRange, IsFreeAmong, IsAhead, IsClosest, IsOnSide, IsBeyond, columns_of, last_of, half_of};
ghost use Rattle.cts_block.specs.Index.{HoldsSide, IsIndex, edges_of as spec_edges_of};

use crate::blocks::Block;
use crate::distance::closest_columns;
use crate::edge::Edge;
use crate::edges::{edges_on, improve_along, offset_of};
use crate::index::Index;
use crate::raster::Raster;
use crate::search::first_of_columns;
use crate::whole::{Range, Side, Whole};
use cts_geom::{Die, Half};
use cts_list::Items;
use cts_num::NoMemory;
use std::alloc::Global;

/// An index of blocks that lie in a die.
pub fn index_of(alloc: Global, blocks: Vec<Block>, die: &Die) -> Result<Index, NoMemory>
    requires die { IsDieInRange die.now }
    requires blocks { All (LiesIn die.now) blocks.items }
    ensures blocks { IfOk result (λ index. index.raster ≡ blocks.items) }
    ensures index { IfOk result (IsIndex die.now) }
{
    let raster = Raster::of(alloc, blocks, die)?;
    let lefts = edges_on(alloc, &raster, die, Side::Left, raster.blocks())?;
    let rights = edges_on(alloc, &raster, die, Side::Right, raster.blocks())?;
    Ok(Index {
        raster,
        lefts: Items::of(lefts),
        rights: Items::of(rights),
    })
}

/// The exposed edges on one side.
fn edges_of(index: &Index, side: Side) -> &[Edge]
    ensures { result.now ≡ spec_edges_of index.now side }
{
    match side {
        Side::Left => index.lefts.items(),
        Side::Right => index.rights.items(),
    }
}

/// Of the columns that are nearest to a place the one on that side, as its lowest point.
fn last_column(die: &Die, columns: Range, side: Side) -> Whole
    requires ordered { die.now.y1 ≤ℤ die.now.y2 }
    requires low { die.now.x1 ≤ℤ columns.low }
    requires columns { columns.low ≤ℤ columns.high }
    requires high { columns.high ≤ℤ die.now.x2 }
    ensures column { result.x ≡ last_of side columns }
    ensures in_die { IsHalfInDie die.now (half_of result) }
{
    match side {
        Side::Left => Whole {
            x: columns.low,
            y: die.y1,
        },
        Side::Right => Whole {
            x: columns.high,
            y: die.y1,
        },
    }
}

/// The edges with a greater offset than this one.
fn edges_beyond(edges: &[Edge], start: u64) -> &[Edge]
    requires { IsNonDecreasingBy (λ edge. edge.offset) edges.now }
    ensures ordered { IsNonDecreasingBy (λ edge. edge.offset) result.now }
    ensures beyond { All (λ edge. start < edge.offset) result.now }
    ensures sound { (edge : Edge) → Contains result.now edge → Contains edges.now edge }
    ensures complete { (edge : Edge) → Contains edges.now edge → start < edge.offset → Contains result.now edge }
{
    let skipped = edges.partition_point(|edge| edge.offset <= start);
    let (_, beyond) = edges.split_at(skipped);
    beyond
}

/// The first of a free point and of all free points on that side of blocks, beyond the columns that
/// are nearest to a place.
fn improve_on(
    index: &Index,
    die: &Die,
    from: Half,
    near: Whole,
    columns: Range,
    side: Side,
) -> Whole
    requires die { IsDieInRange die.now }
    requires lie { All (LiesIn die.now) index.now.raster }
    requires index { IsIndex die.now index.now }
    requires from { IsPlaceInRange from }
    requires near { IsFreeAmong (Contains index.now.raster) die.now near }
    requires columns { IsClosest (columns_of die.now) from.x columns }
    ensures free { IsFreeAmong (Contains index.now.raster) die.now result }
    ensures ahead { IsAhead from result near }
    ensures first { (q : Whole) → IsFreeAmong (Contains index.now.raster) die.now q → IsBeyond side columns q
        → IsOnSide (Contains index.now.raster) side q → IsAhead from result q }
{
    let start = offset_of(die, side, last_column(die, columns, side));
    let edges = edges_beyond(edges_of(index, side), start);
    improve_along(&index.raster, die, from, near, edges, start)
}

/// The first of all free points, by the distance from a place, then by x, then by y.
pub fn first_free(index: &Index, die: &Die, from: Half) -> Whole
    requires die { IsDieInRange die.now }
    requires lie { All (LiesIn die.now) index.now.raster }
    requires index { IsIndex die.now index.now }
    requires from { IsPlaceInRange from }
    ensures free { IsFreeAmong (Contains index.now.raster) die.now result }
    ensures first { (q : Whole) → IsFreeAmong (Contains index.now.raster) die.now q → IsAhead from result q }
{
    let columns = closest_columns(die, from);
    let near = first_of_columns(&index.raster, die, from, columns);
    let at_left = improve_on(index, die, from, near, columns, Side::Left);
    improve_on(index, die, from, at_left, columns, Side::Right)
}
