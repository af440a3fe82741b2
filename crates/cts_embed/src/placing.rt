//! The place of one node, and the route to it.

ghost use Rattle.std.specs.Prelude.{◌≡◌, List, Some, IfOk, Err};
ghost use Rattle.cts_geom.specs.Points.{IsSpotInRange, spot_at};
ghost use Rattle.cts_geom.specs.Regions.{IsRegionInRange};
ghost use Rattle.cts_merge.specs.Merge.{IsLeaf};
ghost use Rattle.cts_merge.specs.declared.side.Finished.{Finished};
ghost use Rattle.cts_up.specs.Sites.{site_of};
ghost use Rattle.cts_units.specs.declared.params.Sink.{Sink};
ghost use Rattle.cts_embed.specs.Leaves.{IsIdOf, IsLeafOf};
ghost use Rattle.cts_embed.specs.PlacedTree.{IsCutFrom, IsPlacedFrom};
ghost use Rattle.cts_instance.specs.declared.parts.Parts.{Parts};
ghost use Rattle.cts_embed.specs.Prepared.{IsFreeMapOf, IsGroundOf};
ghost use Rattle.cts_embed.specs.Places.{IsPairPlace, IsNodePlace, kind_of, source_of};
ghost use Rattle.cts_instance.specs.Validity.{IsValid};

use crate::ground::Ground;
use cts_block::FreeMap;
use cts_geom::{Spot, nearest, spot_of};
use cts_instance::Instance;
use cts_num::NoMemory;
use cts_route::{Grid, RouteEnd};
use cts_topo::ShapeNode;
use cts_tree::{NodeKind, TreeNode};
use cts_up::Site;
use std::alloc::Global;

/// The place of the clock source.
pub fn source_place(instance: &Instance) -> Spot
    ensures place { result ≡ source_of instance.now }
    ensures valid { IsValid instance.now }
{
    spot_of(instance.source_x(), instance.source_y())
}

/// Prepares an instance.
pub fn ground_of(alloc: Global, instance: &Instance) -> Result<Ground, NoMemory>
    ensures { IfOk result (IsGroundOf instance.now) }
{
    let blocks = instance.blocks();
    let die = instance.die();
    Ok(Ground {
        free: FreeMap::of(alloc, blocks, &die)?,
        grid: Grid::of(alloc, blocks, &die)?,
    })
}

/// The final place of a pair, seen from a place above it.
fn pair_place(free: &FreeMap, pair: &Site, from: Spot) -> Spot
    requires free { (parts : Parts) × IsFreeMapOf parts free.now }
    requires region { IsRegionInRange pair.now.region }
    requires from { IsSpotInRange from }
    ensures place { (parts : Parts) (finished : Finished) → IsFreeMapOf parts free.now → site_of finished ≡ pair.now
        → IsPairPlace parts finished from result }
    ensures in_range { IsSpotInRange result }
{
    let first = nearest(&pair.region, from);
    free.nearest_free(first, pair.buffer.is_some())
}

/// The place of a leaf, which is the only spot of its region. The sink has it too, but would have to be waited for.
fn leaf_place(leaf: &Site) -> Spot
    requires { IsRegionInRange leaf.now.region }
    ensures place { (sink : Sink) (finished : Finished) → site_of finished ≡ leaf.now → IsLeaf sink finished
        → result ≡ spot_at sink.x sink.y }
    ensures in_range { IsSpotInRange result }
{
    let region = leaf.region;
    Spot {
        u: region.u1,
        v: region.v1,
    }
}

/// What a node is, with the id of a leaf's sink, and its final place.
fn stand(free: &FreeMap, node: ShapeNode, id: u32, site: &Site, from: Spot) -> (NodeKind, Spot)
    requires free { (parts : Parts) × IsFreeMapOf parts free.now }
    requires region { IsRegionInRange site.now.region }
    requires from { IsSpotInRange from }
    ensures kind { (sinks : List Sink) (finished : Finished) → site_of finished ≡ site.now → IsIdOf sinks node id
        → kind_of sinks node finished.buffer ≡ Some result.0 }
    ensures place { (parts : Parts) (finished : Finished) → site_of finished ≡ site.now → IsFreeMapOf parts free.now
        → IsLeafOf parts.sinks node finished → IsNodePlace parts node finished from result.1 }
    ensures in_range { IsSpotInRange result.1 }
{
    match node {
        ShapeNode::Leaf { sink } => (NodeKind::Leaf { id, sink }, leaf_place(site)),
        ShapeNode::Pair { left, right } => {
            let buffer = site.buffer;
            let place = pair_place(free, site, from);
            (
                NodeKind::Pair {
                    left,
                    right,
                    buffer,
                },
                place,
            )
        }
    }
}

/// A node of a shape, with the id of a leaf's sink, placed from the place where its route starts; or why there is no
/// route.
pub fn place_node(
    alloc: Global,
    ground: &Ground,
    node: ShapeNode,
    id: u32,
    site: &Site,
    from: Spot,
) -> Result<TreeNode, RouteEnd>
    requires ground { (parts : Parts) × IsGroundOf parts ground.now }
    requires region { IsRegionInRange site.now.region }
    requires from { IsSpotInRange from }
    ensures placed { IfOk result (λ placed. (parts : Parts) (finished : Finished) → site_of finished ≡ site.now
        → IsGroundOf parts ground.now → IsIdOf parts.sinks node id → IsLeafOf parts.sinks node finished
        → IsPlacedFrom parts node finished from placed) }
    ensures cut { result ≡ Err RouteEnd.Cut → (parts : Parts) (finished : Finished) → site_of finished ≡ site.now
        → IsGroundOf parts ground.now → IsLeafOf parts.sinks node finished → IsCutFrom parts node finished from }
{
    let (kind, place) = stand(&ground.free, node, id, site, from);
    let route = ground.grid.route(alloc, from, place)?;
    Ok(TreeNode {
        kind,
        place,
        wire: 0,
        route,
    })
}
