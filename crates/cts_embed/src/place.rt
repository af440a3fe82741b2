//! The node of a number, placed by itself.

ghost use Rattle.std.specs.Prelude.{◌≡◌, ℕ, ◌<◌, length, slice_index_or, IfOk, IfErr};
ghost use Rattle.cts_topo.specs.declared.shape.ShapeNode.{ShapeNode};
ghost use Rattle.cts_topo.specs.declared.shape.ShapeNode.TheVariants.{Leaf};
ghost use Rattle.cts_embed.specs.Leaves.{IsIdOf};
ghost use Rattle.cts_embed.specs.Prepared.{IsGroundOf};
ghost use Rattle.cts_embed.specs.Stretches.{IsPlacedAt, IsReady, StretchEnds};

use crate::end::EmbedEnd;
use crate::ground::Ground;
use crate::placing::place_node;
use cts_geom::Spot;
use cts_instance::Instance;
use cts_route::RouteEnd;
use cts_topo::ShapeNode;
use cts_tree::TreeNode;
use cts_up::Site;
use std::alloc::Global;

/// The node of a number, placed from the place where its route starts.
pub fn place_at(
    alloc: Global,
    instance: &Instance,
    ground: &Ground,
    nodes: &[ShapeNode],
    sites: &[Site],
    number: u32,
    from: Spot,
) -> Result<TreeNode, EmbedEnd>
    requires ground { IsGroundOf instance.now ground.now }
    requires ready { IsReady instance.now nodes.now sites.now number from }
    ensures placed { IfOk result (IsPlacedAt instance.now nodes.now number) }
    ensures ends { IfErr result (StretchEnds instance.now nodes.now number number) }
{
    let id = id_of(instance, nodes[number as usize]);
    place_known(alloc, instance, ground, nodes, sites, number, id, from)
}

/// The same, where the id of a leaf's sink is known.
pub fn place_known(
    alloc: Global,
    instance: &Instance,
    ground: &Ground,
    nodes: &[ShapeNode],
    sites: &[Site],
    number: u32,
    id: u32,
    from: Spot,
) -> Result<TreeNode, EmbedEnd>
    requires ground { IsGroundOf instance.now ground.now }
    requires ready { IsReady instance.now nodes.now sites.now number from }
    requires id { (e : ShapeNode) → IsIdOf instance.now.sinks (slice_index_or nodes.now number e) id }
    ensures placed { IfOk result (IsPlacedAt instance.now nodes.now number) }
    ensures ends { IfErr result (StretchEnds instance.now nodes.now number number) }
{
    let node = nodes[number as usize];
    match place_node(alloc, ground, node, id, &sites[number as usize], from) {
        Ok(placed) => Ok(placed),
        Err(RouteEnd::Cut) => Err(EmbedEnd::Cut { node: number }),
        Err(RouteEnd::NoMemory) => Err(EmbedEnd::NoMemory),
    }
}

/// The id of a leaf's sink; 0 at a pair, which has none.
fn id_of(instance: &Instance, node: ShapeNode) -> u32
    requires { (sink : ℕ) → node ≡ Leaf sink → sink < length instance.now.sinks }
    ensures { IsIdOf instance.now.sinks node result }
{
    match node {
        ShapeNode::Leaf { sink } => instance.sinks()[sink as usize].id,
        ShapeNode::Pair { .. } => 0,
    }
}
