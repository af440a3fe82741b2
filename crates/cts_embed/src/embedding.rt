//! The pass from the root down: places and routes.

ghost use Rattle.std.specs.Prelude.{length, IfOk, IfErr};
ghost use Rattle.cts_topo.specs.Shape.{IsShapeOver};
ghost use Rattle.cts_up.specs.Plan.{IsPlan};
ghost use Rattle.cts_up.specs.Sites.{AreSites};
ghost use Rattle.cts_embed.specs.Ends.{EmbedEnds};
ghost use Rattle.cts_embed.specs.Fitting.{Fits};
ghost use Rattle.cts_embed.specs.PlacedTree.{IsPlacedTree};
ghost use Rattle.cts_embed.specs.Prepared.{IsGroundOf};

use crate::end::EmbedEnd;
use crate::ground::Ground;
use crate::ids::{ids_of_leaves, take_id};
use crate::placing::{ground_of, place_node, source_place};
use cts_instance::Instance;
use cts_merge::Finished;
use cts_route::RouteEnd;
use cts_topo::{Shape, ShapeNode};
use cts_tree::{Placed, TreeNode};
use cts_up::{Site, site_of};
use std::alloc::Global;
use std::collections::VecDeque;

/// The placed nodes of a shape. They are placed from the last to the first, and no other is looked at on the way: where
/// the routes to a pair's two parts start waits on a stack until they are reached.
fn place_nodes(
    alloc: Global,
    instance: &Instance,
    ground: &Ground,
    nodes: &[ShapeNode],
    sites: &[Site],
) -> Result<Vec<TreeNode>, EmbedEnd>
    requires ground { IsGroundOf instance.now ground.now }
    requires shape { IsShapeOver (length instance.now.sinks) nodes.now }
    requires sites { AreSites instance.now.params instance.now.sinks nodes.now sites.now }
    ensures placed { IfOk result (λ placed. IsPlacedTree instance.now nodes.now placed.items) }
    ensures fits { IfOk result (λ placed. Fits instance.now placed.items) }
    ensures ends { IfErr result (EmbedEnds instance.now nodes.now) }
{
    let mut ids = ids_of_leaves(alloc, instance.sinks(), nodes)?;
    let mut starts = Vec::new(alloc);
    starts.push(source_place(instance))?;
    // Once it is full its first node stands at the start of its block, so the `Vec` is that block: no node moves.
    let mut placed = VecDeque::with_capacity(alloc, nodes.len())?;
    for number in (0..nodes.len()).rev() {
        let Some(from) = starts.pop() else {
            unreachable!()
        };
        let id = take_id(&mut ids, nodes[number]);
        let node = match place_node(alloc, ground, nodes[number], id, &sites[number], from) {
            Ok(node) => node,
            Err(RouteEnd::Cut) => {
                return Err(EmbedEnd::Cut {
                    node: number as u32,
                });
            }
            Err(RouteEnd::NoMemory) => return Err(EmbedEnd::NoMemory),
        };
        let place = node.place;
        placed.push_front(node)?;
        if let ShapeNode::Pair { .. } = nodes[number] {
            starts.push(place)?;
            starts.push(place)?;
        }
    }
    Ok(placed.into())
}

/// The placed tree of a shape by its plan: each node with its place and the route to it.
///
/// From the source down, the root and then each part of a pair takes the point of its region that is
/// nearest to the place above it, the least (u, v) among equally near ones. A leaf stands at its sink.
/// A pair whose place isn't free, for its buffer or for wires alone, moves to the nearest free point of
/// whole nm. Answers `Cut` with the greatest number of a node that no route reaches, and `NoMemory`
/// where an allocation fails.
pub fn embed(
    alloc: Global,
    instance: &Instance,
    shape: &Shape,
    plan: &[Finished],
) -> Result<Placed, EmbedEnd>
    requires shape { IsShapeOver (length instance.now.sinks) shape.now }
    requires plan { IsPlan instance.now.params instance.now.sinks shape.now plan.now }
    ensures placed { IfOk result (IsPlacedTree instance.now shape.now) }
    ensures fits { IfOk result (Fits instance.now) }
    ensures ends { IfErr result (EmbedEnds instance.now shape.now) }
{
    let mut sites = Vec::with_capacity(alloc, plan.len())?;
    for finished in plan {
        sites.push(site_of(finished))?;
    }
    embed_sites(alloc, instance, shape, sites.as_slice())
}

/// The placed tree of a shape by the sites of its plan, as [`embed`] gives it: nothing else of a plan has a part in it.
pub fn embed_sites(
    alloc: Global,
    instance: &Instance,
    shape: &Shape,
    sites: &[Site],
) -> Result<Placed, EmbedEnd>
    requires shape { IsShapeOver (length instance.now.sinks) shape.now }
    requires sites { AreSites instance.now.params instance.now.sinks shape.now sites.now }
    ensures placed { IfOk result (IsPlacedTree instance.now shape.now) }
    ensures fits { IfOk result (Fits instance.now) }
    ensures ends { IfErr result (EmbedEnds instance.now shape.now) }
{
    let ground = ground_of(alloc, instance)?;
    let placed = place_nodes(alloc, instance, &ground, shape.nodes(), sites)?;
    Ok(Placed::of(placed))
}
