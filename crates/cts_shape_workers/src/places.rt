//! The placed tree of a shape.

ghost use Rattle.std.specs.Prelude.{◌≡◌, [], length, IfOk, IfErr};
ghost use Rattle.cts_topo.specs.Shape.{IsShapeOver};
ghost use Rattle.cts_up.specs.Sites.{AreSites};
ghost use Rattle.cts_embed.specs.Ends.{EmbedEnds};
ghost use Rattle.cts_embed.specs.Fitting.{Fits};
ghost use Rattle.cts_embed.specs.PlacedTree.{IsPlacedTree};
ghost use Rattle.cts_embed.specs.Stretches.{AreIds};

use crate::placing::{Branch, Placing};
use cts_beside::by_halves;
use cts_embed::{EmbedEnd, ground_of, source_place};
use cts_geom::Spot;
use cts_instance::Instance;
use cts_num::NoMemory;
use cts_topo::{Shape, ShapeNode};
use cts_tree::{Corners, NodeKind, Placed, Route, TreeNode};
use cts_up::Site;
use std::alloc::Global;
use std::thread::Threads;

/// So many nodes that are none of a tree yet: the room in which workers place those of one. They go into a list without
/// items, which the caller has reserved: one with room for so many takes no memory here. Answers `NoMemory` where an
/// allocation fails.
pub fn room_for(mut room: Vec<TreeNode>, count: usize) -> Result<Vec<TreeNode>, NoMemory>
    requires { room.items ≡ [] }
    ensures { IfOk result (λ room. length room.items ≡ count) }
{
    for _ in 0..count {
        room.push(no_node())?;
    }
    Ok(room)
}

/// A node that stands for none.
fn no_node() -> TreeNode {
    TreeNode {
        kind: NodeKind::Leaf { id: 0, sink: 0 },
        place: Spot { u: 0, v: 0 },
        wire: 0,
        route: Route {
            corners: Corners::none(),
            length: 0,
        },
    }
}

/// The placed tree of a shape by the sites of its plan, as `cts_embed::embed_sites` gives it, by at most so many workers
/// beside each other. The nodes go into the room, which has one place for each. The ids of their sinks are those that
/// [`leaves_for`](crate::leaves_for) lists.
///
/// Answers `Cut` with the greatest number of a node that no route reaches, and `NoMemory` where an allocation fails; where
/// both happen, either may be told.
pub fn embed_by<R: Threads + Sync>(
    rt: &R,
    alloc: Global,
    workers: u32,
    instance: &Instance,
    shape: &Shape,
    sites: &[Site],
    ids: &[u32],
    mut room: Vec<TreeNode>,
) -> Result<Placed, EmbedEnd>
    requires shape { IsShapeOver (length instance.now.sinks) shape.now }
    requires sites { AreSites instance.now.params instance.now.sinks shape.now sites.now }
    requires ids { AreIds instance.now.sinks shape.now ids.now }
    requires room { length room.items ≡ length shape.now }
    ensures placed { IfOk result (IsPlacedTree instance.now shape.now) }
    ensures fits { IfOk result (Fits instance.now) }
    ensures ends { IfErr result (EmbedEnds instance.now shape.now) }
{
    place_all(
        rt,
        alloc,
        workers,
        instance,
        shape.nodes(),
        sites,
        ids,
        room.as_mut_slice(),
    )?;
    Ok(Placed::of(room))
}

/// The nodes of the placed tree, in a room that has one place for each.
fn place_all<R: Threads + Sync>(
    rt: &R,
    alloc: Global,
    workers: u32,
    instance: &Instance,
    nodes: &[ShapeNode],
    sites: &[Site],
    ids: &[u32],
    out: &mut [TreeNode],
) -> Result<(), EmbedEnd>
    requires shape { IsShapeOver (length instance.now.sinks) nodes.now }
    requires sites { AreSites instance.now.params instance.now.sinks nodes.now sites.now }
    requires ids { AreIds instance.now.sinks nodes.now ids.now }
    requires room { length out.old ≡ length nodes.now }
    ensures placed { IfOk result (λ _. IsPlacedTree instance.now nodes.now out.new) }
    ensures fits { IfOk result (λ _. Fits instance.now out.new) }
    ensures ends { IfErr result (EmbedEnds instance.now nodes.now) }
{
    let ground = ground_of(alloc, instance)?;
    let work = Placing {
        alloc,
        instance,
        ground: &ground,
        nodes,
        sites,
        ids,
    };
    let whole = Branch {
        first: 0,
        root: (nodes.len() - 1) as u32,
        from: source_place(instance),
    };
    by_halves(rt, workers, &work, &whole, out)
}
