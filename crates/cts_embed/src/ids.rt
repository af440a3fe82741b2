//! The ids of the leaves' sinks, which are looked up before the pass that hands them out.

ghost use Rattle.std.specs.Prelude.{◌≡◌, ℕ, List, ◌++◌, length, IfOk};
ghost use Rattle.cts_topo.specs.Shape.{IsShapeOver};
ghost use Rattle.cts_embed.specs.Leaves.{ids_of_leaves, own_ids};

use cts_num::NoMemory;
use cts_topo::ShapeNode;
use cts_units::Sink;
use std::alloc::Global;

/// The ids of the sinks in the order of the leaves that name them. They are looked up before the pass, since each
/// look-up goes far in memory, and a node that waits for one takes far longer.
pub(crate) fn ids_of_leaves(
    alloc: Global,
    sinks: &[Sink],
    nodes: &[ShapeNode],
) -> Result<Vec<u32>, NoMemory>
    requires shape { IsShapeOver (length sinks.now) nodes.now }
    ensures { IfOk result (λ ids. ids.items ≡ ids_of_leaves sinks.now nodes.now) }
{
    let mut ids: Vec<u32> = Vec::with_capacity(alloc, sinks.len())?;
    for node in nodes {
        match *node {
            ShapeNode::Leaf { sink } => ids.push(sinks[sink as usize].id)?,
            ShapeNode::Pair { .. } => {}
        }
    }
    Ok(ids)
}

/// The id of a leaf's sink, taken from the end of the ids that are left; 0 at a pair, which has none.
pub(crate) fn take_id(ids: &mut Vec<u32>, node: ShapeNode) -> u32
    requires own { (left : List ℕ) × (id : ℕ) × (ids.old.items ≡ left ++ own_ids node id) }
    ensures { ids.old.items ≡ ids.new.items ++ own_ids node result }
{
    match node {
        ShapeNode::Leaf { .. } => {
            let Some(id) = ids.pop() else { unreachable!() };
            id
        }
        ShapeNode::Pair { .. } => 0,
    }
}
