//! What the leaves of a shape have of their sinks.

ghost use Rattle.std.specs.Prelude.{length, IfOk};
ghost use Rattle.cts_topo.specs.Shape.{IsShapeOver};
ghost use Rattle.cts_embed.specs.LeafLists.{AreLeavesOf, AreNone};

use cts_elmore::Pin;
use cts_instance::Instance;
use cts_num::NoMemory;
use cts_topo::{Shape, ShapeNode};
use std::alloc::Global;

/// What the leaves' sinks are asked for later.
#[derive(Drop)]
pub struct Leaves {
    /// Their ids, each at the number of its leaf; 0 at a pair, which has none.
    pub ids: Vec<u32>,
    /// Their pins, in the order of the leaves.
    pub pins: Vec<Pin>,
}

/// Lists without items, reserved for what [`leaves_for`] lists of a shape of so many nodes. Answers `NoMemory` where an
/// allocation fails.
pub fn leaves_room(alloc: Global, nodes: usize) -> Result<Leaves, NoMemory>
    ensures { IfOk result AreNone }
{
    Ok(Leaves {
        ids: Vec::with_capacity(alloc, nodes)?,
        pins: Vec::with_capacity(alloc, nodes.div_ceil(2))?,
    })
}

/// The ids and the pins of the leaves' sinks, from one pass over the shape. They are looked up before the nodes are placed,
/// since each look-up goes far in memory, and a node that waits for one takes far longer; a placed tree of the shape has
/// these pins, as `cts_elmore::pins` lists them. They go into lists without items: those that are reserved for the shape take
/// no memory here. Answers `NoMemory` where an allocation fails.
pub fn leaves_for(room: Leaves, instance: &Instance, shape: &Shape) -> Result<Leaves, NoMemory>
    requires shape { IsShapeOver (length instance.now.sinks) shape.now }
    requires none { AreNone room }
    ensures { IfOk result (AreLeavesOf instance.now shape.now) }
{
    let (sinks, nodes) = (instance.sinks(), shape.nodes());
    let Leaves { mut ids, mut pins } = room;
    for node in nodes {
        match *node {
            ShapeNode::Leaf { sink } => {
                let named = sinks[sink as usize];
                ids.push(named.id)?;
                pins.push(Pin {
                    cap: named.cap,
                    offset: named.offset,
                })?;
            }
            ShapeNode::Pair { .. } => ids.push(0)?,
        }
    }
    Ok(Leaves { ids, pins })
}
