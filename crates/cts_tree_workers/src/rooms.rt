//! Rooms in which workers write a tree.

ghost use Rattle.std.specs.Prelude.{◌≡◌, IfOk};
ghost use Rattle.cts_tree_workers.specs.Rooms.{AreEmpty, AreFor};

use crate::figures::figures_room;
use cts_elmore::NodeFigure;
use cts_embed::{Leaves, leaves_for, leaves_room};
use cts_instance::Instance;
use cts_num::NoMemory;
use cts_shape_workers::room_for;
use cts_topo::Shape;
use cts_tree::TreeNode;
use std::alloc::Global;

/// The rooms of a tree's lists: its nodes and their figures, and what its leaves have of their sinks.
#[derive(Drop)]
pub struct Rooms {
    pub(crate) nodes: Vec<TreeNode>,
    pub(crate) figures: Vec<NodeFigure>,
    pub(crate) leaves: Leaves,
}

/// Rooms that are empty, reserved for so many nodes. They are reserved by the thread that asks for them first, whose heap has
/// large pages, and filled by another one.
pub(crate) fn reserve(alloc: Global, count: usize) -> Result<Rooms, NoMemory>
    ensures { IfOk result AreEmpty }
{
    Ok(Rooms {
        nodes: Vec::with_capacity(alloc, count)?,
        figures: Vec::with_capacity(alloc, count)?,
        leaves: leaves_room(alloc, count)?,
    })
}

/// The same rooms, with a place for each of so many nodes in the lists of nodes.
pub(crate) fn fill(rooms: Rooms, count: usize) -> Result<Rooms, NoMemory>
    requires { AreEmpty rooms }
    ensures { IfOk result (AreFor count) }
{
    Ok(Rooms {
        nodes: room_for(rooms.nodes, count)?,
        figures: figures_room(rooms.figures, count)?,
        leaves: rooms.leaves,
    })
}

impl Rooms {
    ghost use Rattle.std.specs.Prelude.{length};
    ghost use Rattle.cts_topo.specs.Shape.{IsShapeOver};
    ghost use Rattle.cts_tree_workers.specs.Rooms.{AreReady};

    /// The rooms with the lists of what the leaves of a shape have of their sinks. `NoMemory` comes where an allocation
    /// fails.
    pub fn with_leaves(self, instance: &Instance, shape: &Shape) -> Result<Rooms, NoMemory>
        requires shape { IsShapeOver (length instance.now.sinks) shape.now }
        requires rooms { AreFor (length shape.now) self }
        ensures { IfOk result (AreReady instance.now shape.now) }
    {
        Ok(Rooms {
            nodes: self.nodes,
            figures: self.figures,
            leaves: leaves_for(self.leaves, instance, shape)?,
        })
    }
}
