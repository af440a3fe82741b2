//! The nodes of a shape, in post-order.

use std::marker::Model;

/// A node of a shape.
#[derive(Clone, Copy, Debug, PartialEq, Eq)]
pub enum ShapeNode {
    /// A sink, by its place in the list of sinks.
    Leaf { sink: u32 },
    /// A pair of two parts, by the numbers of their last nodes.
    Pair { left: u32, right: u32 },
}

/// A binary tree as the list of its nodes in post-order: all of the left part, all of the right
/// part, then the node above them. Contracts see the list.
#[derive(Drop)]
pub struct Shape {
    nodes: Vec<ShapeNode>,
}

impl Model for Shape {
    ghost use Rattle.std.specs.Prelude.{List, map};
    ghost use Rattle.cts_postorder.specs.PostOrder.{IsPostOrder};
    ghost use Rattle.cts_topo.specs.declared.shape.ShapeNode.{ShapeNode};
    ghost use Rattle.cts_topo.specs.Shape.{children};

    ghost Value = { List ShapeNode };

    ghost view = { λ shape. shape.nodes.items };

    ghost invariant = { λ shape. IsPostOrder (map children shape.nodes.items) };
}

impl Shape {
    ghost use Rattle.std.specs.Prelude.{◌≡◌, map};
    ghost use Rattle.cts_postorder.specs.PostOrder.{IsPostOrder};
    ghost use Rattle.cts_topo.specs.Shape.{children};

    /// A shape of nodes that are in post-order.
    pub fn of(nodes: Vec<ShapeNode>) -> Shape
        requires { IsPostOrder (map children nodes.items) }
        ensures { result ≡ nodes.items }
    {
        Shape { nodes }
    }

    /// The nodes in post-order. The last one is the root.
    pub fn nodes(&self) -> &[ShapeNode]
        ensures nodes { result.now ≡ self.now }
        ensures post_order { IsPostOrder (map children self.now) }
    {
        self.nodes.as_slice()
    }
}
