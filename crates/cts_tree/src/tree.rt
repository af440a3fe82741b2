//! Trees as lists of nodes in post-order.

use crate::nodes::TreeNode;
use std::marker::Model;

/// A tree whose nodes have places and routes, and whose wires get their lengths later. Contracts see the
/// list of its nodes.
#[derive(Drop)]
pub struct Placed {
    nodes: Vec<TreeNode>,
}

impl Model for Placed {
    ghost use Rattle.std.specs.Prelude.{List, map};
    ghost use Rattle.cts_postorder.specs.PostOrder.{IsPostOrder};
    ghost use Rattle.cts_tree.specs.declared.nodes.TreeNode.{TreeNode};
    ghost use Rattle.cts_tree.specs.Nodes.{tree_children};

    ghost Value = { List TreeNode };

    ghost view = { λ placed. placed.nodes.items };

    ghost invariant = { λ placed. IsPostOrder (map tree_children placed.nodes.items) };
}

impl Placed {
    ghost use Rattle.std.specs.Prelude.{◌≡◌, map};
    ghost use Rattle.cts_postorder.specs.PostOrder.{IsPostOrder};
    ghost use Rattle.cts_tree.specs.Nodes.{tree_children};

    /// A placed tree of nodes that are in post-order.
    pub fn of(nodes: Vec<TreeNode>) -> Placed
        requires { IsPostOrder (map tree_children nodes.items) }
        ensures { result ≡ nodes.items }
    {
        Placed { nodes }
    }

    /// The nodes in post-order. The last one is the root.
    pub fn nodes(&self) -> &[TreeNode]
        ensures nodes { result.now ≡ self.now }
        ensures post_order { IsPostOrder (map tree_children self.now) }
    {
        self.nodes.as_slice()
    }

    /// The nodes in post-order, as a list of their own.
    pub fn into_nodes(self) -> Vec<TreeNode>
        ensures nodes { result.items ≡ self }
        ensures post_order { IsPostOrder (map tree_children self) }
    {
        self.nodes
    }
}

/// A clock tree. Contracts see the list of its nodes.
#[derive(Drop)]
pub struct Tree {
    nodes: Vec<TreeNode>,
}

impl Model for Tree {
    ghost use Rattle.std.specs.Prelude.{List, map};
    ghost use Rattle.cts_postorder.specs.PostOrder.{IsPostOrder};
    ghost use Rattle.cts_tree.specs.declared.nodes.TreeNode.{TreeNode};
    ghost use Rattle.cts_tree.specs.Nodes.{tree_children};

    ghost Value = { List TreeNode };

    ghost view = { λ tree. tree.nodes.items };

    ghost invariant = { λ tree. IsPostOrder (map tree_children tree.nodes.items) };
}

impl Tree {
    ghost use Rattle.std.specs.Prelude.{◌≡◌, map};
    ghost use Rattle.cts_postorder.specs.PostOrder.{IsPostOrder};
    ghost use Rattle.cts_tree.specs.Nodes.{tree_children};

    /// A tree of nodes that are in post-order.
    pub fn of(nodes: Vec<TreeNode>) -> Tree
        requires { IsPostOrder (map tree_children nodes.items) }
        ensures { result ≡ nodes.items }
    {
        Tree { nodes }
    }

    /// The nodes in post-order. The last one is the root.
    pub fn nodes(&self) -> &[TreeNode]
        ensures nodes { result.now ≡ self.now }
        ensures post_order { IsPostOrder (map tree_children self.now) }
    {
        self.nodes.as_slice()
    }
}
