//! The nodes of a tree's two parts, and from how many nodes on it has them measured beside each other.

ghost use Rattle.std.specs.Prelude.{◌≡◌, map, IfSome};
ghost use Rattle.cts_postorder.specs.PostOrder.{IsPostOrder};
ghost use Rattle.cts_tree.specs.Nodes.{tree_children};
ghost use Rattle.cts_tree_workers.specs.Measuring.{IsSplit};

use cts_tree::{NodeKind, TreeNode};

/// A tree, or a part of one, with fewer nodes than these is measured by one worker: it takes it no longer than two threads take
/// to start.
pub(crate) const FEW: usize = 8192;

/// The nodes of a tree whose root is a pair, and those of its two parts.
#[derive(Clone, Copy)]
pub(crate) struct Split<'a> {
    pub(crate) nodes: &'a [TreeNode],
    pub(crate) front: &'a [TreeNode],
    pub(crate) back: &'a [TreeNode],
}

/// Splits a tree at its root, unless that is a leaf.
pub(crate) fn split_at_root(nodes: &[TreeNode]) -> Option<Split<'_>>
    requires post_order { IsPostOrder (map tree_children nodes.now) }
    ensures nodes { IfSome result (λ parts. parts.nodes.now ≡ nodes.now) }
    ensures split { IfSome result IsSplit }
{
    let last = nodes.len() - 1;
    let kind = nodes[last].kind;
    let NodeKind::Pair { left, .. } = kind else {
        return None;
    };
    let (below, _) = nodes.split_at(last);
    let (front, back) = below.split_at(left as usize + 1);
    Some(Split { nodes, front, back })
}
