//! The nodes of the tree that the joins tell.

ghost use Rattle.std.specs.Prelude.{◌≡◌, ◌+◌, ◌^◌, ◌<◌, ◌≤◌, ◌++◌, length, IfOk, OnOk};
ghost use Rattle.cts_postorder.specs.BinaryTree.{labels, size};
ghost use Rattle.cts_near.specs.Forest.{NamesEarlier, tree_at};
ghost use Rattle.cts_near.specs.NearShape.{nodes_of, numbered};

use cts_num::NoMemory;
use cts_topo::{Shape, ShapeNode};
use std::alloc::Global;

/// The shape of what is joined at the join of this number.
pub(crate) fn shape_at(alloc: Global, joins: &[ShapeNode], join: u32) -> Result<Shape, NoMemory>
    requires join { join < length joins.now }
    requires earlier { NamesEarlier joins.now }
    requires room { size (numbered 0 (tree_at joins.now join)) ≤ 2 ^ 32 }
    ensures { IfOk result (λ shape. shape ≡ nodes_of (tree_at joins.now join)) }
{
    let mut nodes = Vec::with_capacity(alloc, joins.len())?;
    push_tree(joins, join, &mut nodes)?;
    Ok(Shape::of(nodes))
}

/// Appends the nodes of what is joined at the join of this number: all of the left part, all of the right part, then
/// the pair of both.
fn push_tree(joins: &[ShapeNode], join: u32, nodes: &mut Vec<ShapeNode>) -> Result<(), NoMemory>
    requires join { join < length joins.now }
    requires earlier { NamesEarlier joins.now }
    requires room { length nodes.old.items + size (numbered 0 (tree_at joins.now join)) ≤ 2 ^ 32 }
    ensures { OnOk result (nodes.new.items
        ≡ nodes.old.items ++ labels (numbered (length nodes.old.items) (tree_at joins.now join))) }
{
    match joins[join as usize] {
        ShapeNode::Leaf { sink } => nodes.push(ShapeNode::Leaf { sink })?,
        ShapeNode::Pair { left, right } => {
            push_tree(joins, left, nodes)?;
            let left = (nodes.len() - 1) as u32;
            push_tree(joins, right, nodes)?;
            let right = (nodes.len() - 1) as u32;
            nodes.push(ShapeNode::Pair { left, right })?;
        }
    }
    Ok(())
}
