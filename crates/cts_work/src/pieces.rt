//! The pieces of a shape, which workers build beside each other.

ghost use Rattle.std.specs.Prelude.{◌≡◌, ◌-◌, ◌*◌, ◌^◌, ◌≤◌, ◌++◌, length, IfOk};
ghost use Rattle.cts_topo.specs.Shape.{IsShapeOver};
ghost use Rattle.cts_work.specs.Built.{tree_at};
ghost use Rattle.cts_work.specs.Pieces.{pieces_of};
ghost use Rattle.cts_work.specs.Work.{IsPart};

use cts_num::NoMemory;
use cts_topo::ShapeNode;
use std::alloc::Global;

/// A part of a shape: the nodes from `first` to `root` are all nodes of the tree at `root`.
#[derive(Clone, Copy)]
pub(crate) struct Piece {
    pub(crate) first: u32,
    pub(crate) root: u32,
}

/// Divides the part of so many lots into pieces, which are appended from left to right.
///
/// A part of one lot, or a leaf, is a piece. Of any other the left part gets half of the lots, rounded
/// up, and the right part the rest.
pub(crate) fn divide(
    nodes: &[ShapeNode],
    count: usize,
    first: u32,
    root: u32,
    lots: u32,
    pieces: &mut Vec<Piece>,
) -> Result<(), NoMemory>
    requires shape { IsShapeOver count nodes.now }
    requires part { IsPart nodes.now first root }
    ensures { IfOk result (λ _. pieces.new.items ≡ pieces.old.items ++ pieces_of first lots (tree_at nodes.now root)) }
{
    if lots < 2 {
        return Ok(pieces.push(Piece { first, root })?);
    }
    match nodes[root as usize] {
        ShapeNode::Leaf { .. } => Ok(pieces.push(Piece { first, root })?),
        ShapeNode::Pair { left, right } => {
            divide(nodes, count, first, left, lots - lots / 2, pieces)?;
            divide(nodes, count, left + 1, right, lots / 2, pieces)
        }
    }
}

/// The pieces of a shape for so many workers, with four lots for each.
pub(crate) fn pieces_for(
    alloc: Global,
    nodes: &[ShapeNode],
    count: usize,
    workers: u32,
) -> Result<Vec<Piece>, NoMemory>
    requires shape { IsShapeOver count nodes.now }
    requires few { workers ≤ 64 }
    requires most { count ≤ 2 ^ 31 }
    ensures { IfOk result (λ pieces. pieces.items ≡ pieces_of 0 (4 * workers) (tree_at nodes.now (length nodes.now - 1))) }
{
    let mut pieces = Vec::new(alloc);
    divide(
        nodes,
        count,
        0,
        nodes.len() as u32 - 1,
        4 * workers,
        &mut pieces,
    )?;
    Ok(pieces)
}
