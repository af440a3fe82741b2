//! The tree over some pins by several workers: a division, and its two parts beside each other.

ghost use Rattle.std.specs.Prelude.{◌≡◌, ◌+◌, ◌-◌, ◌*◌, ◌^◌, ◌<◌, ◌≤◌, ◌++◌, ◌∷◌, [], length, vec_len, IfOk};
ghost use Rattle.cts_topo.specs.Topology.{is_wide};
ghost use Rattle.cts_topo.specs.declared.shape.ShapeNode.TheVariants.{Pair};
ghost use Rattle.cts_shape_workers.specs.Growing.{CanGrow, Grows};
ghost use denote.Param.Send.{IsSync};

use cts_beside::beside;
use cts_num::NoMemory;
use cts_topo::{Pin, ShapeNode, add_tree, halve, is_turned};
use std::alloc::Global;
use std::thread::Threads;

/// Fewer pins than these are divided by one worker: the halves take it no longer than a thread takes to start.
pub(crate) const FEW: usize = 4096;

/// Appends the nodes of the tree over some pins to a list of nodes, whose first one has the number `first`, by at most
/// so many workers beside each other. The lists of pins are as `add_tree` takes and leaves them.
#[cycle(parts)]
pub(crate) fn add_tree_by<R: Threads + Sync>(
    rt: &R,
    alloc: Global,
    workers: u32,
    first: u32,
    wide: bool,
    along: &mut [Pin],
    across: &mut [Pin],
    spare: &mut [Pin],
    mut nodes: Vec<ShapeNode>,
) -> Result<Vec<ShapeNode>, NoMemory>
    requires shared { IsSync R.row }
    requires ready { CanGrow first wide along.old across.old spare.old nodes.items }
    ensures { IfOk result (λ all. Grows first along.old nodes.items all.items) }
{
    if workers < 2 || along.len() < FEW {
        add_tree(first, wide, along, across, spare, &mut nodes)?;
        return Ok(nodes);
    }
    if is_turned(wide, along, across) {
        add_parts_by(
            rt, alloc, workers, first, !wide, across, along, spare, nodes,
        )
    } else {
        add_parts_by(rt, alloc, workers, first, wide, along, across, spare, nodes)
    }
}

/// The same for pins that are divided along the axis that `wide` names.
#[cycle(parts)]
fn add_parts_by<R: Threads + Sync>(
    rt: &R,
    alloc: Global,
    workers: u32,
    first: u32,
    wide: bool,
    along: &mut [Pin],
    across: &mut [Pin],
    spare: &mut [Pin],
    nodes: Vec<ShapeNode>,
) -> Result<Vec<ShapeNode>, NoMemory>
    requires shared { IsSync R.row }
    requires some { 2 ≤ workers }
    requires two { 2 ≤ length along.old }
    requires axis { is_wide along.old ≡ wide }
    requires ready { CanGrow first wide along.old across.old spare.old nodes.items }
    ensures { IfOk result (λ all. Grows first along.old nodes.items all.items) }
{
    let half = halve(wide, along, across, spare);
    let apart = Vec::with_capacity(alloc, 2 * (along.len() - half))?;
    let middle = first + (nodes.len() + 2 * half - 1) as u32;
    let (here, there) = (workers - workers / 2, workers / 2);
    let (left_along, right_along) = along.split_at_mut(half);
    let (left_across, right_across) = spare.split_at_mut(half);
    let (left_spare, right_spare) = across.split_at_mut(half);
    let back = move || -> Result<Vec<ShapeNode>, NoMemory>
        requires { IsSync R.row × CanGrow middle wide right_along.now right_across.now right_spare.now apart.items }
        ensures { IfOk result (λ all. Grows middle right_along.entry.now apart.items all.items) }
    {
        add_tree_by(
            rt,
            alloc,
            there,
            middle,
            wide,
            right_along,
            right_across,
            right_spare,
            apart,
        )
    };
    let front = move || -> Result<Vec<ShapeNode>, NoMemory>
        requires { IsSync R.row × CanGrow first wide left_along.now left_across.now left_spare.now nodes.items }
        ensures { IfOk result (λ all. Grows first left_along.entry.now nodes.items all.items) }
    {
        add_tree_by(
            rt,
            alloc,
            here,
            first,
            wide,
            left_along,
            left_across,
            left_spare,
            nodes,
        )
    };
    let (right, left) = beside(rt, back, front);
    pair_over(first, left?, right?)
}

/// The nodes of the left part, those of the right one, and the pair over both.
fn pair_over(
    first: u32,
    mut left: Vec<ShapeNode>,
    mut right: Vec<ShapeNode>,
) -> Result<Vec<ShapeNode>, NoMemory>
    requires some { (0 < length left.items) × (0 < length right.items) }
    requires room { first + length left.items + length right.items < 2 ^ 32 }
    ensures { IfOk result (λ all. all.items ≡ left.items ++ right.items
        ++ Pair (first + length left.items - 1) (first + length left.items + length right.items - 1) ∷ []) }
{
    let left_root = first + left.len() as u32 - 1;
    let right_root = left_root + right.len() as u32;
    left.append(&mut right)?;
    left.push(ShapeNode::Pair {
        left: left_root,
        right: right_root,
    })?;
    Ok(left)
}
