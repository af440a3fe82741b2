//! The pass upward over a tree as a pass by halves: over its two parts, and then over its root.

ghost use Rattle.std.specs.Prelude.{◌≡◌, ◌+◌, ◌≤◌, length, map, All, Some, IfOk, IfSome};
ghost use Rattle.std.specs.List.{AllZip};
ghost use Rattle.cts_postorder.specs.PostOrder.{IsPostOrder, NamesFrom, root_of, trees_of};
ghost use Rattle.cts_tree.specs.Nodes.{children_from, tree_children};
ghost use Rattle.cts_elmore.specs.declared.subtree.Risen.TheVariants.{Over, Within};
ghost use Rattle.cts_elmore.specs.Fits.{FitsInstance};
ghost use Rattle.cts_elmore.specs.Limits.{IsWithinLimits};
ghost use Rattle.cts_elmore.specs.Loads.{leaf_pins};
ghost use Rattle.cts_elmore.specs.Subtrees.{DriveOrOver, IsKnownBelow, IsSubtree};
ghost use Rattle.cts_tree_workers.specs.Gathering.{AreKnownFrom, ArePairsWithin, IsSubtreeFrom};
ghost use denote.Param.Send.{IsSync};

use crate::split::FEW;
use cts_beside::{Halved, Halves, by_halves};
use cts_elmore::{
    Drive, NodeFigure, Pin, Risen, Subtree, drive_root, gather_part, join_parts, known_figure,
    own_buffer,
};
use cts_instance::Instance;
use cts_num::NoMemory;
use cts_tree::{NodeKind, TreeNode};
use std::alloc::Global;
use std::thread::Threads;

/// The root's subtree and what the source drives, of a tree within the limits, by at most so many workers beside each other.
/// All that is known of the nodes from below is written over what stands in `figures`. Answers `NoMemory` where an allocation
/// fails.
pub(crate) fn gather_by<R: Threads + Sync>(
    rt: &R,
    alloc: Global,
    workers: u32,
    instance: &Instance,
    nodes: &[TreeNode],
    pins: &[Pin],
    figures: &mut [NodeFigure],
) -> Result<(Subtree, Drive), NoMemory>
    requires shared { IsSync R.row }
    requires post_order { IsPostOrder (map tree_children nodes.now) }
    requires fits { FitsInstance instance.now nodes.now }
    requires within { IsWithinLimits instance.now nodes.now }
    requires pins { pins.now ≡ leaf_pins instance.now nodes.now }
    requires room { length figures.old ≡ length nodes.now }
    ensures root { IfOk result (λ gathered. IfSome (root_of tree_children nodes.now) (λ t. IsSubtree instance.now t gathered.0)) }
    ensures drive { IfOk result (λ gathered.
        IfSome (root_of tree_children nodes.now) (λ t. DriveOrOver instance.now t (Some gathered.1))) }
    ensures known { IfOk result (λ _. AllZip (IsKnownBelow instance.now) (trees_of tree_children nodes.now) figures.new) }
{
    let work = Gather { alloc, instance };
    let whole = TreePart {
        first: 0,
        nodes,
        pins,
    };
    let root = by_halves(rt, workers, &work, &whole, figures)?;
    Ok((root, drive_within(instance, nodes, &root)))
}

/// What the subtrees of a tree are gathered by.
#[derive(Clone, Copy)]
struct Gather<'a> {
    alloc: Global,
    instance: &'a Instance,
}

/// A stretch of nodes that is a subtree of a tree: the number of the first of them in the tree, and the pins of its leaves, in
/// the order of the leaves.
#[derive(Clone, Copy)]
struct TreePart<'a> {
    first: usize,
    nodes: &'a [TreeNode],
    pins: &'a [Pin],
}

impl<'a> Halved for Gather<'a> {
    ghost use Rattle.cts_tree_workers.specs.Gathering.{AreCut, IsGathered, IsReady};

    type Part = TreePart<'a>;

    type Place = NodeFigure;

    type Over = ();

    type Answer = Result<Subtree, NoMemory>;

    ghost ready = { IsReady };

    ghost cuts = { λ work part _ _ own front back _. AreCut work part own front back };

    ghost made = { λ work part _ room end. IsGathered work part room end };

    fn alone(&self, part: &TreePart<'a>, room: &mut [NodeFigure]) -> Result<Subtree, NoMemory> {
        gather_alone(
            self.alloc,
            self.instance,
            part.first,
            part.nodes,
            part.pins,
            room,
        )
    }

    fn cut(&self, part: &TreePart<'a>, _room: &[NodeFigure]) -> Option<Halves<TreePart<'a>, ()>> {
        if part.nodes.len() < FEW {
            return None;
        }
        let last = part.nodes.len() - 1;
        let kind = part.nodes[last].kind;
        let NodeKind::Pair { left, .. } = kind else {
            return None;
        };
        let middle = left as usize - part.first + 1;
        let (below, _) = part.nodes.split_at(last);
        let (front, back) = below.split_at(middle);
        // A part has one leaf more than pairs.
        let (front_pins, back_pins) = part.pins.split_at(middle / 2 + 1);
        Some(Halves {
            front: TreePart {
                first: part.first,
                nodes: front,
                pins: front_pins,
            },
            back: TreePart {
                first: part.first + middle,
                nodes: back,
                pins: back_pins,
            },
            middle,
            last,
            over: (),
        })
    }

    fn join(
        &self,
        part: &TreePart<'a>,
        first: &TreePart<'a>,
        second: &TreePart<'a>,
        _over: (),
        _front: &mut [NodeFigure],
        _back: &mut [NodeFigure],
        own: &mut [NodeFigure],
        a: Result<Subtree, NoMemory>,
        b: Result<Subtree, NoMemory>,
    ) -> Result<Subtree, NoMemory> {
        let left = a?;
        let right = b?;
        let left_wire = first.nodes[first.nodes.len() - 1].wire;
        let right_wire = second.nodes[second.nodes.len() - 1].wire;
        let buffer = own_buffer(part.nodes[part.nodes.len() - 1].kind);
        match join_parts(self.instance, buffer, left_wire, right_wire, &left, &right) {
            Some(root) => {
                own[0] = known_figure(&root);
                Ok(root)
            }
            None => unreachable!(),
        }
    }
}

/// The subtree of the root of a part, none of whose pairs is over the limits, by one worker. All that is known of its nodes from
/// below is written over what stands in `figures`. Answers `NoMemory` where an allocation fails.
fn gather_alone(
    alloc: Global,
    instance: &Instance,
    first: usize,
    nodes: &[TreeNode],
    pins: &[Pin],
    figures: &mut [NodeFigure],
) -> Result<Subtree, NoMemory>
    requires post_order { IsPostOrder (map (children_from first) nodes.now) }
    requires numbered { All (NamesFrom tree_children first) nodes.now }
    requires few { first + length nodes.now ≤ 131071 }
    requires fits { FitsInstance instance.now nodes.now }
    requires within { ArePairsWithin instance.now first nodes.now }
    requires pins { pins.now ≡ leaf_pins instance.now nodes.now }
    requires room { length figures.old ≡ length nodes.now }
    ensures root { IfOk result (IsSubtreeFrom instance.now first nodes.now) }
    ensures known { IfOk result (λ _. AreKnownFrom instance.now first nodes.now figures.new) }
{
    match gather_part(alloc, instance, first, nodes, pins, figures)? {
        Risen::Within { root } => Ok(root),
        Risen::Over { .. } => unreachable!(),
    }
}

/// What the source drives through the root's wire of a tree within the limits.
fn drive_within(instance: &Instance, nodes: &[TreeNode], root: &Subtree) -> Drive
    requires post_order { IsPostOrder (map tree_children nodes.now) }
    requires fits { FitsInstance instance.now nodes.now }
    requires within { IsWithinLimits instance.now nodes.now }
    requires root { IfSome (root_of tree_children nodes.now) (λ t. IsSubtree instance.now t root.now) }
    ensures { IfSome (root_of tree_children nodes.now) (λ t. DriveOrOver instance.now t (Some result)) }
{
    match drive_root(instance, nodes, root) {
        Some(drive) => drive,
        None => unreachable!(),
    }
}
