//! A pass upward: what is known of each subtree when the pair above it is reached.

ghost use Rattle.std.specs.Prelude.{◌≡◌, ◌+◌, ◌<◌, ◌≤◌, ◌++◌, ◌∷◌, [], map, drop, length, slice_get, All, IfSome, IfNone, IfOk, MatchOption};
ghost use Rattle.std.specs.Slice.Iter.{iter_rest};
ghost use Rattle.cts_units.specs.Limits.{IsParams, IsWire, max_length};
ghost use Rattle.cts_postorder.specs.PostOrder.{IsPostOrder, NamesFrom, trees_of};
ghost use Rattle.cts_tree.specs.Nodes.{children_from, tree_children};
ghost use Rattle.cts_elmore.specs.Fits.{FitsInstance};
ghost use Rattle.cts_elmore.specs.Loads.{leaf_pins};
ghost use Rattle.cts_elmore.specs.Limits.{IsPairOver};
ghost use Rattle.cts_elmore.specs.Subtrees.{IsBranch, IsBranchInRange, IsLeafOf, IsSubtree, IsSubtreeInRange, IsGathered, IsJoinOf, IsSomeSubtree, IsRisen, PairOrOver};
ghost use Rattle.cts_postorder.specs.Waiting.{AreWaiting, StandsAt};

use crate::figures::NodeFigure;
use crate::pin_list::Pin;
use cts_instance::Instance;
use cts_num::NoMemory;
use cts_postorder::take_pair;
use cts_tree::{NodeKind, TreeNode};
use cts_units::{MAX_DELAY, MAX_LENGTH, MAX_LOAD, Params, Wire, buffered, wire_delay};
use std::alloc::Global;
use std::slice;

/// What is known of a subtree. Loads are in zF, lengths in nm, and delays and arrivals doubled, in 10^-27 s. An arrival at a
/// leaf is told from the subtree's root on, with a buffer there: the delay down to the leaf, and twice its wanted offset.
#[derive(Clone, Copy)]
pub struct Subtree {
    /// The load at its root, below a buffer there.
    pub below: u64,
    /// The load that is seen from above.
    pub seen: u64,
    /// The lengths of the wires below its root together.
    pub wires: u64,
    /// The offset that a leaf's sink wants, not doubled, 0 at a pair.
    pub offset: u64,
    /// The greatest arrival at a leaf.
    pub greatest: u128,
    /// The least arrival.
    pub least: u128,
    /// The greatest delay down to a leaf.
    pub delay_greatest: u128,
    /// The least such delay.
    pub delay_least: u128,
    /// The distance of the greatest arrivals of its two parts.
    pub residue: u128,
    /// The greatest sum of residues on the path to a leaf.
    pub bound: u128,
}

/// A subtree through the wire above it.
#[derive(Clone, Copy)]
pub struct Branch {
    pub load: u64,
    pub wires: u64,
    pub greatest: u128,
    pub least: u128,
    pub delay_greatest: u128,
    pub delay_least: u128,
    pub bound: u128,
}

/// The branch of a subtree and a wire of `length` nm, or `None` exactly where the wire is too long.
fn through_wire(wire: Wire, length: u64, part: &Subtree) -> Option<Branch>
    requires wire { IsWire wire }
    requires part { IsSubtreeInRange part.now }
    ensures branch { MatchOption result (max_length < length) (IsBranch wire length part.now) }
    ensures in_range { IfSome result IsBranchInRange }
    ensures within { IfSome result (λ _. length ≤ max_length) }
{
    if length > MAX_LENGTH {
        return None;
    }
    let delay = wire_delay(wire, length, part.seen);
    Some(Branch {
        load: part.seen + wire.c * length,
        wires: part.wires + length,
        greatest: part.greatest + delay,
        least: part.least + delay,
        delay_greatest: part.delay_greatest + delay,
        delay_least: part.delay_least + delay,
        bound: part.bound,
    })
}

/// The subtree of a leaf whose sink has this pin.
fn leaf(pin: Pin) -> Subtree
    ensures { IsLeafOf pin result }
{
    let arrival = pin.doubled_offset();
    Subtree {
        below: pin.cap,
        seen: pin.cap,
        wires: 0,
        offset: pin.offset,
        greatest: arrival,
        least: arrival,
        delay_greatest: 0,
        delay_least: 0,
        residue: 0,
        bound: 0,
    }
}

/// The subtree of a pair of two branches, or `None` exactly where its load or its greatest arrival is too great.
fn pair(params: &Params, a: &Branch, b: &Branch, buffer: Option<u16>) -> Option<Subtree>
    requires params { IsParams params.now }
    requires buffer { IfSome buffer (λ index. index < length params.now.library) }
    requires a { IsBranchInRange a.now }
    requires b { IsBranchInRange b.now }
    ensures { PairOrOver params.now.library buffer a.now b.now result }
{
    let below = a.load + b.load;
    if below > MAX_LOAD {
        return None;
    }
    let (added, seen) = buffered(params, buffer, below);
    let greatest = a.greatest.max(b.greatest) + added;
    if greatest > MAX_DELAY {
        return None;
    }
    let residue = a.greatest.abs_diff(b.greatest);
    Some(Subtree {
        below,
        seen,
        wires: a.wires + b.wires,
        offset: 0,
        greatest,
        least: a.least.min(b.least) + added,
        delay_greatest: a.delay_greatest.max(b.delay_greatest) + added,
        delay_least: a.delay_least.min(b.delay_least) + added,
        residue,
        bound: a.bound.max(b.bound) + residue,
    })
}

/// The subtree of a pair, with the buffer of this index if it has one, from its two parts, whose wires are `left` and
/// `right` nm long, or `None` exactly where the pair is over the limits.
pub fn join_parts(
    instance: &Instance,
    buffer: Option<u16>,
    left: u64,
    right: u64,
    a: &Subtree,
    b: &Subtree,
) -> Option<Subtree>
    requires buffer { IfSome buffer (λ index. index < length instance.now.params.library) }
    requires a { IsSomeSubtree instance.now a.now }
    requires b { IsSomeSubtree instance.now b.now }
    ensures { IsJoinOf instance.now buffer left right a.now b.now result }
{
    let params = instance.params();
    let a = through_wire(params.wire, left, a)?;
    let b = through_wire(params.wire, right, b)?;
    pair(params, &a, &b, buffer)
}

/// The subtree at a number of a stretch of nodes, whose children are numbered from `first` on, by those
/// that wait for the pair above them, or `None` exactly where it is a pair that is over the limits. A
/// pair's parts no longer wait. The pins are those of the leaves' sinks that are left; a leaf takes the
/// next one.
#[inline(always)]
fn subtree_at(
    instance: &Instance,
    first: usize,
    nodes: &[TreeNode],
    pins: &mut slice::Iter<'_, Pin>,
    number: usize,
    waiting: &mut Vec<Subtree>,
) -> Option<Subtree>
    requires post_order { IsPostOrder (map (children_from first) nodes.now) }
    requires numbered { All (NamesFrom tree_children first) nodes.now }
    requires fits { FitsInstance instance.now nodes.now }
    requires pins { iter_rest pins.old ≡ leaf_pins instance.now (drop number nodes.now) }
    requires number { number < length nodes.now }
    requires before { AreWaiting (children_from first) nodes.now (IsSubtree instance.now) number waiting.old.items }
    ensures here { IfSome result (StandsAt (children_from first) nodes.now (IsSubtree instance.now) number) }
    ensures next { IfSome result (λ s.
        AreWaiting (children_from first) nodes.now (IsSubtree instance.now) (number + 1) (waiting.new.items ++ s ∷ [])) }
    ensures left { IfSome result (λ _. iter_rest pins.new ≡ leaf_pins instance.now (drop (number + 1) nodes.now)) }
    ensures over { IfNone result (IfSome (slice_get (trees_of (children_from first) nodes.now) number) (IsPairOver instance.now)) }
{
    let params = instance.params();
    match nodes[number].kind {
        NodeKind::Leaf { .. } => {
            let Some(pin) = pins.next() else {
                unreachable!()
            };
            Some(leaf(*pin))
        }
        NodeKind::Pair {
            left,
            right,
            buffer,
        } => {
            let (left_part, right_part) = take_pair(waiting);
            let a = through_wire(params.wire, nodes[left as usize - first].wire, &left_part)?;
            let b = through_wire(params.wire, nodes[right as usize - first].wire, &right_part)?;
            pair(params, &a, &b, buffer)
        }
    }
}

/// What is known of a node's figures from its subtree: all but the delays.
pub fn known_figure(subtree: &Subtree) -> NodeFigure
    ensures below { result.below ≡ subtree.now.below }
    ensures residue_is { result.residue ≡ subtree.now.residue }
    ensures offset { result.offset ≡ subtree.now.offset }
{
    NodeFigure {
        below: subtree.below,
        residue: subtree.residue,
        delay: 0,
        stage: 0,
        offset: subtree.offset,
    }
}

/// What a pass upward comes to.
#[derive(Drop)]
pub enum Gathered {
    /// The root's subtree, and the figures of each node by number, whose delays are still to come.
    Within {
        root: Subtree,
        figures: Vec<NodeFigure>,
    },
    /// The least number of a pair that is over the limits.
    Over {
        node: u32,
    },
}

/// The figures of a tree that are known from below, or its first pair that is over the limits. The
/// pins are those of the leaves' sinks, in the order of the leaves.
pub fn gather(
    alloc: Global,
    instance: &Instance,
    nodes: &[TreeNode],
    pins: &[Pin],
) -> Result<Gathered, NoMemory>
    requires post_order { IsPostOrder (map tree_children nodes.now) }
    requires fits { FitsInstance instance.now nodes.now }
    requires pins { pins.now ≡ leaf_pins instance.now nodes.now }
    ensures { IfOk result (IsGathered instance.now nodes.now) }
{
    let mut figures = Vec::with_capacity(alloc, nodes.len())?;
    let mut left = pins.iter();
    let mut waiting = Vec::new(alloc);
    for number in 0..nodes.len() {
        let Some(subtree) = subtree_at(instance, 0, nodes, &mut left, number, &mut waiting) else {
            return Ok(Gathered::Over {
                node: number as u32,
            });
        };
        waiting.push(subtree)?;
        figures.push(known_figure(&subtree))?;
    }
    let Some(root) = waiting.pop() else {
        unreachable!()
    };
    Ok(Gathered::Within { root, figures })
}

/// What a pass upward over a stretch of nodes comes to.
#[derive(Clone, Copy)]
pub enum Risen {
    /// The subtree of its root.
    Within { root: Subtree },
    /// The least number of a pair that is over the limits.
    Over { node: u32 },
}

/// What [`gather`] does, for a stretch of a tree's nodes that is a subtree, as the left or the right part
/// of the whole.
///
/// Its first node has the number `first` in the tree, and a pair that is over the limits is told by its
/// number there. The pins are those of its leaves' sinks, in the order of the leaves. The figures are
/// written over what stands in `figures`; where a pair is over, or an allocation fails, which `NoMemory`
/// tells, some of them may be.
pub fn gather_part(
    alloc: Global,
    instance: &Instance,
    first: usize,
    nodes: &[TreeNode],
    pins: &[Pin],
    figures: &mut [NodeFigure],
) -> Result<Risen, NoMemory>
    requires post_order { IsPostOrder (map (children_from first) nodes.now) }
    requires numbered { All (NamesFrom tree_children first) nodes.now }
    requires few { first ≤ 131071 }
    requires fits { FitsInstance instance.now nodes.now }
    requires pins { pins.now ≡ leaf_pins instance.now nodes.now }
    requires room { length figures.old ≡ length nodes.now }
    ensures { IfOk result (IsRisen instance.now first nodes.now figures.new) }
{
    let mut left = pins.iter();
    let mut waiting = Vec::new(alloc);
    for number in 0..nodes.len() {
        let Some(subtree) = subtree_at(instance, first, nodes, &mut left, number, &mut waiting)
        else {
            return Ok(Risen::Over {
                node: (first + number) as u32,
            });
        };
        waiting.push(subtree)?;
        figures[number] = known_figure(&subtree);
    }
    let Some(root) = waiting.pop() else {
        unreachable!()
    };
    Ok(Risen::Within { root })
}
