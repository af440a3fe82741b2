//! The figures of a tree.

ghost use Rattle.std.specs.Prelude.{◌≡◌, length, map, Some, IfOk, IfSome};
ghost use Rattle.std.specs.List.{AllZip};
ghost use Rattle.cts_postorder.specs.PostOrder.{IsPostOrder, root_of, trees_of};
ghost use Rattle.cts_tree.specs.Nodes.{tree_children};
ghost use Rattle.cts_elmore.specs.Figures.{AreFigures, AreFiguresInRange};
ghost use Rattle.cts_elmore.specs.Fits.{FitsInstance};
ghost use Rattle.cts_elmore.specs.Limits.{IsFirstOver, IsWithinLimits};
ghost use Rattle.cts_elmore.specs.Loads.{leaf_pins};
ghost use Rattle.cts_elmore.specs.Measurement.{IsMeasured};
ghost use Rattle.cts_elmore.specs.Outputs.{IsDescent};
ghost use Rattle.cts_elmore.specs.Subtrees.{DriveOrOver, IsKnownBelow, IsSubtree};

use crate::descent::{Descent, descend};
use crate::drive::{Drive, drive_root};
use crate::figures::{Figures, NodeFigure, NodeFigures};
use crate::pin_list::{Pin, pins};
use crate::subtree::{Gathered, Subtree, gather};
use cts_instance::Instance;
use cts_num::NoMemory;
use cts_tree::{Tree, TreeNode};
use std::alloc::Global;

/// What the measurement of a tree comes to.
#[derive(Drop)]
pub enum Measured {
    /// The tree is within the limits, and has these figures.
    Within { figures: Figures },
    /// The least number of a node that is over the limits.
    Over { node: u32 },
}

/// The figures of a tree that is within the limits.
///
/// The load at a node is all that is reached from it without passing through a buffer below it. A
/// delay is the sum, over the path from the source, of the source's resistance into its load, of each
/// wire into what is seen at its lower end, and of each buffer into its load; a stage begins anew at
/// the output of a buffer and leaves its intrinsic delay out. The arrival of a leaf is its delay and twice
/// the offset that its sink wants, since delays are doubled. The skew is the greatest arrival of a leaf less
/// the least, and the bound the greatest sum of residues on the path to a leaf. One pass upward and one
/// downward; answers `NoMemory` where an allocation fails.
pub fn measure(alloc: Global, instance: &Instance, tree: &Tree) -> Result<Figures, NoMemory>
    requires fits { FitsInstance instance.now tree.now }
    requires within { IsWithinLimits instance.now tree.now }
    ensures figures { IfOk result (AreFigures instance.now tree.now) }
    ensures one_each { IfOk result (λ figures. length figures.nodes ≡ length tree.now) }
    ensures in_range { IfOk result AreFiguresInRange }
{
    let pins = pins(alloc, instance, tree.nodes())?;
    measure_with(alloc, instance, tree, pins.as_slice())
}

/// The figures of a tree that is within the limits, as [`measure`] answers them, where the
/// [`pins`] of its leaves are listed already, in the order of the leaves.
///
/// The list doesn't depend on the lengths of the wires: that of a placed tree is that of the balanced one.
pub fn measure_with(
    alloc: Global,
    instance: &Instance,
    tree: &Tree,
    pins: &[Pin],
) -> Result<Figures, NoMemory>
    requires fits { FitsInstance instance.now tree.now }
    requires within { IsWithinLimits instance.now tree.now }
    requires pins { pins.now ≡ leaf_pins instance.now tree.now }
    ensures figures { IfOk result (AreFigures instance.now tree.now) }
    ensures one_each { IfOk result (λ figures. length figures.nodes ≡ length tree.now) }
    ensures in_range { IfOk result AreFiguresInRange }
{
    match try_measure_with(alloc, instance, tree, pins)? {
        Measured::Within { figures } => Ok(figures),
        Measured::Over { .. } => unreachable!(),
    }
}

/// The figures of a tree, whoever made it, or the least number of a node that is over the limits.
///
/// A pair is over the limits where the wire of one of its children is longer than 2^31 - 1 nm, where
/// its load below its buffer is above 2^56 zF, or where the greatest doubled sum of the delay down to a
/// leaf, its buffer included, and the leaf's wanted offset is above 2^104. The root is also over where
/// its own wire is too long, where the source's load is above 2^56, or where the greatest arrival of a
/// leaf is above 2^104. The tree may come from anywhere: its wires may have any length. Answers
/// `NoMemory` where an allocation fails.
pub fn try_measure(alloc: Global, instance: &Instance, tree: &Tree) -> Result<Measured, NoMemory>
    requires { FitsInstance instance.now tree.now }
    ensures { IfOk result (IsMeasured instance.now tree.now) }
{
    let pins = pins(alloc, instance, tree.nodes())?;
    try_measure_with(alloc, instance, tree, pins.as_slice())
}

/// The least number of a node of a tree, whoever made it, that is over the limits of wires, loads and
/// delays, or `None` exactly where there is none. Answers `NoMemory` where an allocation fails.
pub fn within(alloc: Global, instance: &Instance, tree: &Tree) -> Result<Option<u32>, NoMemory>
    requires { FitsInstance instance.now tree.now }
    ensures { IfOk result (IsFirstOver instance.now tree.now) }
{
    match try_measure(alloc, instance, tree)? {
        Measured::Within { .. } => Ok(None),
        Measured::Over { node } => Ok(Some(node)),
    }
}

/// The same with the pins of the leaves' sinks, in the order of the leaves.
fn try_measure_with(
    alloc: Global,
    instance: &Instance,
    tree: &Tree,
    pins: &[Pin],
) -> Result<Measured, NoMemory>
    requires fits { FitsInstance instance.now tree.now }
    requires pins { pins.now ≡ leaf_pins instance.now tree.now }
    ensures { IfOk result (IsMeasured instance.now tree.now) }
{
    let nodes = tree.nodes();
    let (root, known) = match gather(alloc, instance, nodes, pins)? {
        Gathered::Within { root, figures } => (root, figures),
        Gathered::Over { node } => return Ok(Measured::Over { node }),
    };
    match drive_root(instance, nodes, &root) {
        Some(drive) => {
            let figures = driven(alloc, instance, nodes, &root, known, drive)?;
            Ok(Measured::Within { figures })
        }
        None => Ok(Measured::Over {
            node: (nodes.len() - 1) as u32,
        }),
    }
}

/// The figures of a tree whose root the source drives so, from what is known of its nodes from below.
fn driven(
    alloc: Global,
    instance: &Instance,
    nodes: &[TreeNode],
    root: &Subtree,
    known: Vec<NodeFigure>,
    drive: Drive,
) -> Result<Figures, NoMemory>
    requires post_order { IsPostOrder (map tree_children nodes.now) }
    requires fits { FitsInstance instance.now nodes.now }
    requires root { IfSome (root_of tree_children nodes.now) (λ t. IsSubtree instance.now t root.now) }
    requires known { AllZip (IsKnownBelow instance.now) (trees_of tree_children nodes.now) known.items }
    requires drive { IfSome (root_of tree_children nodes.now) (λ t. DriveOrOver instance.now t (Some drive)) }
    ensures figures { IfOk result (AreFigures instance.now nodes.now) }
    ensures one_each { IfOk result (λ figures. length figures.nodes ≡ length nodes.now) }
    ensures in_range { IfOk result AreFiguresInRange }
{
    let descent = descend(alloc, instance, nodes, known, drive)?;
    Ok(figures_from(instance, nodes, root, drive, descent))
}

/// The figures of a tree whose root the source drives so, from what a pass downward comes to.
pub fn figures_from(
    instance: &Instance,
    nodes: &[TreeNode],
    root: &Subtree,
    drive: Drive,
    descent: Descent,
) -> Figures
    requires post_order { IsPostOrder (map tree_children nodes.now) }
    requires fits { FitsInstance instance.now nodes.now }
    requires root { IfSome (root_of tree_children nodes.now) (λ t. IsSubtree instance.now t root.now) }
    requires drive { IfSome (root_of tree_children nodes.now) (λ t. DriveOrOver instance.now t (Some drive)) }
    requires descent { IfSome (root_of tree_children nodes.now) (λ t. IsDescent instance.now t descent) }
    ensures figures { AreFigures instance.now nodes.now result }
    ensures one_each { length result.nodes ≡ length nodes.now }
    ensures in_range { AreFiguresInRange result }
{
    Figures {
        nodes: NodeFigures::of(descent.figures),
        source_load: drive.load,
        wire_total: root.wires + nodes[nodes.len() - 1].wire,
        greatest: drive.delay + root.delay_greatest,
        least: drive.delay + root.delay_least,
        arrival_greatest: drive.delay + root.greatest,
        arrival_least: drive.delay + root.least,
        skew: root.greatest - root.least,
        bound: root.bound,
        load_met: descent.load_met,
        slew_met: descent.slew_met,
    }
}
