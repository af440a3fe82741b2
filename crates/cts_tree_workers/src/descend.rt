//! The pass downward over the root of a tree, and over its two parts beside each other.

ghost use Rattle.std.specs.Prelude.{◌≡◌, ◌+◌, length, map, All, IfOk, IfSome};
ghost use Rattle.std.specs.List.{AllZip};
ghost use Rattle.cts_postorder.specs.PostOrder.{IsPostOrder, root_of, trees_of};
ghost use Rattle.cts_tree.specs.Nodes.{children_from, tree_children};
ghost use Rattle.cts_elmore.specs.Fits.{FitsInstance};
ghost use Rattle.cts_elmore.specs.Outputs.{IsDescentBelow, IsHandedDown, IsHandedToParts};
ghost use Rattle.cts_elmore.specs.Subtrees.{IsDrive, IsKnownBelow};
ghost use Rattle.cts_tree_workers.specs.Measuring.{AreKnownParts, ArePartsDescended, IsSplit, IsWholeDescent};

use crate::split::Split;
use cts_beside::beside_mut;
use cts_elmore::{Drive, Met, NodeFigure, Output, descend_part, descend_root};
use cts_instance::Instance;
use cts_num::NoMemory;
use cts_tree::TreeNode;
use std::alloc::Global;
use std::thread::Threads;

/// Completes the figures of a tree that the source drives so, of which all but the delays are known from below, and tells
/// whether the source and the tree meet the limits of the instance. Answers `NoMemory` where an allocation fails.
pub(crate) fn descend<R: Threads>(
    rt: &R,
    alloc: Global,
    instance: &Instance,
    parts: &Split<'_>,
    figures: &mut [NodeFigure],
    drive: Drive,
) -> Result<Met, NoMemory>
    requires post_order { IsPostOrder (map tree_children parts.now.nodes.now) }
    requires fits { FitsInstance instance.now parts.now.nodes.now }
    requires split { IsSplit parts.now }
    requires known { AllZip (IsKnownBelow instance.now) (trees_of tree_children parts.now.nodes.now) figures.old }
    requires drive { IfSome (root_of tree_children parts.now.nodes.now) (λ root. IsDrive instance.now root drive) }
    ensures { IfOk result (λ met.
        IfSome (root_of tree_children parts.now.nodes.now) (IsWholeDescent instance.now figures.new met)) }
{
    let (below, own) = figures.split_at_mut(parts.nodes.len() - 1);
    let top = descend_root(instance, parts.nodes, &own[0], drive);
    own[0] = top.figure;
    let below_met = descend_parts(rt, alloc, instance, parts, below, top.output)?;
    Ok(Met {
        load_met: top.met.load_met & below_met.load_met,
        slew_met: top.met.slew_met & below_met.slew_met,
    })
}

/// Completes the figures of both parts of a tree, which take this output from its root, and tells whether they meet the
/// limits of the instance.
fn descend_parts<R: Threads>(
    rt: &R,
    alloc: Global,
    instance: &Instance,
    parts: &Split<'_>,
    figures: &mut [NodeFigure],
    above: Output,
) -> Result<Met, NoMemory>
    requires post_order { IsPostOrder (map tree_children parts.now.nodes.now) }
    requires fits { FitsInstance instance.now parts.now.nodes.now }
    requires split { IsSplit parts.now }
    requires known { IfSome (root_of tree_children parts.now.nodes.now) (AreKnownParts instance.now figures.old) }
    requires above { IfSome (root_of tree_children parts.now.nodes.now) (λ root. IsHandedToParts instance.now root above) }
    ensures { IfOk result (λ met.
        IfSome (root_of tree_children parts.now.nodes.now) (ArePartsDescended instance.now figures.new met)) }
{
    let middle = parts.front.len();
    let (front_figures, back_figures) = figures.split_at_mut(middle);
    let (left, right) = descend_beside(
        rt,
        alloc,
        instance,
        middle,
        parts.front,
        parts.back,
        front_figures,
        back_figures,
        above,
    )?;
    Ok(Met {
        load_met: left.load_met & right.load_met,
        slew_met: left.slew_met & right.slew_met,
    })
}

/// What the passes downward over both parts come to: the right one in a thread of its own.
fn descend_beside<R: Threads>(
    rt: &R,
    alloc: Global,
    instance: &Instance,
    middle: usize,
    front: &[TreeNode],
    back: &[TreeNode],
    front_figures: &mut [NodeFigure],
    back_figures: &mut [NodeFigure],
    above: Output,
) -> Result<(Met, Met), NoMemory>
    requires front_order { IsPostOrder (map (children_from 0) front.now) }
    requires front_fits { FitsInstance instance.now front.now }
    requires front_known { AllZip (IsKnownBelow instance.now) (trees_of (children_from 0) front.now) front_figures.old }
    requires front_above { IfSome (root_of (children_from 0) front.now) (λ t. IsHandedDown instance.now t above) }
    requires back_order { IsPostOrder (map (children_from middle) back.now) }
    requires back_fits { FitsInstance instance.now back.now }
    requires back_known { AllZip (IsKnownBelow instance.now) (trees_of (children_from middle) back.now) back_figures.old }
    requires back_above { IfSome (root_of (children_from middle) back.now) (λ t. IsHandedDown instance.now t above) }
    ensures front { IfOk result (λ met.
        IfSome (root_of (children_from 0) front.now) (λ t. IsDescentBelow instance.now above t front_figures.new met.0)) }
    ensures back { IfOk result (λ met.
        IfSome (root_of (children_from middle) back.now) (λ t. IsDescentBelow instance.now above t back_figures.new met.1)) }
{
    let mut behind = || -> Result<Met, NoMemory>
        requires { IsPostOrder (map (children_from middle) back.now) × FitsInstance instance.now back.now
            × AllZip (IsKnownBelow instance.now) (trees_of (children_from middle) back.now) back_figures.now
            × IfSome (root_of (children_from middle) back.now) (λ t. IsHandedDown instance.now t above) }
        ensures { IfOk result (λ met. IfSome (root_of (children_from middle) back.entry.now)
            (λ t. IsDescentBelow instance.entry.now above t back_figures.exit.now met)) }
    { descend_part(alloc, instance, middle, back, back_figures, above) };
    let mut here = || -> Result<Met, NoMemory>
        requires { IsPostOrder (map (children_from 0) front.now) × FitsInstance instance.now front.now
            × AllZip (IsKnownBelow instance.now) (trees_of (children_from 0) front.now) front_figures.now
            × IfSome (root_of (children_from 0) front.now) (λ t. IsHandedDown instance.now t above) }
        ensures { IfOk result (λ met. IfSome (root_of (children_from 0) front.entry.now)
            (λ t. IsDescentBelow instance.entry.now above t front_figures.exit.now met)) }
    { descend_part(alloc, instance, 0, front, front_figures, above) };
    let (right, left) = beside_mut(rt, &mut behind, &mut here);
    Ok((left?, right?))
}
