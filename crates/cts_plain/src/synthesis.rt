//! The passes of the synthesis, one after the other.

ghost use Rattle.std.specs.Prelude.{◌≡◌, ◌+◌, ◌≤◌, length, List, All, IfOk, IfErr, OnOk};
ghost use Rattle.cts_topo.specs.declared.shape.ShapeNode.{ShapeNode};
ghost use Rattle.cts_topo.specs.Shape.{IsShapeOver};
ghost use Rattle.cts_topo.specs.Topology.{shape_of};
ghost use Rattle.cts_up.specs.Plan.{IsPlan};
ghost use Rattle.cts_up.specs.Sites.{AreSites};
ghost use Rattle.cts_embed.specs.Fitting.{Fits};
ghost use Rattle.cts_elmore.specs.Figures.{AreFigures, AreFiguresInRange};
ghost use Rattle.cts_elmore.specs.Sound.{IsSound, StandsInDie};
ghost use Rattle.cts_plain.specs.Ends.{
  CountsInPlaces,
  CountsMerges,
  CountsMergesOver,
  Ends,
  EndsBy,
  EndsInBalance,
  EndsInPlaces,
  EndsWithPlan,
};
ghost use Rattle.cts_plain.specs.Synthesis.{IsPlacedBy, IsSynthesis, IsSynthesisOver, made};

use crate::end::NoTree;
use cts_elmore::{Figures, measure_with, pins};
use cts_embed::{balance_with, embed, embed_sites};
use cts_instance::Instance;
use cts_merge::{Finished, Steps};
use cts_topo::{Shape, topology};
use cts_tree::{Placed, Tree};
use cts_up::{Site, sites};
use std::alloc::Global;
use std::sync::ledger::Ledger;

/// The tree of a shape over an instance's sinks by its plan, with its figures: places and routes from
/// the root down, the wires balanced upward, and what each node's load, delay and slew then are.
///
/// `Cut` with the greatest number of a node that no route reaches, `Beyond` with the least number of a
/// node that is over the limits in the balance, `NoMemory` where an allocation fails.
pub fn finish(
    alloc: Global,
    instance: &Instance,
    shape: &Shape,
    plan: &[Finished],
) -> Result<(Tree, Figures), NoTree>
    requires shape { IsShapeOver (length instance.now.sinks) shape.now }
    requires plan { IsPlan instance.now.params instance.now.sinks shape.now plan.now }
    ensures tree { IfOk result (λ r. IsSynthesisOver instance.now shape.now (made r.0)) }
    ensures figures { IfOk result (λ r. AreFigures instance.now r.0 r.1) }
    ensures sound { IfOk result (λ r. IsSound instance.now r.0) }
    ensures one_each { IfOk result (λ r. length r.1.nodes ≡ length r.0) }
    ensures in_range { IfOk result (λ r. AreFiguresInRange r.1) }
    ensures in_die { IfOk result (λ r. All (StandsInDie instance.now.die) r.0) }
    ensures ends { IfErr result (EndsWithPlan instance.now shape.now) }
{
    let placed = embed(alloc, instance, shape, plan)?;
    settle(alloc, instance, placed)
}

/// The tree of a shape by the sites of its plan, as [`finish`] gives it: nothing else of a plan has a part in it. The
/// sites go once the nodes have their places.
pub fn finish_sites(
    alloc: Global,
    instance: &Instance,
    shape: &Shape,
    sites: Vec<Site>,
) -> Result<(Tree, Figures), NoTree>
    requires shape { IsShapeOver (length instance.now.sinks) shape.now }
    requires sites { AreSites instance.now.params instance.now.sinks shape.now sites.items }
    ensures tree { IfOk result (λ r. IsSynthesisOver instance.now shape.now (made r.0)) }
    ensures figures { IfOk result (λ r. AreFigures instance.now r.0 r.1) }
    ensures sound { IfOk result (λ r. IsSound instance.now r.0) }
    ensures one_each { IfOk result (λ r. length r.1.nodes ≡ length r.0) }
    ensures in_range { IfOk result (λ r. AreFiguresInRange r.1) }
    ensures in_die { IfOk result (λ r. All (StandsInDie instance.now.die) r.0) }
    ensures ends { IfErr result (EndsWithPlan instance.now shape.now) }
{
    let placed = embed_sites(alloc, instance, shape, sites.as_slice())?;
    drop(sites);
    settle(alloc, instance, placed)
}

/// The tree of a placed tree, with its figures: the wires balanced upward, and what each node's load,
/// delay and slew then are. It is that of the shape by whose plan the nodes were placed, as [`finish`] gives it.
pub fn settle(alloc: Global, instance: &Instance, placed: Placed) -> Result<(Tree, Figures), NoTree>
    requires fits { Fits instance.now placed }
    requires of_shape { (shape : List ShapeNode) × IsShapeOver (length instance.now.sinks) shape × IsPlacedBy instance.now shape placed }
    ensures tree { (shape : List ShapeNode) → IsPlacedBy instance.now shape placed
        → IfOk result (λ r. IsSynthesisOver instance.now shape (made r.0)) }
    ensures figures { IfOk result (λ r. AreFigures instance.now r.0 r.1) }
    ensures sound { IfOk result (λ r. IsSound instance.now r.0) }
    ensures one_each { IfOk result (λ r. length r.1.nodes ≡ length r.0) }
    ensures in_range { IfOk result (λ r. AreFiguresInRange r.1) }
    ensures in_die { IfOk result (λ r. All (StandsInDie instance.now.die) r.0) }
    ensures ends { (shape : List ShapeNode) → IsPlacedBy instance.now shape placed
        → IfErr result (EndsInBalance instance.now shape) }
{
    // A read call says that the instance is valid, which the limits of the passes rest on.
    let _die = instance.die();
    let pins = pins(alloc, instance, placed.nodes())?;
    let tree = balance_with(alloc, instance, placed, pins.as_slice())?;
    let figures = measure_with(alloc, instance, &tree, pins.as_slice())?;
    Ok((tree, figures))
}

/// The nodes of the tree of a shape in their places, with the routes to them. The sites of its plan, which nobody
/// reads after it, go.
fn place_over<L: Ledger>(
    alloc: Global,
    instance: &Instance,
    shape: &Shape,
    steps: &mut Steps<L>,
) -> Result<Placed, NoTree>
    requires { IsShapeOver (length instance.now.sinks) shape.now }
    ensures fits { IfOk result (Fits instance.now) }
    ensures placed { IfOk result (IsPlacedBy instance.now shape.now) }
    ensures ends { IfErr result (EndsInPlaces instance.now shape.now) }
    ensures merges { OnOk result (steps.new + 1 ≡ steps.old + length instance.now.sinks) }
    ensures merges_until { IfErr result (CountsInPlaces instance.now shape.now steps.old steps.new) }
    ensures merges_at_most { steps.new + 1 ≤ steps.old + length instance.now.sinks }
{
    let sites = sites(alloc, instance.params(), instance.sinks(), shape, steps)?;
    Ok(embed_sites(alloc, instance, shape, sites.as_slice())?)
}

/// The same over the shape of the instance's sinks, which goes too.
fn place<L: Ledger>(
    alloc: Global,
    instance: &Instance,
    steps: &mut Steps<L>,
) -> Result<Placed, NoTree>
    ensures fits { IfOk result (Fits instance.now) }
    ensures placed { IfOk result (IsPlacedBy instance.now (shape_of instance.now.sinks)) }
    ensures shape { OnOk result (IsShapeOver (length instance.now.sinks) (shape_of instance.now.sinks)) }
    ensures ends { IfErr result (EndsInPlaces instance.now (shape_of instance.now.sinks)) }
    ensures merges { OnOk result (steps.new + 1 ≡ steps.old + length instance.now.sinks) }
    ensures merges_until { IfErr result (CountsInPlaces instance.now (shape_of instance.now.sinks) steps.old steps.new) }
    ensures merges_at_most { steps.new + 1 ≤ steps.old + length instance.now.sinks }
{
    let shape = topology(alloc, instance.sinks())?;
    place_over(alloc, instance, &shape, steps)
}

/// The synthesis of an instance over a shape that has each of its sinks: the tree with its figures, or why there is
/// none. It ends as [`synthesise`] does, by the plan of this shape.
pub fn synthesise_over<L: Ledger>(
    alloc: Global,
    instance: &Instance,
    shape: &Shape,
    steps: &mut Steps<L>,
) -> Result<(Tree, Figures), NoTree>
    requires { IsShapeOver (length instance.now.sinks) shape.now }
    ensures tree { IfOk result (λ r. IsSynthesisOver instance.now shape.now (made r.0)) }
    ensures figures { IfOk result (λ r. AreFigures instance.now r.0 r.1) }
    ensures sound { IfOk result (λ r. IsSound instance.now r.0) }
    ensures one_each { IfOk result (λ r. length r.1.nodes ≡ length r.0) }
    ensures in_range { IfOk result (λ r. AreFiguresInRange r.1) }
    ensures in_die { IfOk result (λ r. All (StandsInDie instance.now.die) r.0) }
    ensures ends { IfErr result (EndsBy (IsSynthesisOver instance.now shape.now)) }
    ensures merges { OnOk result (steps.new + 1 ≡ steps.old + length instance.now.sinks) }
    ensures merges_until { IfErr result (CountsMergesOver instance.now shape.now steps.old steps.new) }
    ensures merges_at_most { steps.new + 1 ≤ steps.old + length instance.now.sinks }
{
    let placed = place_over(alloc, instance, shape, steps)?;
    settle(alloc, instance, placed)
}

/// The synthesis of an instance by one thread: its tree with the figures, or why it has none.
///
/// `Beyond` with the least number of a node that is over the limits of lengths, loads or delays, in the
/// plan or else in the balance; `Cut` with the greatest number of a node that no route reaches, where
/// the plan has no node beyond; `NoMemory` where an allocation fails. Each pair that the plan tries
/// counts one merge.
pub fn synthesise<L: Ledger>(
    alloc: Global,
    instance: &Instance,
    steps: &mut Steps<L>,
) -> Result<(Tree, Figures), NoTree>
    ensures tree { IfOk result (λ r. IsSynthesis instance.now (made r.0)) }
    ensures figures { IfOk result (λ r. AreFigures instance.now r.0 r.1) }
    ensures sound { IfOk result (λ r. IsSound instance.now r.0) }
    ensures one_each { IfOk result (λ r. length r.1.nodes ≡ length r.0) }
    ensures in_range { IfOk result (λ r. AreFiguresInRange r.1) }
    ensures in_die { IfOk result (λ r. All (StandsInDie instance.now.die) r.0) }
    ensures ends { IfErr result (Ends instance.now) }
    ensures merges { OnOk result (steps.new + 1 ≡ steps.old + length instance.now.sinks) }
    ensures merges_until { IfErr result (CountsMerges instance.now steps.old steps.new) }
    ensures merges_at_most { steps.new + 1 ≤ steps.old + length instance.now.sinks }
{
    let placed = place(alloc, instance, steps)?;
    settle(alloc, instance, placed)
}
