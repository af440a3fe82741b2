//! The tree of placed nodes, with its figures, by several workers.

ghost use Rattle.std.specs.Prelude.{◌≡◌, length, List, All, IfErr, IfOk};
ghost use Rattle.cts_topo.specs.declared.shape.ShapeNode.{ShapeNode};
ghost use Rattle.cts_topo.specs.Shape.{IsShapeOver};
ghost use Rattle.cts_embed.specs.Fitting.{Fits};
ghost use Rattle.cts_elmore.specs.Figures.{AreFigures, AreFiguresInRange};
ghost use Rattle.cts_elmore.specs.Fits.{FitsInstance};
ghost use Rattle.cts_elmore.specs.Limits.{IsWithinLimits};
ghost use Rattle.cts_elmore.specs.Loads.{leaf_pins};
ghost use Rattle.cts_elmore.specs.Sound.{IsSound, StandsInDie};
ghost use Rattle.cts_plain.specs.Ends.{EndsInBalance};
ghost use Rattle.cts_plain.specs.Synthesis.{IsPlacedBy, IsSynthesisOver, made};

use crate::balance::balance_by;
use crate::figures::measure_by;
use cts_elmore::{Figures, NodeFigure, Pin, measure_with};
use cts_instance::Instance;
use cts_num::NoMemory;
use cts_plain::NoTree;
use cts_tree::{Placed, Tree};
use std::alloc::Global;
use std::thread::Threads;

/// The figures of a tree within the limits, by so many workers where the room has a place for each node, and else by one.
fn measure_in<R: Threads + Sync>(
    rt: &R,
    alloc: Global,
    workers: u32,
    instance: &Instance,
    tree: &Tree,
    pins: &[Pin],
    room: Vec<NodeFigure>,
) -> Result<Figures, NoMemory>
    requires fits { FitsInstance instance.now tree.now }
    requires within { IsWithinLimits instance.now tree.now }
    requires pins { pins.now ≡ leaf_pins instance.now tree.now }
    ensures figures { IfOk result (AreFigures instance.now tree.now) }
    ensures one_each { IfOk result (λ figures. length figures.nodes ≡ length tree.now) }
    ensures in_range { IfOk result AreFiguresInRange }
{
    if room.len() == tree.nodes().len() {
        measure_by(rt, alloc, workers, instance, tree, pins, room)
    } else {
        measure_with(alloc, instance, tree, pins)
    }
}

/// The tree of a placed tree, with its figures, as `cts_plain::settle` gives it, by so many workers: the wires balanced upward,
/// and what each node's load, delay and slew then are. The figures stand in the room where that has a place for each node; of
/// another room no use is made. The pins of the leaves are listed already, in the order of the leaves.
///
/// `Beyond` with the least number of a node that is over the limits in the balance, `NoMemory` where an allocation fails.
pub fn settle_by<R: Threads + Sync>(
    rt: &R,
    alloc: Global,
    workers: u32,
    instance: &Instance,
    placed: Placed,
    room: Vec<NodeFigure>,
    pins: &[Pin],
) -> Result<(Tree, Figures), NoTree>
    requires fits { Fits instance.now placed }
    requires of_shape { (shape : List ShapeNode) × IsShapeOver (length instance.now.sinks) shape × IsPlacedBy instance.now shape placed }
    requires pins { pins.now ≡ leaf_pins instance.now placed }
    ensures tree { (shape : List ShapeNode) → IsPlacedBy instance.now shape placed
        → IfOk result (λ r. IsSynthesisOver instance.now shape (made r.0)) }
    ensures figures { IfOk result (λ r. AreFigures instance.now r.0 r.1) }
    ensures sound { IfOk result (λ r. IsSound instance.now r.0) }
    ensures one_each { IfOk result (λ r. length r.1.nodes ≡ length r.0) }
    ensures in_range { IfOk result (λ r. AreFiguresInRange r.1) }
    ensures in_die { IfOk result (λ r. All (StandsInDie instance.now.die) r.0) }
    ensures ends { (shape : List ShapeNode) → IsPlacedBy instance.now shape placed
        → IfErr result (EndsInBalance instance.now shape) }
{
    // A read call says that the instance is valid, which the limits of the passes rest on.
    let _die = instance.die();
    let tree = balance_by(rt, alloc, workers, instance, placed, pins)?;
    let figures = measure_in(rt, alloc, workers, instance, &tree, pins, room)?;
    Ok((tree, figures))
}
