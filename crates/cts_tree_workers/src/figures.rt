//! The figures of a whole tree.

ghost use Rattle.std.specs.Prelude.{◌≡◌, [], length, map, IfOk};
ghost use Rattle.cts_postorder.specs.PostOrder.{IsPostOrder};
ghost use Rattle.cts_tree.specs.Nodes.{tree_children};
ghost use Rattle.cts_elmore.specs.Figures.{AreFigures, AreFiguresInRange};
ghost use Rattle.cts_elmore.specs.Fits.{FitsInstance};
ghost use Rattle.cts_elmore.specs.Limits.{IsWithinLimits};
ghost use Rattle.cts_elmore.specs.Loads.{leaf_pins};
ghost use Rattle.cts_tree_workers.specs.Measuring.{IsSplit};
ghost use denote.Param.Send.{IsSync};

use crate::descend::descend;
use crate::gather::gather_by;
use crate::split::{FEW, Split, split_at_root};
use cts_elmore::{Descent, Figures, NodeFigure, Pin, figures_from, measure_with};
use cts_instance::Instance;
use cts_num::NoMemory;
use cts_tree::Tree;
use std::alloc::Global;
use std::thread::Threads;

/// So many figures that are none of a tree yet: the room in which workers write those of one. They go into a list without
/// items, which the caller has reserved: one with room for so many takes no memory here. Answers `NoMemory` where an
/// allocation fails.
pub fn figures_room(mut room: Vec<NodeFigure>, count: usize) -> Result<Vec<NodeFigure>, NoMemory>
    requires { room.items ≡ [] }
    ensures { IfOk result (λ room. length room.items ≡ count) }
{
    for _ in 0..count {
        room.push(no_figure())?;
    }
    Ok(room)
}

/// Figures that stand for none.
fn no_figure() -> NodeFigure {
    NodeFigure {
        below: 0,
        offset: 0,
        residue: 0,
        delay: 0,
        stage: 0,
    }
}

/// The figures of a tree that is within the limits, as `cts_elmore::measure_with` answers them, by at most so many threads
/// beside each other, and by one where fewer than two workers are asked for or the tree is small. The pins of its leaves are
/// listed already, in the order of the leaves. Those of the nodes go into the room, which has one place for each, or into a
/// list of their own.
///
/// Loads are in zF, lengths in nm, and delays and arrivals doubled, in 10^-27 s. Answers `NoMemory` where an allocation fails.
pub fn measure_by<R: Threads + Sync>(
    rt: &R,
    alloc: Global,
    workers: u32,
    instance: &Instance,
    tree: &Tree,
    pins: &[Pin],
    room: Vec<NodeFigure>,
) -> Result<Figures, NoMemory>
    requires fits { FitsInstance instance.now tree.now }
    requires within { IsWithinLimits instance.now tree.now }
    requires pins { pins.now ≡ leaf_pins instance.now tree.now }
    requires room { length room.items ≡ length tree.now }
    ensures figures { IfOk result (AreFigures instance.now tree.now) }
    ensures one_each { IfOk result (λ figures. length figures.nodes ≡ length tree.now) }
    ensures in_range { IfOk result AreFiguresInRange }
{
    let nodes = tree.nodes();
    if workers < 2 || nodes.len() < FEW {
        return measure_with(alloc, instance, tree, pins);
    }
    match split_at_root(nodes) {
        Some(parts) => measure_parts(rt, alloc, workers, instance, &parts, pins, room),
        None => measure_with(alloc, instance, tree, pins),
    }
}

/// The same by at most so many threads, for a tree whose root is a pair.
fn measure_parts<R: Threads + Sync>(
    rt: &R,
    alloc: Global,
    workers: u32,
    instance: &Instance,
    parts: &Split<'_>,
    pins: &[Pin],
    mut room: Vec<NodeFigure>,
) -> Result<Figures, NoMemory>
    requires shared { IsSync R.row }
    requires post_order { IsPostOrder (map tree_children parts.now.nodes.now) }
    requires fits { FitsInstance instance.now parts.now.nodes.now }
    requires within { IsWithinLimits instance.now parts.now.nodes.now }
    requires split { IsSplit parts.now }
    requires pins { pins.now ≡ leaf_pins instance.now parts.now.nodes.now }
    requires room { length room.items ≡ length parts.now.nodes.now }
    ensures figures { IfOk result (AreFigures instance.now parts.now.nodes.now) }
    ensures one_each { IfOk result (λ figures. length figures.nodes ≡ length parts.now.nodes.now) }
    ensures in_range { IfOk result AreFiguresInRange }
{
    let (root, drive) = gather_by(
        rt,
        alloc,
        workers,
        instance,
        parts.nodes,
        pins,
        room.as_mut_slice(),
    )?;
    let met = descend(rt, alloc, instance, parts, room.as_mut_slice(), drive)?;
    let descent = Descent {
        figures: room,
        load_met: met.load_met,
        slew_met: met.slew_met,
    };
    Ok(figures_from(instance, parts.nodes, &root, drive, descent))
}
