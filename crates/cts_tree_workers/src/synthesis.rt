//! The synthesis of an instance by several workers in parallel, before and after the plan of its shape.

ghost use Rattle.std.specs.Prelude.{◌≡◌, length, All, IfOk, IfErr};
ghost use Rattle.cts_topo.specs.Shape.{IsShapeOver};
ghost use Rattle.cts_topo.specs.Sinks.{AreSinks};
ghost use Rattle.cts_topo.specs.Topology.{shape_of};
ghost use Rattle.cts_up.specs.Sites.{AreSites};
ghost use Rattle.cts_embed.specs.Fitting.{Fits};
ghost use Rattle.cts_elmore.specs.Figures.{AreFigures, AreFiguresInRange};
ghost use Rattle.cts_elmore.specs.Loads.{leaf_pins};
ghost use Rattle.cts_elmore.specs.Sound.{IsSound, StandsInDie};
ghost use Rattle.cts_plain.specs.Ends.{EndsWithPlan};
ghost use Rattle.cts_plain.specs.Synthesis.{IsPlacedBy, IsSynthesisOver, made};
ghost use Rattle.cts_tree_workers.specs.Rooms.{AreEmpty, AreFor, AreReady};

use crate::rooms::{Rooms, fill, reserve};
use crate::settle::settle_by;
use cts_beside::beside;
use cts_elmore::{Figures, NodeFigure, Pin};
use cts_embed::Leaves;
use cts_instance::Instance;
use cts_num::NoMemory;
use cts_plain::NoTree;
use cts_shape_workers::{embed_by, topology_by};
use cts_topo::Shape;
use cts_tree::{Placed, Tree};
use cts_units::Sink;
use cts_up::Site;
use std::alloc::Global;
use std::thread::Threads;

/// The shape over sinks, by so many workers, and rooms for the tree over it, which a thread of its own fills meanwhile.
/// `NoMemory` comes where an allocation fails.
pub fn shape_by<R: Threads + Sync>(
    rt: &R,
    alloc: Global,
    workers: u32,
    sinks: &[Sink],
) -> Result<(Shape, Rooms), NoMemory>
    requires { AreSinks sinks.now }
    ensures definition { IfOk result (λ made. made.0 ≡ shape_of sinks.now) }
    ensures shape { IfOk result (λ made. IsShapeOver (length sinks.now) made.0) }
    ensures rooms { IfOk result (λ made. AreFor (length made.0) made.1) }
{
    let count = 2 * sinks.len() - 1;
    let rooms = reserve(alloc, count)?;
    let build = move || -> Result<Rooms, NoMemory>
        requires { AreEmpty rooms }
        ensures { IfOk result (AreFor count) }
    { fill(rooms, count) };
    let halve = move || -> Result<Shape, NoMemory>
        requires { AreSinks sinks.now }
        ensures definition { IfOk result (λ shape. shape ≡ shape_of sinks.entry.now) }
        ensures shape { IfOk result (IsShapeOver (length sinks.entry.now)) }
    { topology_by(rt, alloc, sinks, workers) };
    let (rooms, shape) = beside(rt, build, halve);
    Ok((shape?, rooms?))
}

/// What is left to settle: the placed nodes of a tree, the pins of its leaves, and room for its figures.
#[derive(Drop)]
struct Ground {
    placed: Placed,
    pins: Vec<Pin>,
    figures: Vec<NodeFigure>,
}

/// The nodes of the shape of an instance in their places, by so many workers.
fn place<R: Threads + Sync>(
    rt: &R,
    alloc: Global,
    workers: u32,
    instance: &Instance,
    shape: &Shape,
    sites: &[Site],
    rooms: Rooms,
) -> Result<Ground, NoTree>
    requires shape { IsShapeOver (length instance.now.sinks) shape.now }
    requires sites { AreSites instance.now.params instance.now.sinks shape.now sites.now }
    requires rooms { AreReady instance.now shape.now rooms }
    ensures fits { IfOk result (λ made. Fits instance.now made.placed) }
    ensures placed { IfOk result (λ made. IsPlacedBy instance.now shape.now made.placed) }
    ensures pins { IfOk result (λ made. made.pins.items ≡ leaf_pins instance.now made.placed) }
    ensures ends { IfErr result (EndsWithPlan instance.now shape.now) }
{
    let Rooms {
        nodes,
        figures,
        leaves,
    } = rooms;
    let Leaves { ids, pins } = leaves;
    let ids = ids.as_slice();
    let placed = embed_by(rt, alloc, workers, instance, shape, sites, ids, nodes)?;
    Ok(Ground {
        placed,
        pins,
        figures,
    })
}

/// The tree of an instance over its shape and the sites of the shape's plan, by so many workers: what
/// `cts_plain::finish` gives of the plan. There is only one answer beside want of memory, by the laws of that crate.
///
/// `Cut` with the greatest number of a node that no route reaches, or else `Beyond` with the least number of one that is over the
/// limits in the balance; `NoMemory` where an allocation fails. Where no thread can be made the caller does all.
pub fn tree_by<R: Threads + Sync>(
    rt: &R,
    alloc: Global,
    workers: u32,
    instance: &Instance,
    shape: &Shape,
    sites: &[Site],
    rooms: Rooms,
) -> Result<(Tree, Figures), NoTree>
    requires shape { IsShapeOver (length instance.now.sinks) shape.now }
    requires sites { AreSites instance.now.params instance.now.sinks shape.now sites.now }
    requires rooms { AreReady instance.now shape.now rooms }
    ensures tree { IfOk result (λ r. IsSynthesisOver instance.now shape.now (made r.0)) }
    ensures figures { IfOk result (λ r. AreFigures instance.now r.0 r.1) }
    ensures sound { IfOk result (λ r. IsSound instance.now r.0) }
    ensures one_each { IfOk result (λ r. length r.1.nodes ≡ length r.0) }
    ensures in_range { IfOk result (λ r. AreFiguresInRange r.1) }
    ensures in_die { IfOk result (λ r. All (StandsInDie instance.now.die) r.0) }
    ensures ends { IfErr result (EndsWithPlan instance.now shape.now) }
{
    match place(rt, alloc, workers, instance, shape, sites, rooms) {
        Ok(
            Ground {
                placed,
                pins,
                figures,
            },
        ) => settle_by(
            rt,
            alloc,
            workers,
            instance,
            placed,
            figures,
            pins.as_slice(),
        ),
        Err(end) => Err(end),
    }
}
