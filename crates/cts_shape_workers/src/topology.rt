//! The shape over a list of sinks.

ghost use Rattle.std.specs.Prelude.{◌≡◌, ◌+◌, ◌*◌, ◌≤◌, true, false, length, IfOk};
ghost use Rattle.std.specs.List.Sorted.{IsPermutation, IsSortedBy};
ghost use Rattle.cts_units.specs.Limits.{max_sinks};
ghost use Rattle.cts_topo.specs.Shape.{IsShapeOver};
ghost use Rattle.cts_topo.specs.Sinks.{AreSinks};
ghost use Rattle.cts_topo.specs.Topology.{is_before, shape_of};

use crate::divide::{FEW, add_tree_by};
use cts_beside::beside;
use cts_num::NoMemory;
use cts_topo::{Pin, Shape, pins_of, sorted_along, topology};
use cts_units::Sink;
use std::alloc::Global;
use std::thread::Threads;

/// The shape of the tree over these sinks, which `cts_topo::topology` makes too, by at most so many workers beside
/// each other. Takes 1 to 65,536 sinks with distinct ids and coordinates from 0 to 10^8 nm.
///
/// Few sinks are left to the caller's thread, for which it is no more work than to start another one. Answers
/// `NoMemory` where an allocation fails.
pub fn topology_by<R: Threads + Sync>(
    rt: &R,
    alloc: Global,
    sinks: &[Sink],
    workers: u32,
) -> Result<Shape, NoMemory>
    requires { AreSinks sinks.now }
    ensures definition { IfOk result (λ shape. shape ≡ shape_of sinks.now) }
    ensures each_sink_once { IfOk result (IsShapeOver (length sinks.now)) }
    ensures count { IfOk result (λ shape. length shape + 1 ≡ 2 * length sinks.now) }
{
    if workers < 2 || sinks.len() < FEW {
        return topology(alloc, sinks);
    }
    // What stays is made first, so that what goes leaves one room behind it.
    let nodes = Vec::with_capacity(alloc, 2 * sinks.len() - 1)?;
    let mut spare = pins_of(alloc, sinks)?;
    let (by_x, by_y) = sorted_both(rt, alloc, spare.as_slice());
    let mut by_x = by_x?;
    let mut by_y = by_y?;
    let nodes = add_tree_by(
        rt,
        alloc,
        workers,
        0,
        true,
        by_x.as_mut_slice(),
        by_y.as_mut_slice(),
        spare.as_mut_slice(),
        nodes,
    )?;
    Ok(Shape::of(nodes))
}

/// The pins sorted along x by a thread of its own, and along y meanwhile.
fn sorted_both<R: Threads>(
    rt: &R,
    alloc: Global,
    pins: &[Pin],
) -> (Result<Vec<Pin>, NoMemory>, Result<Vec<Pin>, NoMemory>)
    requires { length pins.now ≤ max_sinks }
    ensures same_x { IfOk result.0 (λ by_x. IsPermutation pins.now by_x.items) }
    ensures sorted_x { IfOk result.0 (λ by_x. IsSortedBy (is_before true) by_x.items) }
    ensures same_y { IfOk result.1 (λ by_y. IsPermutation pins.now by_y.items) }
    ensures sorted_y { IfOk result.1 (λ by_y. IsSortedBy (is_before false) by_y.items) }
{
    let x = move || -> Result<Vec<Pin>, NoMemory>
        requires { length pins.now ≤ max_sinks }
        ensures same { IfOk result (λ by_x. IsPermutation pins.entry.now by_x.items) }
        ensures sorted { IfOk result (λ by_x. IsSortedBy (is_before true) by_x.items) }
    { sorted_along(alloc, pins, true) };
    let y = move || -> Result<Vec<Pin>, NoMemory>
        requires { length pins.now ≤ max_sinks }
        ensures same { IfOk result (λ by_y. IsPermutation pins.entry.now by_y.items) }
        ensures sorted { IfOk result (λ by_y. IsSortedBy (is_before false) by_y.items) }
    { sorted_along(alloc, pins, false) };
    beside(rt, x, y)
}
