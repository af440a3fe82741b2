//! The shape over a list of sinks that was divided before.

ghost use Rattle.std.specs.Prelude.{◌≡◌, ◌+◌, ◌*◌, ◌≤◌, length, IfOk};
ghost use Rattle.std.specs.List.Sorted.{IsSortedBy};
ghost use Rattle.cts_units.specs.Limits.{max_sinks};
ghost use Rattle.cts_topo.specs.Shape.{IsShapeOver};
ghost use Rattle.cts_topo.specs.Shuffled.{Shuffled};
ghost use Rattle.cts_topo.specs.Sinks.{AreSinks};
ghost use Rattle.cts_topo.specs.Topology.{is_before, shape_of};
ghost use Rattle.cts_topo.specs.Rising.{AreFresh};

use crate::divide::{add_tree, pins_of, sorted_along};
use crate::merge::merged;
use crate::order::Order;
use crate::overlap::Overlap;
use crate::pin::Pin;
use crate::shape::Shape;
use cts_num::NoMemory;
use cts_units::Sink;
use std::alloc::Global;

/// The shape of the tree over these sinks, which [`topology`](crate::topology) makes too. Takes 1 to 65,536 sinks with distinct
/// ids and coordinates from 0 to 10^8 nm.
///
/// The order is that of the last sinks, and afterwards that of these. The shape takes the less time the more of the last
/// sinks stayed where they were, and it is the same whatever the order holds. Answers `NoMemory` where an allocation
/// fails; the order then is one of some sinks.
pub fn topology_again(alloc: Global, sinks: &[Sink], order: &mut Order) -> Result<Shape, NoMemory>
    requires { AreSinks sinks.now }
    ensures definition { IfOk result (λ shape. shape ≡ shape_of sinks.now) }
    ensures each_sink_once { IfOk result (IsShapeOver (length sinks.now)) }
    ensures count { IfOk result (λ shape. length shape + 1 ≡ 2 * length sinks.now) }
{
    // What stays is made first, so that what goes leaves one room behind it.
    let mut nodes = Vec::with_capacity(alloc, 2 * sinks.len() - 1)?;
    let pins = pins_of(alloc, sinks)?;
    let overlap = Overlap::between(alloc, order.pins.as_slice(), pins.as_slice())?;
    let mut by_x = sorted_again(
        alloc,
        pins.as_slice(),
        order.by_x.as_slice(),
        &overlap,
        true,
    )?;
    let mut by_y = sorted_again(
        alloc,
        pins.as_slice(),
        order.by_y.as_slice(),
        &overlap,
        false,
    )?;
    let mut spare = order.keep(pins, by_x.as_slice(), by_y.as_slice())?;
    add_tree(
        0,
        true,
        by_x.as_mut_slice(),
        by_y.as_mut_slice(),
        spare.as_mut_slice(),
        &mut nodes,
    )?;
    Ok(Shape::of(nodes))
}

/// The pins sorted along an axis, by the places that the last ones had in their order along it.
fn sorted_again(
    alloc: Global,
    pins: &[Pin],
    last: &[u32],
    overlap: &Overlap,
    wide: bool,
) -> Result<Vec<Pin>, NoMemory>
    requires few { length pins.now ≤ max_sinks }
    requires fresh { AreFresh pins.now overlap.now.fresh.items }
    ensures same { IfOk result (λ sorted. Shuffled pins.now sorted.items) }
    ensures sorted { IfOk result (λ sorted. IsSortedBy (is_before wide) sorted.items) }
{
    let some = merged(alloc, pins, last, overlap, wide)?;
    if some.len() == pins.len() {
        return Ok(some);
    }
    sorted_along(alloc, pins, wide)
}
