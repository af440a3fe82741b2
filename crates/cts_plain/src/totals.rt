//! The skew and the wire of a tree.

ghost use Rattle.std.specs.Prelude.{length, IfOk, IfErr, IfSome};
ghost use Rattle.cts_topo.specs.Shape.{IsShapeOver};
ghost use Rattle.cts_up.specs.Sites.{AreSites};
ghost use Rattle.cts_plain.specs.Ends.{EndsWithPlan};
ghost use Rattle.cts_plain.specs.Totals.{AreTotalsOver};

use crate::below::tree_below;
use crate::end::NoTree;
use crate::synthesis::finish_sites;
use cts_embed::{ground_of, is_root_within, source_place};
use cts_instance::Instance;
use cts_topo::{Shape, ShapeNode};
use cts_up::Site;
use std::alloc::Global;

/// What is told of a tree: its skew, doubled, in 10^-27 s, and the lengths of all its wires together in nm.
#[derive(Clone, Copy, Debug, PartialEq, Eq)]
pub struct Totals {
    pub skew: u128,
    pub wire: u64,
}

/// The whole tree below the source, where it is within the limits and memory lasts.
fn whole(alloc: Global, instance: &Instance, nodes: &[ShapeNode], sites: &[Site]) -> Option<Totals>
    requires shape { IsShapeOver (length instance.now.sinks) nodes.now }
    requires sites { AreSites instance.now.params instance.now.sinks nodes.now sites.now }
    ensures { IfSome result (AreTotalsOver instance.now nodes.now) }
{
    let Ok(ground) = ground_of(alloc, instance) else {
        return None;
    };
    let last = (nodes.len() - 1) as u32;
    let source = source_place(instance);
    let root = tree_below(alloc, instance, &ground, nodes, sites, last, source)?;
    if !is_root_within(instance, root.route, &root.balance) {
        return None;
    }
    Some(Totals {
        skew: root.balance.greatest - root.balance.least,
        wire: root.balance.wires + root.route,
    })
}

/// The skew and the wire of the tree of a shape, by the sites of its plan.
///
/// Where there is no such tree the end is that of `cts_plain::finish_sites`, which is asked in that case: `Cut` with the
/// greatest number of a node that no route reaches, `Beyond` with the least number of a node that is over the limits in the
/// balance, `NoMemory` where an allocation fails.
pub fn totals_of(
    alloc: Global,
    instance: &Instance,
    shape: &Shape,
    sites: &[Site],
) -> Result<Totals, NoTree>
    requires shape { IsShapeOver (length instance.now.sinks) shape.now }
    requires sites { AreSites instance.now.params instance.now.sinks shape.now sites.now }
    ensures totals { IfOk result (AreTotalsOver instance.now shape.now) }
    ensures ends { IfErr result (EndsWithPlan instance.now shape.now) }
{
    if let Some(totals) = whole(alloc, instance, shape.nodes(), sites) {
        return Ok(totals);
    }
    let Ok(own) = Vec::from_slice(alloc, sites) else {
        return Err(NoTree::NoMemory);
    };
    let (_tree, figures) = finish_sites(alloc, instance, shape, own)?;
    Ok(Totals {
        skew: figures.skew,
        wire: figures.wire_total,
    })
}
