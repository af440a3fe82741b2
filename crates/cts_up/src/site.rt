//! What the places of a tree need of its plan, and the pass that keeps no more of it.

ghost use Rattle.std.specs.Prelude.{◌≡◌, ◌+◌, ◌≤◌, length, IfOk, IfErr, OnOk};
ghost use Rattle.cts_units.specs.Limits.{IsParams};
ghost use Rattle.cts_topo.specs.Shape.{IsShapeOver, IsStretchOver};
ghost use Rattle.cts_up.specs.Ends.{CountsPairs, Ends};
ghost use Rattle.cts_up.specs.Sinks.{AreSinksInRange};
ghost use Rattle.cts_up.specs.Sites.{AreSites, site_of as spec_site_of};
ghost use Rattle.cts_up.specs.Stretches.{AreSitesFrom, EndsFrom, IsSideFrom};

use crate::ascent::Ascent;
use crate::end::UpEnd;
use cts_geom::Region;
use cts_merge::{Finished, Side, Steps};
use cts_topo::{Shape, ShapeNode};
use cts_units::{Params, Sink};
use std::alloc::Global;
use std::sync::ledger::Ledger;

/// Where a node may stand, and the buffer that it gets: all of a finished node that its place depends on.
#[derive(Clone, Copy)]
pub struct Site {
    /// Its merging region.
    pub region: Region,
    /// The index in the library of the buffer at the node.
    pub buffer: Option<u16>,
}

/// What the place of a finished node depends on.
pub fn site_of(finished: &Finished) -> Site
    ensures { result ≡ spec_site_of finished.now }
{
    Site {
        region: finished.side.region,
        buffer: finished.buffer,
    }
}

/// The sites of a shape over sinks: where each of its nodes may stand, and its buffer, by number.
///
/// They are those of the plan that [`up`] gives, made in the same way; what a pair needs of its two
/// parts waits on a stack, and the rest of the plan is not kept. Answers `Beyond` with the least number
/// of a node that is over the limits of wires, loads or delays while its two children are finished, and
/// `NoMemory` where an allocation fails. Each pair that is tried counts one merge.
pub fn sites<L: Ledger>(
    alloc: Global,
    params: &Params,
    sinks: &[Sink],
    shape: &Shape,
    steps: &mut Steps<L>,
) -> Result<Vec<Site>, UpEnd>
    requires params { IsParams params.now }
    requires sinks { AreSinksInRange sinks.now }
    requires shape { IsShapeOver (length sinks.now) shape.now }
    ensures sites { IfOk result (λ sites. AreSites params.now sinks.now shape.now sites.items) }
    ensures ends { IfErr result (Ends params.now sinks.now shape.now) }
    ensures merges { OnOk result (steps.new + 1 ≡ steps.old + length sinks.now) }
    ensures merges_until { IfErr result (CountsPairs shape.now steps.old steps.new) }
    ensures merges_at_most { steps.new + 1 ≤ steps.old + length sinks.now }
{
    let nodes = shape.nodes();
    let mut ascent = Ascent::begin(alloc, sinks, nodes)?;
    let mut sites = Vec::with_capacity(alloc, nodes.len())?;
    for number in 0..nodes.len() {
        let Ok(finished) = ascent.finish(params, sinks, nodes, number, steps) else {
            return Err(UpEnd::Beyond {
                node: number as u32,
            });
        };
        ascent.waiting.push(finished.side)?;
        sites.push(site_of(&finished))?;
    }
    Ok(sites)
}

/// The sites of a stretch of a shape's nodes, of which the first one has the number `first` in the shape,
/// written over what stands in `out`, and the side of its root.
///
/// They are made as [`sites`] makes those of a whole shape. Answers `Beyond` with the least number of a node
/// that is over the limits of wires, loads or delays while its two children are finished, as it is numbered in
/// the shape, and `NoMemory` where an allocation fails; then some of the sites may be written. Each pair that
/// is tried counts one merge.
pub fn sites_part<L: Ledger>(
    alloc: Global,
    params: &Params,
    sinks: &[Sink],
    first: u32,
    nodes: &[ShapeNode],
    out: &mut [Site],
    steps: &mut Steps<L>,
) -> Result<Side, UpEnd>
    requires params { IsParams params.now }
    requires sinks { AreSinksInRange sinks.now }
    requires stretch { IsStretchOver (length sinks.now) first nodes.now }
    requires few { first + length nodes.now ≤ 131071 }
    requires room { length out.old ≡ length nodes.now }
    ensures sites { IfOk result (λ _. AreSitesFrom params.now sinks.now first nodes.now out.new) }
    ensures side { IfOk result (IsSideFrom params.now sinks.now first nodes.now) }
    ensures ends { IfErr result (EndsFrom params.now sinks.now first nodes.now) }
{
    let mut ascent = Ascent::begin(alloc, sinks, nodes)?;
    for place in 0..nodes.len() {
        let Ok(finished) = ascent.finish(params, sinks, nodes, place, steps) else {
            return Err(UpEnd::Beyond {
                node: first + place as u32,
            });
        };
        ascent.waiting.push(finished.side)?;
        out[place] = site_of(&finished);
    }
    let Some(root) = ascent.waiting.pop() else {
        unreachable!()
    };
    Ok(root)
}
