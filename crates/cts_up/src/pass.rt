//! The pass over the nodes of a shape.

ghost use Rattle.std.specs.Prelude.{◌≡◌, ◌+◌, ◌≤◌, length, IfOk, IfErr, OnOk};
ghost use Rattle.cts_units.specs.Limits.{IsParams};
ghost use Rattle.cts_topo.specs.Shape.{IsShapeOver};
ghost use Rattle.cts_up.specs.Ends.{CountsPairs, Ends};
ghost use Rattle.cts_up.specs.Plan.{IsPlan};
ghost use Rattle.cts_up.specs.Sinks.{AreSinksInRange};

use crate::ascent::Ascent;
use crate::end::UpEnd;
use cts_merge::{Finished, Steps};
use cts_topo::Shape;
use cts_units::{Params, Sink};
use std::alloc::Global;
use std::sync::ledger::Ledger;

/// The plan of a shape over sinks: what each of its nodes is made of, by number.
///
/// A leaf has twice its sink's wanted offset as greatest delay, in 10^-27 s, its sink's capacitance as load and
/// its point as region. A pair has the least pair of wire lengths over the gap of its two parts, its merging
/// region, and its buffer. Answers
/// `Beyond` with the least number of a node that is over the limits of wires, loads or delays while
/// its two children are finished, and `NoMemory` where an allocation fails. Each pair that is tried
/// counts one merge. The rule is the upward pass of deferred-merge embedding.
pub fn up<L: Ledger>(
    alloc: Global,
    params: &Params,
    sinks: &[Sink],
    shape: &Shape,
    steps: &mut Steps<L>,
) -> Result<Vec<Finished>, UpEnd>
    requires params { IsParams params.now }
    requires sinks { AreSinksInRange sinks.now }
    requires shape { IsShapeOver (length sinks.now) shape.now }
    ensures plan { IfOk result (λ plan. IsPlan params.now sinks.now shape.now plan.items) }
    ensures ends { IfErr result (Ends params.now sinks.now shape.now) }
    ensures merges { OnOk result (steps.new + 1 ≡ steps.old + length sinks.now) }
    ensures merges_until { IfErr result (CountsPairs shape.now steps.old steps.new) }
    ensures merges_at_most { steps.new + 1 ≤ steps.old + length sinks.now }
{
    let nodes = shape.nodes();
    let mut ascent = Ascent::begin(alloc, sinks, nodes)?;
    let mut plan = Vec::with_capacity(alloc, nodes.len())?;
    for number in 0..nodes.len() {
        let Ok(finished) = ascent.finish(params, sinks, nodes, number, steps) else {
            return Err(UpEnd::Beyond {
                node: number as u32,
            });
        };
        ascent.waiting.push(finished.side)?;
        plan.push(finished)?;
    }
    Ok(plan)
}
