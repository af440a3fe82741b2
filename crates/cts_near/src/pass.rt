//! The joining, from the sinks to one tree.

ghost use Rattle.std.specs.Prelude.{◌≡◌, ◌<◌, ◌≤◌, length, IfErr, IfOk};
ghost use Rattle.std.specs.Result.{IsErrOf};
ghost use Rattle.cts_units.specs.declared.params.Sink.{Sink};
ghost use Rattle.cts_units.specs.Ids.{HasDistinctIds};
ghost use Rattle.cts_units.specs.Limits.{IsParams};
ghost use Rattle.cts_topo.specs.Shape.{IsShapeOver};
ghost use Rattle.cts_up.specs.Sinks.{AreSinksInRange};
ghost use Rattle.cts_near.specs.declared.end.NearEnd.TheVariants.{Many};
ghost use Rattle.cts_near.specs.Ends.{Ends, max_near_sinks};
ghost use Rattle.cts_near.specs.NearShape.{IsNearShape};

use crate::end::NearEnd;
use crate::forest::Forest;
use crate::nodes::shape_at;
use cts_merge::Steps;
use cts_topo::Shape;
use cts_units::{Params, Sink};
use std::alloc::Global;
use std::marker::Brand;
use std::sync::ledger::{Blank, Ledger};

/// The most sinks that a nearest-pair topology is made for.
pub const MAX_NEAR_SINKS: usize = 2048;

/// The nearest-pair topology of the sinks.
///
/// At first each sink is a part, named by its id. Each step joins the two parts whose merging regions have the least gap;
/// ties go by the lesser name of the two, and then by the other one. The part of the lesser name is the left one, and the
/// pair has its name. The pair's region, load and delay are those of the upward pass. A leaf of the shape names its sink
/// by its place in the list. Takes sinks with distinct ids, at least one.
///
/// Answers `Many` exactly where there are more than 2,048 sinks, `Beyond` with the number of the first step, from 1, whose
/// pair is over the limits of wires, loads or delays, and `NoMemory` where an allocation fails.
pub fn near(alloc: Global, params: &Params, sinks: &[Sink]) -> Result<Shape, NearEnd>
    requires params { IsParams params.now }
    requires sinks { AreSinksInRange sinks.now }
    requires some { 0 < length sinks.now }
    requires distinct { HasDistinctIds (λ (s : Sink). s.id) sinks.now }
    ensures shape { IfOk result (IsNearShape params.now sinks.now) }
    ensures each_sink_once { IfOk result (IsShapeOver (length sinks.now)) }
    ensures ends { IfErr result (Ends params.now sinks.now) }
    ensures many { max_near_sinks < length sinks.now → IsErrOf result Many }
{
    if sinks.len() > MAX_NEAR_SINKS {
        return Err(NearEnd::Many);
    }
    near_counted::<Brand>(alloc, Blank::new(1), params, sinks)
}

/// The topology of few enough sinks, with a counter of merges of its own.
fn near_counted<L: Ledger>(
    alloc: Global,
    blank: Blank,
    params: &Params,
    sinks: &[Sink],
) -> Result<Shape, NearEnd>
    requires name { blank.name ≡ L.name }
    requires parts { blank.parts ≡ L.parts }
    requires owned { 0 < L.parts }
    requires params { IsParams params.now }
    requires sinks { AreSinksInRange sinks.now }
    requires some { 0 < length sinks.now }
    requires few { length sinks.now ≤ max_near_sinks }
    requires distinct { HasDistinctIds (λ (s : Sink). s.id) sinks.now }
    ensures shape { IfOk result (IsNearShape params.now sinks.now) }
    ensures each_sink_once { IfOk result (IsShapeOver (length sinks.now)) }
    ensures ends { IfErr result (Ends params.now sinks.now) }
{
    let mut steps = Steps::<L>::open(blank);
    let mut forest = Forest::begin(alloc, sinks)?;
    for step in 1..sinks.len() {
        forest.join_closest(params, sinks, step as u32, &mut steps)?;
    }
    let shape = shape_at(alloc, forest.joins.as_slice(), forest.subtrees[0].node)?;
    Ok(shape)
}
