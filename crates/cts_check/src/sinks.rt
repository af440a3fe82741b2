//! The rule on sinks: each leaf stands at the place of a sink that no leaf before it has, and each sink
//! has a leaf.

ghost use Rattle.std.specs.Prelude.{◌≡◌, ◌++◌, ◌∷◌, [], ◌^◌, ◌≤◌, ◌<◌, ◌↔◌, List, length, slice_get, All, IfOk, IsTrue};
ghost use Rattle.std.specs.Bool.{OnTrue, OnFalse};
ghost use Rattle.cts_geom.specs.Coordinate.{IsCoordinate};
ghost use Rattle.cts_tree.specs.declared.nodes.TreeNode.{TreeNode as SpecTreeNode};
ghost use Rattle.cts_instance.specs.Validity.{IsValid};
ghost use Rattle.cts_check.specs.Marks.{NamesById, StandsAt, marks_of};
ghost use Rattle.cts_check.specs.Rules.{IsFirstFailing, MeetsSink, MeetsSinks};

use cts_geom::{Spot, spot_of};
use cts_instance::Instance;
use cts_num::NoMemory;
use cts_tree::{NodeKind, TreeNode};
use cts_units::Sink;
use std::alloc::Global;

/// The sink at this place of the list, if there is one.
fn sink_at(sinks: &[Sink], place: u32) -> Option<Sink>
    ensures { result ≡ slice_get sinks.now place }
{
    sinks.get(place as usize).copied()
}

/// Whether two points are one.
fn is_same(a: Spot, b: Spot) -> bool
    ensures { IsTrue result ↔ (a ≡ b) }
{
    a.u == b.u && a.v == b.v
}

/// Whether a leaf with this id and place stands at the sink.
fn stands_at(sink: Sink, id: u32, place: Spot) -> bool
    requires x { IsCoordinate sink.x }
    requires y { IsCoordinate sink.y }
    ensures { IsTrue result ↔ StandsAt sink id place }
{
    sink.id == id && is_same(place, spot_of(sink.x, sink.y))
}

/// Whether a node stands at a sink that no node before it stands at, where it is a leaf; the sink is
/// then marked.
fn meets_sink(instance: &Instance, marks: &mut Vec<bool>, node: &TreeNode) -> bool
    requires long { length marks.old.items ≡ length instance.now.sinks }
    requires names { NamesById instance.now.sinks node.now.kind }
    ensures long { length marks.new.items ≡ length instance.now.sinks }
    ensures met { (before : List SpecTreeNode) → marks.old.items ≡ marks_of instance.now.sinks before
        → OnTrue result (MeetsSink instance.now.sinks before node.now × (marks.new.items ≡ marks_of instance.now.sinks (before ++ node.now ∷ []))) }
    ensures missed { (before : List SpecTreeNode) → marks.old.items ≡ marks_of instance.now.sinks before
        → OnFalse result (¬ MeetsSink instance.now.sinks before node.now) }
{
    let NodeKind::Leaf { id, sink } = node.kind else {
        return true;
    };
    let Some(named) = sink_at(instance.sinks(), sink) else {
        return false;
    };
    if !stands_at(named, id, node.place) {
        return false;
    }
    let place = sink as usize;
    if marks[place] {
        return false;
    }
    marks[place] = true;
    true
}

/// Whether all are marked.
fn are_all_marked(marks: &[bool]) -> bool
    ensures { IsTrue result ↔ All IsTrue marks.now }
{
    marks.iter().all(|mark| *mark)
}

/// The first number at which the rule on sinks is broken: that of a leaf that is at no sink, or at the
/// sink of a leaf before it; or the number of nodes, where a sink has no leaf.
pub fn first_unmet_sink(
    alloc: Global,
    instance: &Instance,
    nodes: &[TreeNode],
) -> Result<Option<u32>, NoMemory>
    requires few { length nodes.now ≤ 131071 }
    requires names { All (λ node. NamesById instance.now.sinks node.kind) nodes.now }
    ensures { IfOk result (IsFirstFailing (MeetsSinks instance.now nodes.now)) }
{
    let mut marks = vec![in alloc; false; instance.sinks().len()]?;
    for (number, node) in nodes.iter().enumerate() {
        if !meets_sink(instance, &mut marks, node) {
            return Ok(Some(number as u32));
        }
    }
    if are_all_marked(marks.as_slice()) {
        Ok(None)
    } else {
        Ok(Some(nodes.len() as u32))
    }
}
