//! The tree that a report tells, and what the report says of its nodes beside it.

ghost use Rattle.std.specs.Prelude.{◌≡◌, ◌+◌, ◌/◌, ◌%◌, ◌≤◌, List, length, All, IfOk};
ghost use Rattle.cts_units.specs.Ids.{HasDistinctIds};
ghost use Rattle.cts_units.specs.declared.params.Sink.{Sink};
ghost use Rattle.cts_report_reader.specs.Nodes.{seen_arrival, seen_kind, seen_node, seen_nodes};
ghost use Rattle.cts_report_reader.specs.Seen.{IsSeen, seen_point};
ghost use Rattle.cts_report_reader.specs.Bounds.{IsPrintedPlace};
ghost use Rattle.cts_check.specs.Claims.{IsTellable, claim_seen, claimed_residue, claims_seen};
ghost use Rattle.cts_check.specs.Places.{FindsSinks};
ghost use Rattle.cts_check.specs.Told.{told_kind as spec_told_kind, told_node as spec_told_node, told_nodes, told_place};

use crate::places::{NamedSink, ids_of, place_of};
use cts_geom::{Half, Spot, spot_of_half};
use cts_num::NoMemory;
use cts_report_reader::{ReportKind, ReportNode};
use cts_tree::{Corners, NodeKind, Route, TreeNode};
use cts_units::Sink;
use std::alloc::Global;
use std::mem;

/// The figures that a report prints of a node.
#[derive(Clone, Copy, Debug, PartialEq, Eq)]
pub struct Claim {
    /// The load below it in zF.
    pub load: u128,
    /// The residue of a pair in 10^-16 ps.
    pub residue: Option<u128>,
    /// The delay at its place in 10^-16 ps.
    pub delay: u128,
    /// The arrival of a leaf in 10^-16 ps, where the report tells it.
    pub arrival: Option<u128>,
    /// The slew at its place in 10^-16 ps.
    pub slew: u128,
}

/// The figures that a report prints of this node.
#[inline(always)]
pub fn claim_of(node: &ReportNode) -> Claim
    ensures { result ≡ claim_seen node.now }
{
    Claim {
        load: node.load,
        residue: residue_of(node.kind),
        delay: node.delay,
        arrival: arrival_of(node.kind),
        slew: node.slew,
    }
}

/// The residue of a pair.
#[inline(always)]
fn residue_of(kind: ReportKind) -> Option<u128>
    ensures { result ≡ claimed_residue (seen_kind kind) }
{
    match kind {
        ReportKind::Leaf { .. } | ReportKind::TimedLeaf { .. } => None,
        ReportKind::Pair { residue, .. } => Some(residue),
    }
}

/// The arrival of a leaf, where it is told.
#[inline(always)]
fn arrival_of(kind: ReportKind) -> Option<u128>
    ensures { result ≡ seen_arrival kind }
{
    match kind {
        ReportKind::Leaf { .. } | ReportKind::Pair { .. } => None,
        ReportKind::TimedLeaf { arrival, .. } => Some(arrival),
    }
}

/// What a node of a tree is, with the places of the sinks by their ids.
fn told_kind(ids: &[NamedSink], kind: ReportKind) -> NodeKind
    requires { length ids.now ≤ 65536 }
    ensures { (sinks : List Sink) → FindsSinks sinks ids.now
        → result ≡ spec_told_kind sinks (seen_kind kind) }
{
    match kind {
        ReportKind::Leaf { id } | ReportKind::TimedLeaf { id, .. } => NodeKind::Leaf {
            id,
            sink: place_of(ids, id),
        },
        ReportKind::Pair {
            left,
            right,
            buffer,
            ..
        } => NodeKind::Pair {
            left,
            right,
            buffer,
        },
    }
}

/// The spot of a node's place.
fn place_at(point: Half) -> Spot
    requires seen { IsSeen point }
    requires place { IsPrintedPlace (seen_point point) }
    ensures { result ≡ told_place (seen_point point) }
{
    match spot_of_half(point) {
        Some(spot) => spot,
        None => unreachable!(),
    }
}

/// A node of a tree, which takes over the corners of what the report tells. A report does not print how long a route is.
fn told_node(ids: &[NamedSink], node: &mut ReportNode) -> TreeNode
    requires few { length ids.now ≤ 65536 }
    requires node { IsTellable node.old }
    ensures told { (sinks : List Sink) → FindsSinks sinks ids.now
        → result ≡ spec_told_node sinks (seen_node node.old) }
    ensures claim { claim_seen node.new ≡ claim_seen node.old }
{
    TreeNode {
        kind: told_kind(ids, node.kind),
        place: place_at(node.place),
        wire: u64::from(node.wire),
        route: Route {
            corners: mem::replace(&mut node.corners, Corners::none()),
            length: 0,
        },
    }
}

/// The nodes of the tree that a report tells, by number. They take over the corners, and the figures that it prints of
/// each node stay where they are.
pub fn told_nodes_of(
    alloc: Global,
    sinks: &[Sink],
    nodes: &mut [ReportNode],
) -> Result<Vec<TreeNode>, NoMemory>
    requires ids { HasDistinctIds (λ s. s.id) sinks.now }
    requires few { length sinks.now ≤ 65536 }
    requires nodes { All IsTellable nodes.old }
    ensures tree { IfOk result (λ tree. tree.items ≡ told_nodes sinks.now (seen_nodes nodes.old)) }
    ensures claims { claims_seen nodes.new ≡ claims_seen nodes.old }
{
    let ids = ids_of(alloc, sinks)?;
    let mut tree = Vec::with_capacity(alloc, nodes.len())?;
    for node in nodes.iter_mut() {
        tree.push(told_node(ids.as_slice(), node))?;
    }
    Ok(tree)
}
