//! The line of a node.

ghost use Rattle.std.specs.Prelude.{◌^◌, ◌≤◌, map};
ghost use Rattle.std.specs.List.{flat_map};
ghost use Rattle.cts_io.specs.Text.{Puts};
ghost use Rattle.cts_report.specs.Lines.{arrival_words, buffer_words, corner_words, load_words, name_words, node_line, point_words};
ghost use Rattle.cts_report.specs.Report.{IsPrintableFigure, IsPrintableNode, printed_arrival, printed_kind, printed_node, printed_point};

use crate::words::{
    put_capacitance, put_delay, put_length, put_place, put_point, put_slew, put_whole,
};
use cts_elmore::NodeFigure;
use cts_geom::Half;
use cts_instance::Version;
use cts_io::{ByteSink, SinkBuffer};
use cts_tree::{NodeKind, TreeNode};

/// The line of the node of this number, in a report of this version.
pub fn put_node<K: ByteSink>(
    out: &mut SinkBuffer,
    sink: &mut K,
    version: Version,
    number: usize,
    node: &TreeNode,
    figure: &NodeFigure,
)
    requires node { IsPrintableNode node.now }
    requires figure { IsPrintableFigure figure.now }
    ensures { Puts K.ByteSink (sink.old, out.old) (sink.new, out.new)
        (node_line number (printed_node version node.now figure.now)) }
{
    put_whole(out, sink, b"node ", number as u64);
    put_name(out, sink, node.kind, figure.residue);
    out.put(sink, b" at");
    put_place(out, sink, node.place);
    put_load(out, sink, node.kind, figure.below, figure.residue);
    put_delay(out, sink, b" delay ", figure.delay);
    let arrival = figure.delay + 2 * u128::from(figure.offset);
    put_arrival(out, sink, version, node.kind, arrival);
    put_slew(out, sink, b" slew ", figure.stage);
    put_length(out, sink, b" wire ", node.wire);
    put_corners(out, sink, node.route.corners.items());
    out.put(sink, b"\n");
}

/// What a node is: the id of its sink, or its left and right child.
#[tactic(auto, unfolding(crate::specs::Lines::name_words))]
fn put_name<K: ByteSink>(out: &mut SinkBuffer, sink: &mut K, kind: NodeKind, residue: u128)
    ensures { Puts K.ByteSink (sink.old, out.old) (sink.new, out.new) (name_words (printed_kind kind residue)) }
{
    match kind {
        NodeKind::Leaf { id, .. } => put_whole(out, sink, b" leaf ", u64::from(id)),
        NodeKind::Pair { left, right, .. } => {
            put_whole(out, sink, b" pair ", u64::from(left));
            put_whole(out, sink, b" ", u64::from(right));
        }
    }
}

/// The load of a node, and what pairs alone have: buffer and residue.
#[tactic(auto, unfolding(crate::specs::Lines::load_words))]
fn put_load<K: ByteSink>(
    out: &mut SinkBuffer,
    sink: &mut K,
    kind: NodeKind,
    load: u64,
    residue: u128,
)
    requires { residue ≤ 10 ^ 37 }
    ensures { Puts K.ByteSink (sink.old, out.old) (sink.new, out.new)
        (load_words (printed_kind kind residue) load) }
{
    match kind {
        NodeKind::Leaf { .. } => put_capacitance(out, sink, b" load ", load),
        NodeKind::Pair { buffer, .. } => {
            put_buffer(out, sink, buffer);
            put_capacitance(out, sink, b" load ", load);
            put_delay(out, sink, b" residue ", residue);
        }
    }
}

#[tactic(auto, unfolding(crate::specs::Lines::buffer_words))]
fn put_buffer<K: ByteSink>(out: &mut SinkBuffer, sink: &mut K, buffer: Option<u16>)
    ensures { Puts K.ByteSink (sink.old, out.old) (sink.new, out.new) (buffer_words buffer) }
{
    match buffer {
        Some(index) => put_whole(out, sink, b" buffer ", u64::from(index)),
        None => out.put(sink, b" buffer none"),
    }
}

/// The arrival of a leaf, which only version 2 prints.
#[inline(always)]
fn put_arrival<K: ByteSink>(
    out: &mut SinkBuffer,
    sink: &mut K,
    version: Version,
    kind: NodeKind,
    arrival: u128,
)
    requires { arrival ≤ 10 ^ 37 }
    ensures { Puts K.ByteSink (sink.old, out.old) (sink.new, out.new)
        (arrival_words (printed_arrival version kind arrival)) }
{
    match version {
        Version::One => {}
        Version::Two => put_leaf_arrival(out, sink, kind, arrival),
    }
}

fn put_leaf_arrival<K: ByteSink>(out: &mut SinkBuffer, sink: &mut K, kind: NodeKind, arrival: u128)
    requires { arrival ≤ 10 ^ 37 }
    ensures { Puts K.ByteSink (sink.old, out.old) (sink.new, out.new)
        (arrival_words (printed_arrival Version.Two kind arrival)) }
{
    match kind {
        NodeKind::Leaf { .. } => put_delay(out, sink, b" arrival ", arrival),
        NodeKind::Pair { .. } => {}
    }
}

/// The number of corners, and each of them.
fn put_corners<K: ByteSink>(out: &mut SinkBuffer, sink: &mut K, corners: &[Half])
    ensures { Puts K.ByteSink (sink.old, out.old) (sink.new, out.new)
        (corner_words (map printed_point corners.now)) }
{
    put_whole(out, sink, b" via ", corners.len() as u64);
    put_points(out, sink, corners);
}

fn put_points<K: ByteSink>(out: &mut SinkBuffer, sink: &mut K, points: &[Half])
    ensures { Puts K.ByteSink (sink.old, out.old) (sink.new, out.new)
        (flat_map point_words (map printed_point points.now)) }
{
    for point in points {
        put_point(out, sink, *point);
    }
}
