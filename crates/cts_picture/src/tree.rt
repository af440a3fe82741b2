//! The wires of a picture.

ghost use Rattle.std.specs.Prelude.{◌≡◌, ◌^◌, ◌<◌, map, All};
ghost use Rattle.std.specs.List.{flat_map};
ghost use Rattle.cts_io.specs.Text.{Puts};
ghost use Rattle.cts_report_reader.specs.Nodes.{seen_kind, seen_node};
ghost use Rattle.cts_report_reader.specs.Seen.{IsSeen, seen_point};
ghost use Rattle.cts_report_reader.specs.Totals.{seen_totals};
ghost use Rattle.cts_picture.specs.Dots.{seen_dot};
ghost use Rattle.cts_picture.specs.Drawable.{HasDrawableTotals, IsDot, IsDrawableNode, IsScale};
ghost use Rattle.cts_picture.specs.Wires.{root_delay, scale_of, wire_text, wire_to, wires_below, wires_from, wires_text};

use crate::wire::{Dot, Scale, dot_of, put_wire};
use cts_geom::Half;
use cts_io::{ByteSink, SinkBuffer};
use cts_report_reader::{ReportKind, ReportNode, ReportTotals};

/// The delay of the root of a tree, in 10^-16 ps, or 0 where there is no node.
fn root_delay(nodes: &[ReportNode]) -> u128
    requires { All IsDrawableNode nodes.now }
    ensures same { result ≡ root_delay (map seen_node nodes.now) }
    ensures short { result < 10 ^ 38 }
{
    match nodes.get(nodes.len().saturating_sub(1)) {
        Some(root) => root.delay,
        None => 0,
    }
}

/// The classes of delay of a tree.
pub fn scale_of(nodes: &[ReportNode], totals: &ReportTotals) -> Scale
    requires { All IsDrawableNode nodes.now }
    ensures same { result ≡ scale_of (map seen_node nodes.now) (seen_totals totals.now) }
    ensures scale { IsScale result }
{
    let start = root_delay(nodes);
    Scale {
        start,
        step: totals.greatest.saturating_sub(start) / 8 + 1,
    }
}

/// The wire from a point to the node of this number, if there is one.
fn put_wire_to<K: ByteSink>(
    out: &mut SinkBuffer,
    sink: &mut K,
    scale: &Scale,
    nodes: &[ReportNode],
    upper: Dot,
    number: usize,
)
    requires scale { IsScale scale.now }
    requires nodes { All IsDrawableNode nodes.now }
    requires upper { IsDot upper }
    ensures { Puts K.ByteSink (sink.old, out.old) (sink.new, out.new)
        (flat_map (wire_text scale.now) (wire_to (map seen_node nodes.now) (seen_dot upper) number)) }
{
    match nodes.get(number) {
        Some(node) => put_wire(out, sink, scale, upper, number as u64, node),
        None => out.put(sink, b""),
    }
}

/// The wires from a place to its children.
fn put_wires_from<K: ByteSink>(
    out: &mut SinkBuffer,
    sink: &mut K,
    scale: &Scale,
    nodes: &[ReportNode],
    place: Half,
    kind: ReportKind,
)
    requires scale { IsScale scale.now }
    requires nodes { All IsDrawableNode nodes.now }
    requires place { IsSeen place }
    ensures { Puts K.ByteSink (sink.old, out.old) (sink.new, out.new)
        (flat_map (wire_text scale.now) (wires_from (map seen_node nodes.now) (seen_point place) (seen_kind kind))) }
{
    match kind {
        ReportKind::Leaf { .. } | ReportKind::TimedLeaf { .. } => out.put(sink, b""),
        ReportKind::Pair { left, right, .. } => {
            let upper = dot_of(place);
            put_wire_to(out, sink, scale, nodes, upper, left as usize);
            put_wire_to(out, sink, scale, nodes, upper, right as usize);
        }
    }
}

/// The wires below all pairs.
fn put_wires_below<K: ByteSink>(
    out: &mut SinkBuffer,
    sink: &mut K,
    scale: &Scale,
    nodes: &[ReportNode],
)
    requires scale { IsScale scale.now }
    requires nodes { All IsDrawableNode nodes.now }
    ensures { Puts K.ByteSink (sink.old, out.old) (sink.new, out.new)
        (flat_map (λ node. flat_map (wire_text scale.now) (wires_below (map seen_node nodes.now) node)) (map seen_node nodes.now)) }
{
    for node in nodes {
        put_wires_from(out, sink, scale, nodes, node.place, node.kind);
    }
}

/// All wires of a tree whose source is at this point.
pub fn put_wires<K: ByteSink>(
    out: &mut SinkBuffer,
    sink: &mut K,
    scale: &Scale,
    source: Dot,
    nodes: &[ReportNode],
)
    requires scale { IsScale scale.now }
    requires source { IsDot source }
    requires nodes { All IsDrawableNode nodes.now }
    ensures { Puts K.ByteSink (sink.old, out.old) (sink.new, out.new)
        (wires_text scale.now (seen_dot source) (map seen_node nodes.now)) }
{
    let root = nodes.len().saturating_sub(1);
    put_wire_to(out, sink, scale, nodes, source, root);
    put_wires_below(out, sink, scale, nodes);
}
