//! Blocks, sinks, buffers and the source upon the die.

ghost use Rattle.std.specs.Prelude.{◌*◌, ◌^◌, ◌≤◌, pos, ◌≤ℤ◌, map, All};
ghost use Rattle.std.specs.List.{flat_map};
ghost use Rattle.cts_io.specs.Text.{Puts};
ghost use Rattle.cts_report_reader.specs.Nodes.{seen_kind, seen_node};
ghost use Rattle.cts_report_reader.specs.Seen.{IsSeen, seen_point};
ghost use Rattle.cts_picture.specs.Dots.{seen_dot};
ghost use Rattle.cts_picture.specs.Drawable.{IsDrawableNode, IsOutline, IsPlace};
ghost use Rattle.cts_picture.specs.Sheet.{block_text, buffer_text, buffers_text, fill_words, sink_text, sinks_text, source_text, square_text};

use crate::frame::drawn;
use crate::sheet::put_outline;
use crate::wire::{Dot, put_point};
use crate::words::put_coordinate;
use cts_block::{Block, Kind};
use cts_geom::Half;
use cts_io::{ByteSink, SinkBuffer};
use cts_report_reader::{ReportKind, ReportNode};
use cts_units::Sink;

/// What a block is filled with.
fn put_fill<K: ByteSink>(out: &mut SinkBuffer, sink: &mut K, kind: Kind)
    ensures { Puts K.ByteSink (sink.old, out.old) (sink.new, out.new) (fill_words kind) }
{
    match kind {
        Kind::Buffer => out.put(sink, b"' fill='url(#h)' stroke='#777'/>\n"),
        Kind::All => out.put(sink, b"' fill='#ddd' stroke='#555'/>\n"),
    }
}

/// A block of a valid instance.
#[tactic(auto, unfolding(crate::specs::Sheet::block_text))]
fn put_block<K: ByteSink>(out: &mut SinkBuffer, sink: &mut K, block: Block)
    requires { IsOutline block.x1 block.y1 block.x2 block.y2 }
    ensures { Puts K.ByteSink (sink.old, out.old) (sink.new, out.new) (block_text block) }
{
    put_outline(out, sink, block);
    put_fill(out, sink, block.kind);
}

/// The blocks of a valid instance.
pub fn put_blocks<K: ByteSink>(out: &mut SinkBuffer, sink: &mut K, blocks: &[Block])
    requires { All (λ block. IsOutline block.x1 block.y1 block.x2 block.y2) blocks.now }
    ensures { Puts K.ByteSink (sink.old, out.old) (sink.new, out.new) (flat_map block_text blocks.now) }
{
    for block in blocks {
        put_block(out, sink, *block);
    }
}

/// A dot at the place of a sink of a valid instance.
#[tactic(auto, unfolding(crate::specs::Sheet::sink_text))]
fn put_sink<K: ByteSink>(out: &mut SinkBuffer, sink: &mut K, pin: Sink)
    requires { IsPlace pin.x pin.y }
    ensures { Puts K.ByteSink (sink.old, out.old) (sink.new, out.new) (sink_text pin) }
{
    put_coordinate(out, sink, b"M ", drawn(pin.x));
    put_coordinate(out, sink, b" ", drawn(pin.y));
    out.put(sink, b"h0");
}

/// Dots at the places of sinks of a valid instance.
fn put_dots<K: ByteSink>(out: &mut SinkBuffer, sink: &mut K, sinks: &[Sink])
    requires { All (λ pin. IsPlace pin.x pin.y) sinks.now }
    ensures { Puts K.ByteSink (sink.old, out.old) (sink.new, out.new) (flat_map sink_text sinks.now) }
{
    for pin in sinks {
        put_sink(out, sink, *pin);
    }
}

/// The sinks of a valid instance.
pub fn put_sinks<K: ByteSink>(out: &mut SinkBuffer, sink: &mut K, stroke: u64, sinks: &[Sink])
    requires stroke { stroke ≤ 10 ^ 10 }
    requires sinks { All (λ pin. IsPlace pin.x pin.y) sinks.now }
    ensures { Puts K.ByteSink (sink.old, out.old) (sink.new, out.new) (sinks_text stroke sinks.now) }
{
    put_coordinate(out, sink, b"<path class='s' stroke-width='", 3 * stroke);
    out.put(sink, b"' d='");
    put_dots(out, sink, sinks);
    out.put(sink, b"'/>\n");
}

/// A square around the place of a node.
#[tactic(auto, unfolding(crate::specs::Sheet::square_text))]
fn put_square<K: ByteSink>(out: &mut SinkBuffer, sink: &mut K, stroke: u64, place: Half)
    requires stroke { stroke ≤ 10 ^ 10 }
    requires place { IsSeen place }
    ensures { Puts K.ByteSink (sink.old, out.old) (sink.new, out.new) (square_text stroke (seen_point place)) }
{
    out.put(sink, b"M");
    put_point(out, sink, place);
    put_coordinate(out, sink, b"m-", 2 * stroke);
    put_coordinate(out, sink, b" 0h", 4 * stroke);
}

/// A square around the place of a node that has a buffer.
fn put_buffer<K: ByteSink>(
    out: &mut SinkBuffer,
    sink: &mut K,
    stroke: u64,
    place: Half,
    kind: ReportKind,
)
    requires stroke { stroke ≤ 10 ^ 10 }
    requires place { IsSeen place }
    ensures { Puts K.ByteSink (sink.old, out.old) (sink.new, out.new)
        (buffer_text stroke (seen_point place) (seen_kind kind)) }
{
    match kind {
        ReportKind::Pair {
            buffer: Some(_),
            ..
        } => put_square(out, sink, stroke, place),
        ReportKind::Pair { buffer: None, .. }
        | ReportKind::Leaf { .. }
        | ReportKind::TimedLeaf { .. } => out.put(sink, b""),
    }
}

fn put_squares<K: ByteSink>(out: &mut SinkBuffer, sink: &mut K, stroke: u64, nodes: &[ReportNode])
    requires stroke { stroke ≤ 10 ^ 10 }
    requires nodes { All IsDrawableNode nodes.now }
    ensures { Puts K.ByteSink (sink.old, out.old) (sink.new, out.new)
        (flat_map (λ node. buffer_text stroke node.place node.kind) (map seen_node nodes.now)) }
{
    for node in nodes {
        put_buffer(out, sink, stroke, node.place, node.kind);
    }
}

/// The buffers of a tree.
pub fn put_buffers<K: ByteSink>(
    out: &mut SinkBuffer,
    sink: &mut K,
    stroke: u64,
    nodes: &[ReportNode],
)
    requires stroke { stroke ≤ 10 ^ 10 }
    requires nodes { All IsDrawableNode nodes.now }
    ensures { Puts K.ByteSink (sink.old, out.old) (sink.new, out.new) (buffers_text stroke (map seen_node nodes.now)) }
{
    put_coordinate(out, sink, b"<path class='b' stroke-width='", 4 * stroke);
    out.put(sink, b"' d='");
    put_squares(out, sink, stroke, nodes);
    out.put(sink, b"'/>\n");
}

/// A ring at the place of the source.
pub fn put_source<K: ByteSink>(out: &mut SinkBuffer, sink: &mut K, line: u64, source: Dot)
    requires { line ≤ 10 ^ 8 }
    ensures { Puts K.ByteSink (sink.old, out.old) (sink.new, out.new) (source_text line (seen_dot source)) }
{
    put_coordinate(out, sink, b"<circle cx='", source.x);
    put_coordinate(out, sink, b"' cy='", source.y);
    put_coordinate(out, sink, b"' r='", 5 * line);
    put_coordinate(
        out,
        sink,
        b"' fill='#fff' stroke='#000' stroke-width='",
        2 * line,
    );
    out.put(sink, b"'/>\n");
}
