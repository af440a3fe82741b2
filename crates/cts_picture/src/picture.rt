//! Pictures, written to a sink.

ghost use Rattle.std.specs.Prelude.{◌≡◌, map, All};
ghost use Rattle.cts_io.specs.Text.{Puts, Writes};
ghost use Rattle.cts_report_reader.specs.Nodes.{seen_node};
ghost use Rattle.cts_report_reader.specs.Reports.{seen_report};
ghost use Rattle.cts_picture.specs.Dots.{seen_dot};
ghost use Rattle.cts_picture.specs.Drawable.{IsDot, IsDrawable, IsDrawableNode, IsOutline, IsPlace};
ghost use Rattle.cts_picture.specs.Frame.{IsFrame};
ghost use Rattle.cts_picture.specs.Picture.{marks_text, picture_text, sheet_text, source_point};

use crate::frame::{Frame, frame_of};
use crate::legend::put_legend;
use crate::marks::{put_blocks, put_buffers, put_sinks, put_source};
use crate::sheet::{put_bar, put_die, put_frame, put_page};
use crate::tree::{put_wires, scale_of};
use crate::wire::{Dot, place_dot};
use cts_block::Block;
use cts_instance::Instance;
use cts_io::{ByteSink, SinkBuffer, WriteEnd};
use cts_report_reader::{Report, ReportNode};
use cts_units::Sink;

/// Writes the picture of the tree of a report on an instance, as one SVG. It takes no memory. The tree
/// needn't be a sound one.
///
/// - `Ok`: the sink has taken the whole text.
/// - `WriteFault`: only where the sink's count of faults rose in this call; the sink has taken exactly
///   the front of the text that the answer tells.
pub fn write_picture<K: ByteSink>(
    sink: &mut K,
    instance: &Instance,
    report: &Report,
) -> Result<(), WriteEnd>
    requires { IsDrawable report.now }
    ensures { Writes K.held K.faults sink.old sink.new (picture_text instance.now (seen_report report.now)) result }
{
    let sinks = instance.sinks();
    let nodes = report.nodes.as_slice();
    let frame = frame_of(instance.die(), sinks.len());
    let source = source_of(instance);
    let scale = scale_of(nodes, &report.totals);
    let mut out = SinkBuffer::new();
    put_sheet(&mut out, sink, &frame, instance.blocks());
    put_wires(&mut out, sink, &scale, source, nodes);
    put_marks(&mut out, sink, &frame, nodes, sinks, source);
    put_legend(
        &mut out,
        sink,
        frame.height_on_page(),
        frame.bar,
        sinks.len() as u64,
        report,
        scale.start,
    );
    out.finish(sink)
}

/// The point of the source.
fn source_of(instance: &Instance) -> Dot
    ensures seen { seen_dot result ≡ source_point instance.now }
    ensures dot { IsDot result }
{
    place_dot(instance.source_x(), instance.source_y())
}

/// What lies under the tree: the page, the die and its blocks.
fn put_sheet<K: ByteSink>(out: &mut SinkBuffer, sink: &mut K, frame: &Frame, blocks: &[Block])
    requires frame { IsFrame frame.now }
    requires blocks { All (λ block. IsOutline block.x1 block.y1 block.x2 block.y2) blocks.now }
    ensures { Puts K.ByteSink (sink.old, out.old) (sink.new, out.new) (sheet_text frame.now blocks.now) }
{
    put_page(out, sink, frame);
    put_frame(out, sink, frame);
    put_die(out, sink, frame);
    put_blocks(out, sink, blocks);
}

/// What lies upon the wires: buffers, sinks and the source, and then the scale bar.
fn put_marks<K: ByteSink>(
    out: &mut SinkBuffer,
    sink: &mut K,
    frame: &Frame,
    nodes: &[ReportNode],
    sinks: &[Sink],
    source: Dot,
)
    requires frame { IsFrame frame.now }
    requires nodes { All IsDrawableNode nodes.now }
    requires sinks { All (λ pin. IsPlace pin.x pin.y) sinks.now }
    ensures { Puts K.ByteSink (sink.old, out.old) (sink.new, out.new)
        (marks_text frame.now (map seen_node nodes.now) sinks.now (seen_dot source)) }
{
    put_buffers(out, sink, frame.stroke, nodes);
    put_sinks(out, sink, frame.stroke, sinks);
    put_source(out, sink, frame.line, source);
    put_bar(out, sink, frame);
}
