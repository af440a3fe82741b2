//! What is written below the picture.

ghost use Rattle.std.specs.Prelude.{◌≡◌, ◌^◌, ◌<◌, map, All, IfSome};
ghost use Rattle.cts_io.specs.Text.{Puts};
ghost use Rattle.cts_report_reader.specs.Nodes.{seen_kind, seen_node};
ghost use Rattle.cts_report_reader.specs.Reports.{seen_report};
ghost use Rattle.cts_report_reader.specs.Totals.{seen_arrivals, seen_totals};
ghost use Rattle.cts_picture.specs.Drawable.{HasDrawableArrivals, HasDrawableTotals, IsDrawable, IsDrawableNode};
ghost use Rattle.cts_picture.specs.Legend.{arrivals_words, bar_words, buffer_count, classes_words, counts_words, delays_words, greatest_slew, has_buffer, legend_text, limits_words, met_words, skew_words};

use crate::words::{put_coordinate, put_time, put_total, put_whole};
use cts_io::{ByteSink, SinkBuffer};
use cts_report_reader::{Report, ReportArrivals, ReportKind, ReportNode, ReportTotals};

// The classes of delay, from the first to the last.
const CLASSES: &[u8] =
    b" ps at the root to the greatest</text>\n<g fill='currentColor'><rect class='d0' x='0' y='180' width='100' height='20'/><rect class='d1' x='100' y='180' width='100' height='20'/><rect class='d2' x='200' y='180' width='100' height='20'/><rect class='d3' x='300' y='180' width='100' height='20'/><rect class='d4' x='400' y='180' width='100' height='20'/><rect class='d5' x='500' y='180' width='100' height='20'/><rect class='d6' x='600' y='180' width='100' height='20'/><rect class='d7' x='700' y='180' width='100' height='20'/></g>\n";

// What the signs of the picture mean.
const SIGNS: &[u8] =
    b"<text font-size='16' y='224'>dots: sinks; squares: buffers; ring: source; dashed: wire longer than its route; grey: no wires; hatched: no buffers</text>\n</g>\n</svg>\n";

/// Whether a node is a pair that has a buffer.
fn has_buffer(kind: ReportKind) -> bool
    ensures { result ≡ has_buffer (seen_kind kind) }
{
    match kind {
        ReportKind::Leaf { .. } | ReportKind::TimedLeaf { .. } => false,
        ReportKind::Pair { buffer, .. } => buffer.is_some(),
    }
}

/// How many nodes have a buffer.
fn buffer_count(nodes: &[ReportNode]) -> u64
    ensures { result ≡ buffer_count (map seen_node nodes.now) }
{
    let mut count = 0;
    for node in nodes {
        count += u64::from(has_buffer(node.kind));
    }
    count
}

/// The greatest slew of a node, in 10^-16 ps, or 0 where there is none.
fn greatest_slew(nodes: &[ReportNode]) -> u128
    requires { All IsDrawableNode nodes.now }
    ensures same { result ≡ greatest_slew (map seen_node nodes.now) }
    ensures short { result < 10 ^ 38 }
{
    let mut slew: u128 = 0;
    for node in nodes {
        slew = slew.max(node.slew);
    }
    slew
}

/// The end of the picture, and the length of the scale bar.
fn put_bar_words<K: ByteSink>(out: &mut SinkBuffer, sink: &mut K, height: u64, bar: u64)
    ensures { Puts K.ByteSink (sink.old, out.old) (sink.new, out.new) (bar_words height bar) }
{
    put_whole(
        out,
        sink,
        b"</g>\n</svg>\n<g transform='translate(45 ",
        height,
    );
    put_coordinate(out, sink, b")'>\n<text y='20'>scale bar ", bar);
    out.put(sink, b" &#181;m</text>\n");
}

/// The length of all wires, and the numbers of sinks and buffers.
fn put_counts<K: ByteSink>(
    out: &mut SinkBuffer,
    sink: &mut K,
    wire_total: u128,
    sinks: u64,
    buffers: u64,
)
    requires { wire_total < 10 ^ 38 }
    ensures { Puts K.ByteSink (sink.old, out.old) (sink.new, out.new) (counts_words wire_total sinks buffers) }
{
    put_total(out, sink, b"<text x='480' y='20'>wire total ", wire_total);
    put_whole(out, sink, b" &#181;m</text>\n<text y='44'>sinks ", sinks);
    put_whole(
        out,
        sink,
        b"</text>\n<text x='480' y='44'>buffers ",
        buffers,
    );
    out.put(sink, b"</text>\n");
}

/// The greatest and the least delay.
fn put_delays<K: ByteSink>(out: &mut SinkBuffer, sink: &mut K, totals: ReportTotals)
    requires { HasDrawableTotals totals }
    ensures { Puts K.ByteSink (sink.old, out.old) (sink.new, out.new) (delays_words (seen_totals totals)) }
{
    put_time(out, sink, b"<text y='68'>delay greatest ", totals.greatest);
    put_time(
        out,
        sink,
        b" ps</text>\n<text x='480' y='68'>delay least ",
        totals.least,
    );
    out.put(sink, b" ps</text>\n");
}

/// Whether a limit is met.
fn put_met<K: ByteSink>(out: &mut SinkBuffer, sink: &mut K, label: &[u8], met: bool)
    ensures { Puts K.ByteSink (sink.old, out.old) (sink.new, out.new) (met_words label.now met) }
{
    out.put(sink, label);
    out.put(
        sink,
        if met {
            b" yes</text>\n"
        } else {
            b" no</text>\n"
        },
    );
}

/// The greatest slew, and whether the limits on loads and slews are met.
fn put_limits<K: ByteSink>(out: &mut SinkBuffer, sink: &mut K, slew: u128, totals: ReportTotals)
    requires { slew < 10 ^ 38 }
    ensures { Puts K.ByteSink (sink.old, out.old) (sink.new, out.new) (limits_words slew (seen_totals totals)) }
{
    put_time(out, sink, b"<text y='92'>slew greatest ", slew);
    put_met(
        out,
        sink,
        b" ps</text>\n<text x='480' y='92'>load met",
        totals.load_met,
    );
    put_met(out, sink, b"<text x='660' y='92'>slew met", totals.slew_met);
}

/// The skew, and the bound on it.
fn put_skew<K: ByteSink>(out: &mut SinkBuffer, sink: &mut K, totals: ReportTotals)
    requires { HasDrawableTotals totals }
    ensures { Puts K.ByteSink (sink.old, out.old) (sink.new, out.new) (skew_words (seen_totals totals)) }
{
    put_time(out, sink, b"<text y='116'>skew ", totals.skew);
    put_time(
        out,
        sink,
        b" ps</text>\n<text x='480' y='116'>bound ",
        totals.bound,
    );
    out.put(sink, b" ps</text>\n");
}

/// The greatest and the least arrival, where the report tells them.
fn put_arrivals<K: ByteSink>(out: &mut SinkBuffer, sink: &mut K, arrivals: Option<ReportArrivals>)
    requires { IfSome arrivals HasDrawableArrivals }
    ensures { Puts K.ByteSink (sink.old, out.old) (sink.new, out.new) (arrivals_words (seen_arrivals arrivals)) }
{
    match arrivals {
        None => {}
        Some(arrivals) => {
            put_time(
                out,
                sink,
                b"<text y='140'>arrival greatest ",
                arrivals.greatest,
            );
            put_time(
                out,
                sink,
                b" ps</text>\n<text x='480' y='140'>arrival least ",
                arrivals.least,
            );
            out.put(sink, b" ps</text>\n");
        }
    }
}

/// The classes of delay from the delay at the root on, and what the signs mean.
fn put_classes<K: ByteSink>(out: &mut SinkBuffer, sink: &mut K, start: u128)
    requires { start < 10 ^ 38 }
    ensures { Puts K.ByteSink (sink.old, out.old) (sink.new, out.new) (classes_words start) }
{
    put_time(
        out,
        sink,
        b"<text y='172'>delay at a wire&#39;s lower end, from ",
        start,
    );
    out.put(sink, CLASSES);
    out.put(sink, SIGNS);
}

/// The legend below a picture of this height on the page, with the length of the scale bar in
/// 10^-4 µm, and the delay at the root in 10^-16 ps.
pub fn put_legend<K: ByteSink>(
    out: &mut SinkBuffer,
    sink: &mut K,
    height: u64,
    bar: u64,
    sinks: u64,
    report: &Report,
    start: u128,
)
    requires report { IsDrawable report.now }
    requires start { start < 10 ^ 38 }
    ensures { Puts K.ByteSink (sink.old, out.old) (sink.new, out.new)
        (legend_text height bar sinks (seen_report report.now) start) }
{
    let nodes = report.nodes.as_slice();
    let totals = report.totals;
    put_bar_words(out, sink, height, bar);
    put_counts(out, sink, totals.wire_total, sinks, buffer_count(nodes));
    put_delays(out, sink, totals);
    put_limits(out, sink, greatest_slew(nodes), totals);
    put_skew(out, sink, totals);
    put_arrivals(out, sink, totals.arrivals);
    put_classes(out, sink, start);
}
