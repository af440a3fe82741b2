//! Reports and summaries, written to a sink.

ghost use Rattle.std.specs.Prelude.{◌≡◌, ◌+◌, ◌^◌, ◌<◌, ◌≤◌, ◌++◌, length, All, codes};
ghost use Rattle.std.specs.List.{concat};
ghost use Rattle.cts_io.specs.Text.{Puts, Writes};
ghost use Rattle.cts_report.specs.Lines.{arrival_lines, capacitance, count_line, length_in_um, node_lines, time, title_line, total_lines};
ghost use Rattle.cts_report.specs.Report.{HasPrintableArrivals, HasPrintableTotals, IsPrintable, IsPrintableFigure, IsPrintableNode, printed_arrivals, printed_nodes, printed_time, printed_totals, report_text, summary_text};

use crate::line::put_node;
use crate::words::{put_answer, put_capacitance, put_delay, put_length, put_whole};
use cts_elmore::{Figures, NodeFigure};
use cts_instance::{Instance, Version};
use cts_io::{ByteSink, SinkBuffer, WriteEnd};
use cts_tree::{Tree, TreeNode};

/// Writes the report of a tree of an instance with these figures, in the version of the instance. It takes
/// no memory.
///
/// - `Ok`: the sink has taken the whole text.
/// - `WriteFault`: only where the sink's count of faults rose in this call; the sink has taken exactly
///   the front of the text that the answer tells.
pub fn write_report<K: ByteSink>(
    sink: &mut K,
    instance: &Instance,
    tree: &Tree,
    figures: &Figures,
) -> Result<(), WriteEnd>
    requires { IsPrintable tree.now figures.now }
    ensures { Writes K.held K.faults sink.old sink.new (report_text instance.now.version tree.now figures.now) result }
{
    let version = instance.version();
    let nodes = tree.nodes();
    let mut out = SinkBuffer::new();
    put_head(&mut out, sink, version, nodes.len());
    put_stretch(&mut out, sink, version, 0, nodes, figures.nodes.items());
    put_totals(&mut out, sink, version, figures);
    out.finish(sink)
}

/// Writes the summary of a tree with these figures: its number of nodes and the figures of the whole
/// tree, as in its report in version 1. It takes no memory, and fails as [`write_report`] does.
pub fn write_summary<K: ByteSink>(
    sink: &mut K,
    tree: &Tree,
    figures: &Figures,
) -> Result<(), WriteEnd>
    requires { HasPrintableTotals figures.now }
    ensures { Writes K.held K.faults sink.old sink.new (summary_text tree.now figures.now) result }
{
    let mut out = SinkBuffer::new();
    out.put(sink, b"cts job 1\n");
    put_count(&mut out, sink, tree.nodes().len());
    put_totals(&mut out, sink, Version::One, figures);
    out.finish(sink)
}

/// Puts what stands before the nodes of a report: its title, and how many nodes there are.
pub fn put_head<K: ByteSink>(out: &mut SinkBuffer, sink: &mut K, version: Version, count: usize)
    ensures { Puts K.ByteSink (sink.old, out.old) (sink.new, out.new) (title_line version ++ count_line count) }
{
    put_title(out, sink, version);
    put_count(out, sink, count);
}

/// The first line of a report.
fn put_title<K: ByteSink>(out: &mut SinkBuffer, sink: &mut K, version: Version)
    ensures { Puts K.ByteSink (sink.old, out.old) (sink.new, out.new) (title_line version) }
{
    match version {
        Version::One => out.put(sink, b"cts report 1\n"),
        Version::Two => out.put(sink, b"cts report 2\n"),
    }
}

/// The line that says how many nodes there are.
fn put_count<K: ByteSink>(out: &mut SinkBuffer, sink: &mut K, count: usize)
    ensures { Puts K.ByteSink (sink.old, out.old) (sink.new, out.new) (count_line count) }
{
    put_whole(out, sink, b"nodes ", count as u64);
    out.put(sink, b"\n");
}

/// Puts the lines of a stretch of nodes, whose numbers are `first` and those that follow it. The lines of all nodes of a
/// report are those of its stretches, one after another.
pub fn put_stretch<K: ByteSink>(
    out: &mut SinkBuffer,
    sink: &mut K,
    version: Version,
    first: usize,
    nodes: &[TreeNode],
    figures: &[NodeFigure],
)
    requires room { first + length nodes.now < 2 ^ 64 }
    requires long { length figures.now ≡ length nodes.now }
    requires nodes { All IsPrintableNode nodes.now }
    requires figures { All IsPrintableFigure figures.now }
    ensures { Puts K.ByteSink (sink.old, out.old) (sink.new, out.new)
        (concat (node_lines first (printed_nodes version nodes.now figures.now))) }
{
    for at in 0..nodes.len() {
        put_node(out, sink, version, first + at, &nodes[at], &figures[at]);
    }
}

/// Puts what stands behind the nodes of a report: the lines on the whole tree, and the last line.
pub fn put_totals<K: ByteSink>(
    out: &mut SinkBuffer,
    sink: &mut K,
    version: Version,
    figures: &Figures,
)
    requires totals { HasPrintableTotals figures.now }
    requires arrivals { version ≡ Version.Two → HasPrintableArrivals figures.now }
    ensures { Puts K.ByteSink (sink.old, out.old) (sink.new, out.new)
        (concat (total_lines (printed_totals version figures.now))) }
{
    put_load_line(out, sink, b"source load ", figures.source_load);
    put_length_line(out, sink, b"wire total ", figures.wire_total);
    put_delay_line(out, sink, b"delay greatest ", figures.greatest);
    put_delay_line(out, sink, b"delay least ", figures.least);
    put_arrivals(
        out,
        sink,
        version,
        figures.arrival_greatest,
        figures.arrival_least,
    );
    put_delay_line(out, sink, b"skew ", figures.skew);
    put_delay_line(out, sink, b"bound ", figures.bound);
    put_answer(out, sink, b"load met", figures.load_met);
    put_answer(out, sink, b"slew met", figures.slew_met);
    out.put(sink, b"end\n");
}

/// The greatest and the least arrival, which only version 2 prints.
fn put_arrivals<K: ByteSink>(
    out: &mut SinkBuffer,
    sink: &mut K,
    version: Version,
    greatest: u128,
    least: u128,
)
    requires greatest { version ≡ Version.Two → greatest ≤ 10 ^ 37 }
    requires least { version ≡ Version.Two → least ≤ 10 ^ 37 }
    ensures { Puts K.ByteSink (sink.old, out.old) (sink.new, out.new)
        (concat (arrival_lines (printed_arrivals version greatest least))) }
{
    match version {
        Version::One => {}
        Version::Two => {
            put_delay_line(out, sink, b"arrival greatest ", greatest);
            put_delay_line(out, sink, b"arrival least ", least);
        }
    }
}

fn put_load_line<K: ByteSink>(out: &mut SinkBuffer, sink: &mut K, label: &[u8], load: u64)
    ensures { Puts K.ByteSink (sink.old, out.old) (sink.new, out.new) (capacitance label.now load ++ codes "\n") }
{
    put_capacitance(out, sink, label, load);
    out.put(sink, b"\n");
}

fn put_length_line<K: ByteSink>(out: &mut SinkBuffer, sink: &mut K, label: &[u8], length: u64)
    ensures { Puts K.ByteSink (sink.old, out.old) (sink.new, out.new) (length_in_um label.now length ++ codes "\n") }
{
    put_length(out, sink, label, length);
    out.put(sink, b"\n");
}

fn put_delay_line<K: ByteSink>(out: &mut SinkBuffer, sink: &mut K, label: &[u8], delay: u128)
    requires { delay ≤ 10 ^ 37 }
    ensures { Puts K.ByteSink (sink.old, out.old) (sink.new, out.new) (time label.now (printed_time delay) ++ codes "\n") }
{
    put_delay(out, sink, label, delay);
    out.put(sink, b"\n");
}
