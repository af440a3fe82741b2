//! The nodes of a report, and stretches of them.

ghost use Rattle.std.specs.Prelude.{◌≡◌, take, drop};
ghost use Rattle.cts_io.specs.Text.{Puts};
ghost use Rattle.cts_report_workers.specs.Stretches.{IsPrintableBody, stretch_text};

use cts_elmore::NodeFigure;
use cts_instance::Version;
use cts_io::{ByteSink, SinkBuffer};
use cts_report::put_stretch;
use cts_tree::TreeNode;

/// All nodes of a report in this version, each with its figures.
#[derive(Clone, Copy)]
pub(crate) struct Body<'a> {
    pub(crate) version: Version,
    pub(crate) nodes: &'a [TreeNode],
    pub(crate) figures: &'a [NodeFigure],
}

/// So many parts from the place `first` on, or all from there on where these are fewer.
fn stretch_of<T>(all: &[T], first: usize, count: usize) -> &[T]
    ensures { result.now ≡ take count (drop first all.now) }
{
    let from = first.min(all.len());
    let rest = &all[from..];
    &rest[..count.min(rest.len())]
}

/// Puts the lines of so many nodes from the number `first` on, or of all from there on where these are fewer.
pub(crate) fn put_lines<K: ByteSink>(
    out: &mut SinkBuffer,
    sink: &mut K,
    body: &Body<'_>,
    first: usize,
    count: usize,
)
    requires { IsPrintableBody body.now }
    ensures { Puts K.ByteSink (sink.old, out.old) (sink.new, out.new) (stretch_text body.now first count) }
{
    let nodes = stretch_of(body.nodes, first, count);
    let figures = stretch_of(body.figures, first, count);
    put_stretch(out, sink, body.version, first, nodes, figures);
}
