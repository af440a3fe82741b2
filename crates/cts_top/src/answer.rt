//! The synthesis of an instance, and the text for it.

ghost use Rattle.std.specs.Prelude.{◌≡◌, ◌<◌, ◌≤◌, Err, IfOk};
ghost use Rattle.cts_elmore.specs.Measurement.{HasFigures};
ghost use Rattle.cts_io.specs.Text.{Writes};
ghost use Rattle.cts_report.specs.Report.{IsPrintable};
ghost use Rattle.cts_plain.specs.Ends.{EndsBy};
ghost use Rattle.cts_top.specs.Memos.{TellsEnd};
ghost use Rattle.cts_top.specs.Outcome.{status_of};
ghost use Rattle.cts_top.specs.Synthesised.{ComesOver, IsSynthesised, IsSynthesisedBy, Topology};
ghost use Rattle.cts_top.specs.Text.{TellsComing, TellsSynthesis, TreeText, no_tree_text, told_by};
ghost use Rattle.cts_top.specs.Written.{Answers};

use crate::stop::{Answer, Stop, ended};
use crate::valid::instance_is_valid;
use cts_elmore::Figures;
use cts_instance::Instance;
use cts_io::{ByteSink, SinkBuffer, WriteEnd};
use cts_merge::Steps;
use cts_notes::put_numbered;
use cts_plain::{NoTree, synthesise};
use cts_report::{write_report, write_summary};
use cts_report_workers::write_report_by;
use cts_tree::Tree;
use std::alloc::Global;
use std::marker::Brand;
use std::sync::ledger::{Blank, Ledger};
use std::thread::Threads;

/// The synthesis of an instance with a counter of its own.
fn synthesise_counted<L: Ledger>(
    alloc: Global,
    blank: Blank,
    instance: &Instance,
) -> Result<(Tree, Figures), NoTree>
    requires name { blank.name ≡ L.name }
    requires parts { blank.parts ≡ L.parts }
    requires some { 0 < L.parts }
    ensures synthesised { IsSynthesised instance.now result }
    ensures measured { IfOk result (λ r. HasFigures instance.now r.0 r.1) }
{
    instance_is_valid(instance);
    let mut steps = Steps::<L>::open(blank);
    synthesise(alloc, instance, &mut steps)
}

/// The synthesis of an instance, whose merges nobody counts.
pub fn synthesise_alone(alloc: Global, instance: &Instance) -> Result<(Tree, Figures), NoTree>
    ensures synthesised { IsSynthesised instance.now result }
    ensures measured { IfOk result (λ r. HasFigures instance.now r.0 r.1) }
{
    synthesise_counted::<Brand>(alloc, Blank::new(1), instance)
}

/// The line that says at which node there is no tree.
fn write_no_tree<K: ByteSink>(sink: &mut K, why: &[u8], node: u32) -> Result<(), WriteEnd>
    ensures { Writes K.held K.faults sink.old sink.new (no_tree_text why.now node) result }
{
    let mut out = SinkBuffer::new();
    out.put(sink, b"no tree: ");
    out.put(sink, why);
    put_numbered(&mut out, sink, b" at node ", node as u64);
    out.put(sink, b"\n");
    out.finish(sink)
}

/// Writes that an instance has no tree, unless memory ran out.
pub fn answer_no_tree<K: ByteSink>(
    sink: &mut K,
    instance: &Instance,
    end: NoTree,
) -> Result<Answer, Stop>
    ensures answers { (topology : Topology) (tell : TreeText) → EndsBy (ComesOver topology instance.now) end
        → Answers (TellsComing (ComesOver topology instance.now) tell instance.now) K.held K.faults sink.old sink.new result }
    ensures told { TellsEnd (Err end) (status_of result) }
{
    instance_is_valid(instance);
    match end {
        NoTree::Beyond { node } => ended(write_no_tree(sink, b"beyond", node), Answer::NoTree),
        NoTree::Cut { node } => ended(write_no_tree(sink, b"cut", node), Answer::NoTree),
        NoTree::NoMemory => Err(Stop::NoMemory),
    }
}

/// How a tree is told.
#[derive(Clone, Copy)]
pub enum Telling {
    /// By its report: each node, and the figures of the whole tree.
    Report,
    /// By its summary: the figures of the whole tree alone.
    Summary,
}

fn write_tree<K: ByteSink>(
    sink: &mut K,
    telling: Telling,
    instance: &Instance,
    tree: &Tree,
    figures: &Figures,
) -> Result<(), WriteEnd>
    requires { IsPrintable tree.now figures.now }
    ensures { Writes K.held K.faults sink.old sink.new (told_by telling instance.now.version tree.now figures.now) result }
{
    match telling {
        Telling::Report => write_report(sink, instance, tree, figures),
        Telling::Summary => write_summary(sink, tree, figures),
    }
}

/// Writes the text for a synthesis of an instance over any topology: its tree, told so, or the line that says why it
/// has none.
pub fn answer_synthesis<K: ByteSink>(
    sink: &mut K,
    telling: Telling,
    instance: &Instance,
    synthesis: Result<(Tree, Figures), NoTree>,
) -> Result<Answer, Stop>
    requires { IfOk synthesis (λ r. IsPrintable r.0 r.1) }
    ensures answers { (topology : Topology) → IsSynthesisedBy (ComesOver topology instance.now) instance.now synthesis
        → Answers (TellsComing (ComesOver topology instance.now) (told_by telling) instance.now) K.held K.faults sink.old sink.new result }
    ensures told { TellsEnd synthesis (status_of result) }
{
    instance_is_valid(instance);
    match synthesis {
        Ok((tree, figures)) => {
            let written = write_tree(sink, telling, instance, &tree, &figures);
            ended(written, Answer::Text)
        }
        Err(end) => answer_no_tree(sink, instance, end),
    }
}

/// As [`write_tree`], with so many workers for a report.
fn write_tree_by<R: Threads + Sync, K: ByteSink>(
    rt: &R,
    alloc: Global,
    workers: u32,
    sink: &mut K,
    telling: Telling,
    instance: &Instance,
    tree: &Tree,
    figures: &Figures,
) -> Result<(), WriteEnd>
    requires printable { IsPrintable tree.now figures.now }
    requires few { workers ≤ 64 }
    ensures { Writes K.held K.faults sink.old sink.new (told_by telling instance.now.version tree.now figures.now) result }
{
    match telling {
        Telling::Report => write_report_by(rt, alloc, workers, sink, instance, tree, figures),
        Telling::Summary => write_summary(sink, tree, figures),
    }
}

/// As [`answer_synthesis`], with so many workers for a report.
pub(crate) fn answer_synthesis_by<R: Threads + Sync, K: ByteSink>(
    rt: &R,
    alloc: Global,
    workers: u32,
    sink: &mut K,
    telling: Telling,
    instance: &Instance,
    synthesis: Result<(Tree, Figures), NoTree>,
) -> Result<Answer, Stop>
    requires printable { IfOk synthesis (λ r. IsPrintable r.0 r.1) }
    requires few { workers ≤ 64 }
    ensures answers { (topology : Topology) → IsSynthesisedBy (ComesOver topology instance.now) instance.now synthesis
        → Answers (TellsComing (ComesOver topology instance.now) (told_by telling) instance.now) K.held K.faults sink.old sink.new result }
    ensures told { TellsEnd synthesis (status_of result) }
{
    instance_is_valid(instance);
    match synthesis {
        Ok((tree, figures)) => {
            let written = write_tree_by(
                rt, alloc, workers, sink, telling, instance, &tree, &figures,
            );
            ended(written, Answer::Text)
        }
        Err(end) => answer_no_tree(sink, instance, end),
    }
}

/// Writes the text for the synthesis of an instance by one thread.
pub fn answer_instance<K: ByteSink>(
    alloc: Global,
    sink: &mut K,
    telling: Telling,
    instance: &Instance,
) -> Result<Answer, Stop>
    ensures { Answers (TellsSynthesis (told_by telling) instance.now) K.held K.faults sink.old sink.new result }
{
    answer_synthesis(sink, telling, instance, synthesise_alone(alloc, instance))
}
