//! The trunk of an instance's tree with repeaters, and the text for it.

ghost use Rattle.std.specs.Prelude.{◌≡◌, ◌++◌, ◌≤◌, ◌<◌, ◌^◌, Ok, IsErrOf};
ghost use Rattle.cts_elmore.specs.Measurement.{HasFigures};
ghost use Rattle.cts_io.specs.Text.{Writes};
ghost use Rattle.cts_plain.specs.Synthesis.{made};
ghost use Rattle.cts_report.specs.Report.{IsPrintable, report_text};
ghost use Rattle.cts_top.specs.Log.{no_log};
ghost use Rattle.cts_top.specs.Outcome.{Serves};
ghost use Rattle.cts_top.specs.Synthesised.{IsSynthesised};
ghost use Rattle.cts_top.specs.Trunk.{IsExactly, IsNoTrunkLine, IsTrunkText, TellsTrunk};
ghost use Rattle.cts_top.specs.Written.{Answers};
ghost use Rattle.cts_trunk.specs.Lines.{IsPrintableTrunk, trunk_text};

use crate::answer::{answer_no_tree, synthesise_alone};
use crate::serve::read_source;
use crate::stop::{Answer, Stop, ended};
use crate::valid::instance_is_valid;
use crate::words::Form;
use cts_elmore::Figures;
use cts_instance::Instance;
use cts_io::{ByteSink, ByteSource, SinkBuffer, WriteEnd};
use cts_report::write_report;
use cts_tree::Tree;
use cts_trunk::{Trunk, TrunkEnd, lay_trunk, write_trunk};
use std::alloc::Global;

/// A line of its own. It takes no memory.
fn write_line<K: ByteSink>(sink: &mut K, line: &[u8]) -> Result<(), WriteEnd>
    ensures { Writes K.held K.faults sink.old sink.new line.now result }
{
    let mut out = SinkBuffer::new();
    out.put(sink, line);
    out.finish(sink)
}

/// Writes why a tree has no trunk with repeaters, unless memory ran out.
fn answer_no_trunk<K: ByteSink>(sink: &mut K, end: TrunkEnd) -> Result<Answer, Stop>
    ensures { Answers (IsNoTrunkLine end) K.held K.faults sink.old sink.new result }
{
    match end {
        TrunkEnd::Buffer => ended(write_line(sink, b"no trunk: buffer\n"), Answer::NoTrunk),
        TrunkEnd::Many => ended(write_line(sink, b"no trunk: many\n"), Answer::NoTrunk),
        TrunkEnd::Beyond => ended(write_line(sink, b"no trunk: beyond\n"), Answer::NoTrunk),
        TrunkEnd::NoMemory => Err(Stop::NoMemory),
    }
}

/// Writes the text of a trunk, and directly after it the report of its tree without repeaters. It takes no
/// memory.
fn answer_laid<K: ByteSink>(
    sink: &mut K,
    instance: &Instance,
    tree: &Tree,
    figures: &Figures,
    trunk: &Trunk,
) -> Result<Answer, Stop>
    requires trunk { IsPrintableTrunk trunk.now }
    requires tree { IsPrintable tree.now figures.now }
    ensures { Answers (IsExactly Answer.Text (trunk_text trunk.now ++ report_text instance.now.version tree.now figures.now))
        K.held K.faults sink.old sink.new result }
{
    write_trunk(sink, trunk)?;
    ended(write_report(sink, instance, tree, figures), Answer::Text)
}

/// Writes the text for the trunk of a tree with repeaters, or why there is none.
fn answer_tree<K: ByteSink>(
    alloc: Global,
    sink: &mut K,
    instance: &Instance,
    tree: &Tree,
    figures: &Figures,
    step: u64,
    buffer: u16,
) -> Result<Answer, Stop>
    requires some { 1 ≤ step }
    requires small { step < 2 ^ 31 }
    requires synthesised { IsSynthesised instance.now (Ok (tree.now, figures.now)) }
    requires measured { HasFigures instance.now tree.now figures.now }
    ensures { Answers (IsTrunkText instance.now step buffer (made tree.now)) K.held K.faults sink.old sink.new result }
{
    instance_is_valid(instance);
    match lay_trunk(alloc, instance, tree, figures, step, buffer) {
        Ok(trunk) => answer_laid(sink, instance, tree, figures, &trunk),
        Err(end) => answer_no_trunk(sink, end),
    }
}

/// Writes the text for the trunk, with repeaters, of an instance's tree, which one thread makes.
fn answer_trunk<K: ByteSink>(
    alloc: Global,
    sink: &mut K,
    instance: &Instance,
    step: u64,
    buffer: u16,
) -> Result<Answer, Stop>
    requires some { 1 ≤ step }
    requires small { step < 2 ^ 31 }
    ensures { Answers (TellsTrunk instance.now step buffer) K.held K.faults sink.old sink.new result }
{
    instance_is_valid(instance);
    match synthesise_alone(alloc, instance) {
        Ok((tree, figures)) => answer_tree(alloc, sink, instance, &tree, &figures, step, buffer),
        Err(end) => answer_no_tree(sink, instance, end),
    }
}

/// Reads an instance, and writes the trunk of its tree with repeaters of the library's buffer of this index at
/// the multiples of a step in nm, and the report of that tree; or that there is none.
pub fn serve_trunk<S: ByteSource, K: ByteSink>(
    alloc: Global,
    source: &mut S,
    sink: &mut K,
    step: u64,
    buffer: u16,
) -> Result<Answer, Stop>
    requires some { 1 ≤ step }
    requires small { step < 2 ^ 31 }
    ensures serves { Serves no_log (Form.Trunk step buffer)
        (record { tells = S.left; faults = S.faults; before = source.old; after = source.new })
        (record { tells = K.held; faults = K.faults; before = sink.old; after = sink.new }) result }
    ensures words { IsErrOf result Stop.Words → ⊥ }
{
    let instance = read_source(alloc, source)?;
    answer_trunk(alloc, sink, &instance, step, buffer)
}
