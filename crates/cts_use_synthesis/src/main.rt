//! A clock tree from parts that are made in code: the calls from the parts to the report.
//!
//! It writes the report of a chip with four sinks, and then tells why three other chips have no report, or not all of it.
//! docs/LIBRARY.md walks through it.
#![tactic(auto)]

ghost use Rattle.std.specs.Prelude.{◌≡◌, ◌<◌, IfOk};
ghost use Rattle.cts_elmore.specs.Figures.{AreFigures};
ghost use Rattle.cts_elmore.specs.Sound.{IsSound};

mod chip;
mod refusal;

use cts_block::Block;
use cts_elmore::Figures;
use cts_instance::{Instance, check_instance};
use cts_io::{ByteSink, HostSink, MemSink, WriteEnd};
use cts_merge::Steps;
use cts_plain::{NoTree, synthesise};
use cts_report::laws::sound_trees_are_printable;
use cts_report::write_report;
use cts_tree::Tree;
use cts_units::Sink;
use refusal::Refusal;
use std::alloc::Global;
use std::io;
use std::marker::Brand;
use std::sync::ledger::{Blank, Ledger};

/// The tree of an instance with its figures, or why it has none, with a counter of merges.
fn counted<L: Ledger>(
    alloc: Global,
    blank: Blank,
    instance: &Instance,
) -> Result<(Tree, Figures), NoTree>
    requires name { blank.name ≡ L.name }
    requires parts { blank.parts ≡ L.parts }
    requires some { 0 < L.parts }
    ensures sound { IfOk result (λ r. IsSound instance.now r.0) }
    ensures figures { IfOk result (λ r. AreFigures instance.now r.0 r.1) }
{
    let mut steps = Steps::<L>::open(blank);
    synthesise(alloc, instance, &mut steps)
}

/// The same, where nobody reads the counter.
fn synthesis_of(alloc: Global, instance: &Instance) -> Result<(Tree, Figures), NoTree>
    ensures sound { IfOk result (λ r. IsSound instance.now r.0) }
    ensures figures { IfOk result (λ r. AreFigures instance.now r.0 r.1) }
{
    counted::<Brand>(alloc, Blank::new(1), instance)
}

/// Writes the report of a sound tree with its figures.
fn write<K: ByteSink>(
    output: &mut K,
    instance: &Instance,
    tree: &Tree,
    figures: &Figures,
) -> Result<(), WriteEnd>
    requires sound { IsSound instance.now tree.now }
    requires figures { AreFigures instance.now tree.now figures.now }
{
    // Read calls say that the instance is valid and that the nodes are in post-order. The law asks for both.
    let _die = instance.die();
    let _nodes = tree.nodes();
    sound_trees_are_printable();
    write_report(output, instance, tree, figures)
}

/// Writes the report of the tree of a chip with these sinks and blocks.
fn report<K: ByteSink>(
    alloc: Global,
    output: &mut K,
    sinks: &[Sink],
    blocks: &[Block],
) -> Result<(), Refusal> {
    let parts = chip::parts_with(alloc, sinks, blocks)?;
    let instance = check_instance(alloc, parts)?;
    let (tree, figures) = synthesis_of(alloc, &instance)?;
    write(output, &instance, &tree, &figures)?;
    Ok(())
}

/// The same into memory, where there is room for the first 100 bytes.
fn report_in_part(alloc: Global) -> Result<(), Refusal> {
    let mut output = MemSink::new(alloc, 100, Vec::new(alloc), 100)?;
    report(alloc, &mut output, &chip::clusters(), &[])
}

/// Prints why there is no report, or not all of it.
fn tell(rt: &impl Print, outcome: Result<(), Refusal>) -> io::Result<()> {
    match outcome {
        Ok(()) => Ok(()),
        Err(refusal) => println!(rt; "{refusal}"),
    }
}

fn main(rt: HostRuntime) -> io::Result<()> {
    let alloc = rt.alloc();
    let mut output = HostSink::new(rt.stdout());
    let blocks = [chip::hard_macro()];
    tell(&rt, report(alloc, &mut output, &chip::clusters(), &blocks))?;
    let twins = [chip::sink(7, 0, 0), chip::sink(7, 10_000, 0)];
    tell(&rt, report(alloc, &mut output, &twins, &[]))?;
    let shut_in = [chip::sink(1, 10_000, 10_000)];
    tell(&rt, report(alloc, &mut output, &shut_in, &chip::pocket()))?;
    tell(&rt, report_in_part(alloc))
}
