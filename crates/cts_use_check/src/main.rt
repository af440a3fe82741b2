//! Clock trees of one's own: their figures, and the verdicts on their reports.
//!
//! Of four trees over the same two sinks, all made by hand, it prints the skew and the bound and whether the checker accepts
//! the report. docs/LIBRARY.md walks through it.
#![tactic(auto)]

ghost use Rattle.std.specs.Prelude.{◌≡◌, All, IfOk};
ghost use Rattle.cts_check.specs.Verdict.{IsVerdict};
ghost use Rattle.cts_elmore.specs.Fits.{FitsInstance};
ghost use Rattle.cts_elmore.specs.Limits.{IsWithinLimits};
ghost use Rattle.cts_report.specs.Report.{IsPrintable, IsPrintableNode, report_text};

mod chip;
mod tap;

use cts_check::{Verdict, check};
use cts_elmore::{Figures, measure, within};
use cts_instance::{Instance, check_instance};
use cts_io::MemSink;
use cts_num::NoMemory;
use cts_report::laws::figures_in_range_are_printable;
use cts_report::write_report;
use cts_tree::Tree;
use cts_units::MAX_LENGTH;
use std::alloc::Global;
use std::thread::Threads;
use tap::{Tap, tree_of};

/// The room for a report, in bytes.
const ROOM: usize = 4_096;

/// The figures of a tree that is within the limits. They can be printed where the tree can.
fn figures_of(alloc: Global, instance: &Instance, tree: &Tree) -> Result<Figures, NoMemory>
    requires fits { FitsInstance instance.now tree.now }
    requires within { IsWithinLimits instance.now tree.now }
    requires nodes { All IsPrintableNode tree.now }
    ensures { IfOk result (IsPrintable tree.now) }
{
    let figures = measure(alloc, instance, tree)?;
    figures_in_range_are_printable();
    Ok(figures)
}

/// The report of a tree with these figures.
fn report_of(
    alloc: Global,
    instance: &Instance,
    tree: &Tree,
    figures: &Figures,
) -> anyhow::Result<MemSink>
    requires { IsPrintable tree.now figures.now }
    ensures { IfOk result (λ text. text.held ≡ report_text instance.now.version tree.now figures.now) }
{
    let mut text = MemSink::new(alloc, ROOM, Vec::new(alloc), ROOM)?;
    write_report(&mut text, instance, tree, figures)?;
    Ok(text)
}

/// The verdict on that report.
fn verdict_on<R: AllocGlobal + Threads + Sync>(
    rt: &R,
    instance: &Instance,
    tree: &Tree,
    figures: &Figures,
) -> anyhow::Result<Verdict>
    requires { IsPrintable tree.now figures.now }
    ensures { IfOk result (IsVerdict instance.now (report_text instance.now.version tree.now figures.now)) }
{
    let text = report_of(rt.alloc(), instance, tree, figures)?;
    Ok(check(rt, rt.alloc(), instance, text.bytes())?)
}

/// A doubled time of 10^-27 s in whole fs.
fn femtoseconds(doubled: u128) -> u128 {
    doubled / 2_000_000_000_000
}

/// Prints skew, bound and verdict of a tree that is within the limits.
fn tell<R: AllocGlobal + Threads + Sync + Print>(
    rt: &R,
    name: &str,
    instance: &Instance,
    tree: &Tree,
) -> anyhow::Result<()>
    requires fits { FitsInstance instance.now tree.now }
    requires within { IsWithinLimits instance.now tree.now }
    requires nodes { All IsPrintableNode tree.now }
{
    let figures = figures_of(rt.alloc(), instance, tree)?;
    let verdict = verdict_on(rt, instance, tree, &figures)?;
    let skew = femtoseconds(figures.skew);
    let bound = femtoseconds(figures.bound);
    println!(rt; "{name}: skew {skew} fs, bound {bound} fs, {verdict:?}")?;
    Ok(())
}

/// Judges the tree of a tap over the two sinks of an instance.
fn judge<R: AllocGlobal + Threads + Sync + Print>(
    rt: &R,
    name: &str,
    instance: &Instance,
    tap: Tap,
) -> anyhow::Result<()> {
    let tree = tree_of(rt.alloc(), instance, tap)?;
    match within(rt.alloc(), instance, &tree)? {
        Some(node) => println!(rt; "{name}: over the limits at node {node}")?,
        None => tell(rt, name, instance, &tree)?,
    }
    Ok(())
}

fn main(rt: HostRuntime) -> anyhow::Result<()> {
    let alloc = rt.alloc();
    let instance = check_instance(alloc, chip::parts(alloc)?)?;
    let middle = Tap {
        x: 5_000,
        wires: (5_000, 5_000, 9_000),
    };
    judge(&rt, "pair in the middle", &instance, middle)?;
    let balanced = Tap {
        x: 6_000,
        wires: (6_000, 4_000, 10_000),
    };
    judge(&rt, "pair where it balances", &instance, balanced)?;
    let short = Tap {
        wires: (4_000, 4_000, 10_000),
        ..balanced
    };
    judge(&rt, "wire shorter than its route", &instance, short)?;
    let long = Tap {
        wires: (MAX_LENGTH + 1, 4_000, 10_000),
        ..balanced
    };
    judge(&rt, "wire above the limit", &instance, long)
}
