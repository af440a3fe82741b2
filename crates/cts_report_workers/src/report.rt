//! Reports, written by several workers.

ghost use Rattle.std.specs.Prelude.{◌^◌, ◌≡◌, ◌<◌, ◌≤◌, length, IfOk, vec_len};
ghost use Rattle.cts_io.specs.Text.{Writes};
ghost use Rattle.cts_report.specs.Report.{IsPrintable, report_text};

use crate::body::Body;
use crate::page::Page;
use crate::rounds::put_rounds;
use cts_elmore::Figures;
use cts_instance::Instance;
use cts_io::{ByteSink, SinkBuffer, WriteEnd};
use cts_num::NoMemory;
use cts_report::{put_head, put_totals, write_report};
use cts_tree::Tree;
use std::alloc::Global;
use std::thread::Threads;

/// How many nodes the stretches of one round have together at most, and how many one stretch has at least.
const ROUND: usize = 32_768;

const FEW: usize = 1_024;

/// How many bytes a page has for each node. A line has some 160; it is longer where a wire has many corners.
const LINE_ROOM: usize = 256;

/// Writes the report of a tree of an instance with these figures, as `cts_report::write_report` does, with so many workers
/// who make its lines. It takes memory before the first write alone, and needs none: without it, or where there is nothing
/// to share among workers, the caller writes the report.
///
/// - `Ok`: the sink has taken the whole text.
/// - `WriteFault`: only where the sink's count of faults rose in this call; the sink has taken exactly
///   the front of the text that the answer tells.
pub fn write_report_by<R: Threads + Sync, K: ByteSink>(
    rt: &R,
    alloc: Global,
    workers: u32,
    sink: &mut K,
    instance: &Instance,
    tree: &Tree,
    figures: &Figures,
) -> Result<(), WriteEnd>
    requires printable { IsPrintable tree.now figures.now }
    requires few { workers ≤ 64 }
    ensures { Writes K.held K.faults sink.old sink.new (report_text instance.now.version tree.now figures.now) result }
{
    let stretch = stretch_for(tree.nodes().len(), workers);
    write_in_stretches(rt, alloc, workers, stretch, sink, instance, tree, figures)
}

/// How many nodes each stretch has, so that each worker has one of the same length in each round, and the rounds, each of
/// which waits for its last worker, are few.
fn stretch_for(nodes: usize, workers: u32) -> usize
    ensures some { 0 < result }
    ensures short { result ≤ 2 ^ 32 }
{
    let rounds = nodes.div_ceil(ROUND).max(1);
    let round = nodes.div_ceil(rounds);
    round.div_ceil(workers.max(1) as usize).clamp(FEW, ROUND)
}

/// The same, with stretches of so many nodes.
pub(crate) fn write_in_stretches<R: Threads + Sync, K: ByteSink>(
    rt: &R,
    alloc: Global,
    workers: u32,
    stretch: usize,
    sink: &mut K,
    instance: &Instance,
    tree: &Tree,
    figures: &Figures,
) -> Result<(), WriteEnd>
    requires printable { IsPrintable tree.now figures.now }
    requires few { workers ≤ 64 }
    requires stretch { 0 < stretch }
    requires short { stretch ≤ 2 ^ 32 }
    ensures { Writes K.held K.faults sink.old sink.new (report_text instance.now.version tree.now figures.now) result }
{
    let stretches = tree.nodes().len().div_ceil(stretch);
    let count = stretches.min(workers as usize);
    if count < 2 {
        return write_report(sink, instance, tree, figures);
    }
    match make_pages(alloc, count, LINE_ROOM * stretch) {
        Ok(mut pages) => {
            let pages = pages.as_mut_slice();
            write_on_pages(rt, sink, instance, tree, figures, stretch, pages)
        }
        Err(NoMemory) => write_report(sink, instance, tree, figures),
    }
}

/// So many pages, each with so much room.
fn make_pages(alloc: Global, count: usize, room: usize) -> Result<Vec<Page>, NoMemory>
    ensures { IfOk result (λ pages. vec_len pages ≡ count) }
{
    let mut pages = Vec::with_capacity(alloc, count)?;
    while pages.len() < count {
        pages.push(Page::new(alloc, room)?)?;
    }
    Ok(pages)
}

/// Writes the report by way of these pages, each of which is for stretches of so many nodes.
fn write_on_pages<R: Threads + Sync, K: ByteSink>(
    rt: &R,
    sink: &mut K,
    instance: &Instance,
    tree: &Tree,
    figures: &Figures,
    stretch: usize,
    pages: &mut [Page],
) -> Result<(), WriteEnd>
    requires printable { IsPrintable tree.now figures.now }
    requires some { 0 < length pages.old }
    requires few { length pages.old ≤ 64 }
    requires stretch { 0 < stretch }
    requires short { stretch ≤ 2 ^ 32 }
    ensures { Writes K.held K.faults sink.old sink.new (report_text instance.now.version tree.now figures.now) result }
{
    let body = Body {
        version: instance.version(),
        nodes: tree.nodes(),
        figures: figures.nodes.items(),
    };
    let mut out = SinkBuffer::new();
    put_head(&mut out, sink, body.version, body.nodes.len());
    put_rounds(rt, &mut out, sink, &body, stretch, pages);
    put_totals(&mut out, sink, body.version, figures);
    out.finish(sink)
}
