//! Rounds, in each of which every page is filled and then put.

ghost use Rattle.std.specs.Prelude.{◌≡◌, ℕ, ◌+◌, ◌*◌, ◌^◌, ◌<◌, ◌≤◌, length, slice_index_or};
ghost use Rattle.std.specs.List.{concat};
ghost use Rattle.cts_io.specs.Text.{Puts};
ghost use Rattle.cts_report.specs.Lines.{node_lines};
ghost use Rattle.cts_report.specs.Report.{printed_nodes};
ghost use Rattle.cts_report_workers.specs.Stretches.{AreFilled, IsPrintableBody, Says, stretch_text};
ghost use denote.Param.Send.{IsSync};

use crate::body::{Body, put_lines};
use crate::page::Page;
use cts_beside::threads_at_once;
use cts_io::{ByteSink, SinkBuffer};
use std::thread::{Threads, join_mut};

/// Fills the pages with stretches of so many nodes from the number `first` on, the last one in this thread and each other
/// one in a thread of its own where one can be made.
fn fill_pages<R: Threads + Sync>(
    rt: &R,
    body: &Body<'_>,
    first: usize,
    stretch: usize,
    pages: &mut [Page],
)
    requires ready { IsPrintableBody body.now }
    requires some { 0 < length pages.old }
    requires room { first + length pages.old * stretch < 2 ^ 64 }
    ensures { AreFilled body.now first stretch pages.new }
{
    let mut fill = ||
        requires { IsSync R.row × IsPrintableBody body.now × (0 < length pages.now)
            × (first + length pages.now * stretch < 2 ^ 64) }
        ensures { AreFilled body.entry.now first stretch pages.exit.now }
    { fill_from(rt, body, first, stretch, pages) };
    threads_at_once(rt, &mut fill);
}

/// The same, where the first thread may begin late.
#[cycle(pages)]
fn fill_from<R: Threads + Sync>(
    rt: &R,
    body: &Body<'_>,
    first: usize,
    stretch: usize,
    pages: &mut [Page],
)
    requires shared { IsSync R.row }
    requires ready { IsPrintableBody body.now }
    requires some { 0 < length pages.old }
    requires room { first + length pages.old * stretch < 2 ^ 64 }
    ensures { AreFilled body.now first stretch pages.new }
{
    let (page, rest) = pages.split_at_mut(1);
    let page = &mut page[0];
    if rest.is_empty() {
        page.fill(body, first, stretch);
    } else {
        fill_beside(rt, body, first, stretch, page, rest);
    }
}

/// Fills a page in a thread of its own, and those behind it.
#[cycle(pages)]
fn fill_beside<R: Threads + Sync>(
    rt: &R,
    body: &Body<'_>,
    first: usize,
    stretch: usize,
    page: &mut Page,
    rest: &mut [Page],
)
    requires shared { IsSync R.row }
    requires ready { IsPrintableBody body.now }
    requires some { 0 < length rest.old }
    requires room { first + (length rest.old + 1) * stretch < 2 ^ 64 }
    ensures page { Says page.new (stretch_text body.now first stretch) }
    ensures rest { AreFilled body.now (first + stretch) stretch rest.new }
    ensures long { length rest.new ≡ length rest.old }
{
    let next = first + stretch;
    let mut here = ||
        requires { IsPrintableBody body.now }
        ensures { Says page.exit.now (stretch_text body.entry.now first stretch) }
    { page.fill(body, first, stretch) };
    let mut behind = ||
        requires { IsSync R.row × IsPrintableBody body.now × (0 < length rest.now) × (next + length rest.now * stretch < 2 ^ 64) }
        ensures { AreFilled body.entry.now next stretch rest.exit.now }
    { fill_from(rt, body, next, stretch, rest) };
    join_mut(rt, &mut here, &mut behind);
}

/// Puts the lines that a page should have: its text, or themselves where they did not fit.
fn put_page<K: ByteSink>(
    out: &mut SinkBuffer,
    sink: &mut K,
    body: &Body<'_>,
    first: usize,
    stretch: usize,
    page: &Page,
)
    requires ready { IsPrintableBody body.now }
    requires says { Says page.now (stretch_text body.now first stretch) }
    ensures { Puts K.ByteSink (sink.old, out.old) (sink.new, out.new) (stretch_text body.now first stretch) }
{
    match page.text() {
        Some(text) => out.put(sink, text),
        None => put_lines(out, sink, body, first, stretch),
    }
}

/// Puts what stands on pages that were filled, one after another.
fn put_pages<K: ByteSink>(
    out: &mut SinkBuffer,
    sink: &mut K,
    body: &Body<'_>,
    first: usize,
    stretch: usize,
    pages: &[Page],
)
    requires ready { IsPrintableBody body.now }
    requires room { first + length pages.now * stretch < 2 ^ 64 }
    requires filled { AreFilled body.now first stretch pages.now }
    ensures { Puts K.ByteSink (sink.old, out.old) (sink.new, out.new)
        (stretch_text body.now first (length pages.now * stretch)) }
{
    for number in 0..pages.len() {
        let from = first + number * stretch;
        put_page(out, sink, body, from, stretch, &pages[number]);
    }
}

/// Puts the lines of as many nodes from the number `first` on as all pages are for.
fn put_round<R: Threads + Sync, K: ByteSink>(
    rt: &R,
    out: &mut SinkBuffer,
    sink: &mut K,
    body: &Body<'_>,
    first: usize,
    stretch: usize,
    pages: &mut [Page],
)
    requires ready { IsPrintableBody body.now }
    requires some { 0 < length pages.old }
    requires room { first + length pages.old * stretch < 2 ^ 64 }
    ensures { Puts K.ByteSink (sink.old, out.old) (sink.new, out.new)
        (stretch_text body.now first (length pages.old * stretch)) }
{
    fill_pages(rt, body, first, stretch, pages);
    put_pages(out, sink, body, first, stretch, pages);
}

/// Puts the lines of all nodes, in as many rounds as they need.
pub(crate) fn put_rounds<R: Threads + Sync, K: ByteSink>(
    rt: &R,
    out: &mut SinkBuffer,
    sink: &mut K,
    body: &Body<'_>,
    stretch: usize,
    pages: &mut [Page],
)
    requires ready { IsPrintableBody body.now }
    requires some { 0 < length pages.old }
    requires few { length pages.old ≤ 64 }
    requires stretch { 0 < stretch }
    requires short { stretch ≤ 2 ^ 32 }
    ensures { Puts K.ByteSink (sink.old, out.old) (sink.new, out.new)
        (concat (node_lines 0 (printed_nodes body.now.version body.now.nodes.now body.now.figures.now))) }
{
    let round = pages.len() * stretch;
    let mut first = 0;
    while first < body.nodes.len() {
        put_round(rt, out, sink, body, first, stretch, pages);
        first += round;
    }
}
