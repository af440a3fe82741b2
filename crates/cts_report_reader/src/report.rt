//! A whole report.

ghost use Rattle.std.specs.Prelude.{◌≡◌, ℕ, ◌+◌, ◌^◌, ◌<◌, ◌≤◌, [], length, map, All, IfOk};
ghost use Rattle.cts_instance.specs.Validity.{IsValid};
ghost use Rattle.cts_report_reader.specs.Forms.{arrival_count, form_of};
ghost use Rattle.cts_report_reader.specs.Nodes.{IsSeenNode, seen_nodes};
ghost use Rattle.cts_report_reader.specs.Reports.{IsEnd, IsReading, IsSeenReading, seen_report};
ghost use Rattle.cts_report_reader.specs.Seen.{FindsLine, FindsLines};
ghost use Rattle.cts_report_reader.specs.Whole.{after_nodes, body_at, nodes_at, report_at, totals_at};

use crate::form::{Form, arrival_count, form_of, title};
use crate::node::{ReportNode, node, stack_node};
use crate::totals::{ReportTotals, count, totals};
use crate::words::after_word;
use cts_instance::{Instance, Version};
use cts_num::NoMemory;
use std::alloc::Global;

/// What a report prints.
#[derive(Drop)]
pub struct Report {
    /// The nodes in post-order, as they are numbered.
    pub nodes: Vec<ReportNode>,
    pub totals: ReportTotals,
}

/// What some bytes are.
#[derive(Drop)]
pub enum Reading {
    /// The text of this report.
    Text { report: Report },
    /// No text of a report: this is the first line with which none begins, counted from 1.
    NotText { line: u32 },
}

// A node's line has at least so many bytes.
const SHORTEST_LINE: usize = 111;

/// The nodes of a report, so many of them.
fn nodes(
    alloc: Global,
    form: Form,
    count: u32,
    bytes: &[u8],
) -> Result<Result<(Vec<ReportNode>, &[u8]), u32>, NoMemory>
    requires buffers { form.buffers ≤ 2 ^ 16 }
    requires count { count ≤ 131071 }
    ensures found { FindsLines (λ nodes. seen_nodes nodes.items) result (nodes_at form count 0 [] bytes.now) }
    ensures seen { IfOk result (λ found. IfOk found (λ nodes. All IsSeenNode nodes.0.items)) }
    ensures long { IfOk result (λ found. IfOk found (λ nodes. length nodes.0.items ≡ count)) }
{
    let mut items = Vec::with_capacity(alloc, (count as usize).min(bytes.len() / SHORTEST_LINE))?;
    let mut stack = Vec::new(alloc);
    let mut rest = bytes;
    for number in 0..count {
        let todo = (count - number - 1) as usize;
        let Some((next, after)) = node(alloc, form, number, stack.as_slice(), todo, rest)? else {
            return Ok(Err(number + 3));
        };
        stack_node(&mut stack, &next.kind, number)?;
        items.push(next)?;
        rest = after;
    }
    Ok(Ok((items, rest)))
}

/// The lines on the whole tree, after the nodes, before which `at` lines stand.
#[tactic(auto)]
fn with_totals(
    version: Version,
    nodes: Vec<ReportNode>,
    bytes: &[u8],
    at: u32,
) -> Result<(Report, &[u8]), u32>
    requires { at ≤ 2 ^ 20 }
    ensures found { FindsLine seen_report result (after_nodes (seen_nodes nodes.items) (totals_at version at bytes.now)) }
    ensures same { IfOk result (λ found. found.0.nodes.items ≡ nodes.items) }
{
    match totals(version, bytes, at) {
        Ok((totals, rest)) => Ok((Report { nodes, totals }, rest)),
        Err(line) => Err(line),
    }
}

/// So many nodes, and the lines on the whole tree.
#[tactic(auto, unfolding(crate::specs::Whole::body_at))]
fn body(
    alloc: Global,
    form: Form,
    count: u32,
    bytes: &[u8],
) -> Result<Result<(Report, &[u8]), u32>, NoMemory>
    requires buffers { form.buffers ≤ 2 ^ 16 }
    requires count { count ≤ 131071 }
    ensures found { FindsLines seen_report result (body_at form count bytes.now) }
    ensures seen { IfOk result (λ found. IfOk found (λ report. All IsSeenNode report.0.nodes.items)) }
    ensures few { IfOk result (λ found. IfOk found (λ report. length report.0.nodes.items ≤ 131071)) }
{
    match nodes(alloc, form, count, bytes)? {
        Ok((nodes, rest)) => Ok(with_totals(form.version, nodes, rest, count + 2)),
        Err(line) => Ok(Err(line)),
    }
}

/// A report up to its last line.
#[tactic(auto, unfolding(crate::specs::Whole::report_at))]
fn lines(alloc: Global, form: Form, bytes: &[u8]) -> Result<Result<(Report, &[u8]), u32>, NoMemory>
    requires { form.buffers ≤ 2 ^ 16 }
    ensures found { FindsLines seen_report result (report_at form bytes.now) }
    ensures seen { IfOk result (λ found. IfOk found (λ report. All IsSeenNode report.0.nodes.items)) }
    ensures few { IfOk result (λ found. IfOk found (λ report. length report.0.nodes.items ≤ 131071)) }
{
    let Some(((), rest)) = after_word(bytes, title(form.version)) else {
        return Ok(Err(1));
    };
    let Some((count, rest)) = count(rest) else {
        return Ok(Err(2));
    };
    body(alloc, form, count, rest)
}

/// The report of this instance whose text the bytes are, or the first line with which none begins.
///
/// It takes time and memory in proportion to the bytes.
pub fn read_report(alloc: Global, instance: &Instance, bytes: &[u8]) -> Result<Reading, NoMemory>
    ensures told { IfOk result (IsReading (form_of instance.now) bytes.now) }
    ensures seen { IfOk result IsSeenReading }
    ensures valid { IsValid instance.now }
{
    read_with(alloc, form_of(instance), bytes)
}

/// The same, by the form of the instance's reports.
fn read_with(alloc: Global, form: Form, bytes: &[u8]) -> Result<Reading, NoMemory>
    requires { form.buffers ≤ 2 ^ 16 }
    ensures told { IfOk result (IsReading form bytes.now) }
    ensures seen { IfOk result IsSeenReading }
{
    match lines(alloc, form, bytes)? {
        Ok((report, rest)) => Ok(at_the_end(form.version, report, rest)),
        Err(line) => Ok(Reading::NotText { line }),
    }
}

/// A report that has to end here: 11 lines and those on arrivals stand beside those of its nodes.
fn at_the_end(version: Version, report: Report, rest: &[u8]) -> Reading
    requires { length report.nodes.items ≤ 131071 }
    ensures { IsEnd version report rest.now result }
{
    if rest.is_empty() {
        Reading::Text { report }
    } else {
        Reading::NotText {
            line: report.nodes.len() as u32 + 12 + arrival_count(version),
        }
    }
}
