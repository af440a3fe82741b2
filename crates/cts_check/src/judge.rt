//! The rules in their order, over a report that was read.

ghost use Rattle.std.specs.Prelude.{◌≡◌, ◌^◌, ◌<◌, ◌≤◌, length, map, All, IfOk};
ghost use Rattle.cts_postorder.specs.PostOrder.{IsPostOrder};
ghost use Rattle.cts_report_reader.specs.Bounds.{IsReport};
ghost use Rattle.cts_report_reader.specs.Forms.{form_of};
ghost use Rattle.cts_report_reader.specs.Nodes.{IsSeenNode};
ghost use Rattle.cts_report_reader.specs.Reports.{seen_report};
ghost use Rattle.cts_tree.specs.Nodes.{tree_children};
ghost use Rattle.cts_report.specs.Printed.{Printed};
ghost use Rattle.cts_check.specs.Judgement.{IsFirstOfFour, Judges};
ghost use Rattle.cts_check.specs.Marks.{NamesById};
ghost use Rattle.cts_check.specs.Ranges.{IsInRange};
ghost use Rattle.cts_check.specs.Told.{told_nodes};

use crate::buffers::first_blocked_buffer;
use crate::ends::upper_ends;
use crate::figures::first_wrong_figure;
use crate::routes::first_illegal_route;
use crate::sinks::first_unmet_sink;
use crate::told::told_nodes_of;
use crate::verdict::{Rule, Verdict};
use crate::wires::first_short_wire;
use cts_elmore::{Measured, try_measure};
use cts_instance::Instance;
use cts_num::NoMemory;
use cts_report_reader::Report;
use cts_tree::{Tree, TreeNode};
use std::alloc::Global;
use std::thread::Threads;

/// The verdict on a report that was read: `Yes`, or the first rule that its tree breaks, at the least
/// number.
pub fn judge(
    rt: &(impl Threads + Sync),
    alloc: Global,
    instance: &Instance,
    report: Report,
) -> Result<Verdict, NoMemory>
    requires report { IsReport (form_of instance.now) (seen_report report) }
    requires seen { All IsSeenNode report.nodes.items }
    ensures { IfOk result (Judges instance.now (seen_report report)) }
{
    let Report { mut nodes, totals } = report;
    let told = told_nodes_of(alloc, instance.sinks(), nodes.as_mut_slice())?;
    if let Some((rule, node)) = first_broken(alloc, instance, told.as_slice())? {
        return Ok(broken(rule, node));
    }
    let tree = Tree::of(told);
    let figures = match try_measure(alloc, instance, &tree)? {
        Measured::Within { figures } => figures,
        Measured::Over { node } => return Ok(broken(Rule::Limit, node)),
    };
    match first_wrong_figure(rt, instance.version(), nodes.as_slice(), &totals, &figures) {
        Some(node) => Ok(broken(Rule::Figure, node)),
        None => Ok(Verdict::Yes),
    }
}

/// The first of the rules before the limits that a told tree breaks, with the least number.
fn first_broken(
    alloc: Global,
    instance: &Instance,
    nodes: &[TreeNode],
) -> Result<Option<(Rule, u32)>, NoMemory>
    requires post_order { IsPostOrder (map tree_children nodes.now) }
    requires few { length nodes.now ≤ 131071 }
    requires names { All (λ node. NamesById instance.now.sinks node.kind) nodes.now }
    requires in_range { All IsInRange nodes.now }
    ensures { (printed : Printed) → nodes.now ≡ told_nodes instance.now.sinks printed.nodes
        → IfOk result (IsFirstOfFour instance.now printed) }
{
    if let Some(node) = first_unmet_sink(alloc, instance, nodes)? {
        return Ok(Some((Rule::Sinks, node)));
    }
    let ends = upper_ends(alloc, instance, nodes)?;
    let ends = ends.as_slice();
    if let Some(node) = first_illegal_route(alloc, instance, nodes, ends)? {
        return Ok(Some((Rule::Route, node)));
    }
    if let Some(node) = first_short_wire(nodes, ends) {
        return Ok(Some((Rule::Short, node)));
    }
    match first_blocked_buffer(alloc, instance, nodes)? {
        Some(node) => Ok(Some((Rule::BufferBlocked, node))),
        None => Ok(None),
    }
}

/// The verdict that a rule is broken at a number.
fn broken(rule: Rule, node: u32) -> Verdict
    ensures { result ≡ Verdict.Wrong rule node }
{
    Verdict::Wrong { rule, node }
}
