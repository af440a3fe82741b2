//! The upward pass of many workers over the memo.

ghost use Rattle.std.specs.Prelude.{◌≡◌, ◌≤◌, ◌⊎◌, length, IfOk, IfErr, OnOk};
ghost use mathlib.Core.List.{IsPrefix};
ghost use Rattle.cts_topo.specs.Shape.{IsShapeOver};
ghost use Rattle.cts_up.specs.Ends.{Ends};
ghost use Rattle.cts_up.specs.Plan.{IsPlan};
ghost use Rattle.cts_up.specs.Sinks.{AreSinksInRange};
ghost use Rattle.cts_turn.specs.Passes.{seen_by, share_of};
ghost use Rattle.cts_memo.specs.Numbers.{AreKnown};
ghost use Rattle.cts_memo.specs.Passes.{IsPassOf, params_of};
ghost use Rattle.cts_memo.specs.Sound.{max_entries};
ghost use Rattle.cts_up.specs.declared.end.UpEnd.{UpEnd};
ghost use Rattle.cts_work.specs.Plans.{nodes_of};

use crate::gate::Gate;
use crate::plan::Plan;
use crate::planning::plan_all;
use crate::publishing::publish_plan;
use cts_memo::{Memo, MemoPass};
use cts_merge::Finished;
use cts_num::NoMemory;
use cts_topo::Shape;
use cts_units::Sink;
use cts_up::UpEnd;
use std::alloc::Global;
use std::sync::Wait;
use std::thread::Threads;

/// The nodes of a plan in one list.
fn listed(alloc: Global, plan: &Plan) -> Result<Vec<Finished>, UpEnd>
    ensures list { IfOk result (λ list. list.items ≡ nodes_of plan.now) }
    ensures ends { IfErr result (λ end. end ≡ UpEnd.NoMemory) }
{
    Ok(plan.to_list(alloc)?)
}

/// The plan of a shape over sinks, as the upward pass gives it with the memo's parameters, made by so
/// many workers beside each other, and then brought into the memo by the caller.
///
/// This is [`plan_all`], and then [`publish_plan`], and at the end the nodes are put into one list. `Beyond` is exactly that
/// of the upward pass, and then nothing is published. `NoMemory` comes where an allocation fails, that of the list
/// too, when all is published; what was published stays in the memo.
pub fn build_all<R: Threads + Wait + Sync, G: Gate>(
    rt: &R,
    alloc: Global,
    memo: &Memo,
    pass: MemoPass,
    gate: &G,
    sinks: &[Sink],
    shape: &Shape,
    workers: u32,
) -> (Result<Vec<Finished>, UpEnd>, MemoPass)
    requires own { IsPassOf memo.now pass }
    requires share { 64 ≤ share_of pass }
    requires some { 1 ≤ workers }
    requires few { workers ≤ 64 }
    requires sinks { AreSinksInRange sinks.now }
    requires shape { IsShapeOver (length sinks.now) shape.now }
    ensures own { IsPassOf memo.now result.1 }
    ensures share { share_of result.1 ≡ share_of pass }
    ensures goes_on { IsPrefix (seen_by pass) (seen_by result.1) }
    ensures plan { IfOk result.0 (λ plan. IsPlan (params_of memo.now) sinks.now shape.now plan.items) }
    ensures ends { IfErr result.0 (Ends (params_of memo.now) sinks.now shape.now) }
    ensures known { OnOk result.0 ((length (seen_by result.1) ≡ max_entries) ⊎ AreKnown (seen_by result.1) sinks.now shape.now) }
{
    let plan = match plan_all(rt, alloc, memo, gate, sinks, shape, workers) {
        Ok(plan) => plan,
        Err(end) => return (Err(end), pass),
    };
    let mut pass = pass;
    match publish_plan(rt, alloc, gate, memo, &mut pass, sinks, shape, &plan) {
        Ok(()) => (listed(alloc, &plan), pass),
        Err(NoMemory) => (Err(UpEnd::NoMemory), pass),
    }
}
