//! The parts of a synthesis by many workers: the shape, the plan, the memo in which it is published, and what it comes to.

ghost use Rattle.std.specs.Prelude.{◌≡◌, ◌≤◌, length, IfErr, IfOk, OnOk};
ghost use Rattle.cts_topo.specs.Shape.{IsShapeOver};
ghost use Rattle.cts_topo.specs.Sinks.{AreSinks};
ghost use Rattle.cts_topo.specs.Topology.{shape_of};
ghost use Rattle.cts_up.specs.Ends.{Ends};
ghost use Rattle.cts_up.specs.Plan.{IsPlan};
ghost use Rattle.cts_turn.specs.Passes.{seen_by, share_of};
ghost use Rattle.cts_memo.specs.Passes.{IsPassOf, params_of};
ghost use Rattle.cts_memo.specs.Sound.{IsSound};
ghost use Rattle.cts_memo.specs.Tables.{base_of, told_by};
ghost use Rattle.cts_tree_workers.specs.Rooms.{AreFor, AreReady};
ghost use Rattle.cts_top.specs.Memos.{HoldsPlan, IsPlanned, planned_of};
ghost use Rattle.cts_top.specs.Synthesised.{IsSynthesised};
ghost use Rattle.cts_work.specs.Plans.{nodes_of};
ghost use denote.Param.Send.{IsSync};

use crate::valid::instance_is_valid;
use cts_beside::beside;
use cts_elmore::Figures;
use cts_instance::Instance;
use cts_memo::laws::memo_is_shared;
use cts_memo::{Memo, MemoPass, Secret, Table};
use cts_num::NoMemory;
use cts_plain::NoTree;
use cts_topo::Shape;
use cts_tree::Tree;
use cts_tree_workers::{Rooms, shape_by, tree_by};
use cts_units::Sink;
use cts_up::UpEnd;
use cts_work::{Gate, Plan, plan_all, publish_plan};
use std::alloc::Global;
use std::sync::Wait;
use std::thread::Threads;

/// An instance, the shape over its sinks, and the shape's plan.
#[derive(Clone, Copy)]
pub(crate) struct Planned<'a> {
    pub(crate) instance: &'a Instance,
    pub(crate) shape: &'a Shape,
    pub(crate) plan: &'a Plan,
}

/// The table of a memo whose passes are all joined.
pub(crate) fn closed(memo: Memo, pass: MemoPass) -> Table
    requires own { IsPassOf memo pass }
    requires whole { share_of pass ≡ 65536 }
    ensures told { told_by result ≡ seen_by pass }
    ensures base { base_of result ≡ params_of memo }
    ensures sound { IsSound (base_of result) (told_by result) }
{
    match memo.close(pass) {
        Ok(table) => table,
        // The share is whole.
        Err(_) => unreachable!(),
    }
}

/// The shape over sinks with the rooms of its tree, by so many workers, and the secret of the memo, which a thread of its
/// own makes meanwhile.
pub(crate) fn make_shape<R: Threads + Sync>(
    rt: &R,
    alloc: Global,
    sinks: &[Sink],
    workers: u32,
) -> (Result<(Shape, Rooms), NoMemory>, Secret)
    requires { AreSinks sinks.now }
    ensures definition { IfOk result.0 (λ made. made.0 ≡ shape_of sinks.now) }
    ensures shape { IfOk result.0 (λ made. IsShapeOver (length sinks.now) made.0) }
    ensures rooms { IfOk result.0 (λ made. AreFor (length made.0) made.1) }
{
    let mix = move || Secret::of_sinks(sinks);
    let divide = move || -> Result<(Shape, Rooms), NoMemory>
        requires { AreSinks sinks.now }
        ensures definition { IfOk result (λ made. made.0 ≡ shape_of sinks.entry.now) }
        ensures shape { IfOk result (λ made. IsShapeOver (length sinks.entry.now) made.0) }
        ensures rooms { IfOk result (λ made. AreFor (length made.0) made.1) }
    { shape_by(rt, alloc, workers, sinks) };
    let (secret, shape) = beside(rt, mix, divide);
    (shape, secret)
}

/// The plan of the shape of an instance, by so many workers, and the rooms of its tree with the lists of the leaves, which
/// a thread of its own makes meanwhile.
pub(crate) fn make_plan<R: Threads + Sync, G: Gate>(
    rt: &R,
    alloc: Global,
    gate: &G,
    memo: &Memo,
    instance: &Instance,
    shape: &Shape,
    rooms: Rooms,
    workers: u32,
) -> (Result<Plan, UpEnd>, Result<Rooms, NoMemory>)
    requires shape { IsShapeOver (length instance.now.sinks) shape.now }
    requires rooms { AreFor (length shape.now) rooms }
    requires some { 1 ≤ workers }
    requires few { workers ≤ 64 }
    ensures plan { IfOk result.0 (λ plan. IsPlan (params_of memo.now) instance.now.sinks shape.now (nodes_of plan)) }
    ensures ends { IfErr result.0 (Ends (params_of memo.now) instance.now.sinks shape.now) }
    ensures rooms { IfOk result.1 (AreReady instance.now shape.now) }
{
    let list = move || -> Result<Rooms, NoMemory>
        requires { IsShapeOver (length instance.now.sinks) shape.now × AreFor (length shape.now) rooms }
        ensures { IfOk result (AreReady instance.entry.now shape.entry.now) }
    { rooms.with_leaves(instance, shape) };
    let up = move || -> Result<Plan, UpEnd>
        requires { IsShapeOver (length instance.now.sinks) shape.now × (1 ≤ workers) × (workers ≤ 64) }
        ensures plan { IfOk result (λ plan. IsPlan (params_of memo.entry.now) instance.entry.now.sinks shape.entry.now (nodes_of plan)) }
        ensures ends { IfErr result (Ends (params_of memo.entry.now) instance.entry.now.sinks shape.entry.now) }
    { plan_all(rt, alloc, memo, gate, instance.sinks(), shape, workers) };
    memo_is_shared();
    let (rooms, plan) = beside(rt, list, up);
    (plan, rooms)
}

/// What the plan of an instance comes to, whose nodes so many workers place and balance.
fn finish_plan<R: Threads + Sync>(
    rt: &R,
    alloc: Global,
    planned: Planned<'_>,
    rooms: Rooms,
    workers: u32,
) -> Result<(Tree, Figures), NoTree>
    requires planned { IsPlanned planned }
    requires rooms { AreReady planned.instance.now planned.shape.now rooms }
    ensures { IsSynthesised planned.entry.instance.now result }
{
    let Planned {
        instance,
        shape,
        plan,
    } = planned;
    instance_is_valid(instance);
    match plan.sites(alloc) {
        Ok(sites) => tree_by(rt, alloc, workers, instance, shape, sites.as_slice(), rooms),
        Err(NoMemory) => Err(NoTree::NoMemory),
    }
}

/// Publishes the plan of an instance in a memo, and gives the pass back.
fn publish<R: Wait, G: Gate>(
    rt: &R,
    alloc: Global,
    gate: &G,
    memo: &Memo,
    mut pass: MemoPass,
    planned: Planned<'_>,
) -> (Result<(), NoMemory>, MemoPass)
    requires own { IsPassOf memo.now pass }
    requires params { params_of memo.now ≡ planned.instance.now.params }
    requires planned { IsPlanned planned }
    ensures own { IsPassOf memo.now result.1 }
    ensures share { share_of result.1 ≡ share_of pass }
    ensures known { OnOk result.0 (HoldsPlan planned.entry.instance.now planned.entry.shape.now (seen_by result.1)) }
{
    let Planned {
        instance,
        shape,
        plan,
    } = planned;
    let sinks = instance.sinks();
    let published = publish_plan(rt, alloc, gate, memo, &mut pass, sinks, shape, plan);
    (published, pass)
}

/// What the plan of an instance comes to, by so many workers, while a thread of its own publishes the plan in the memo.
/// Both are done before anything is written, so that it is known by then whether memory sufficed.
pub(crate) fn finish_and_publish<R: Threads + Wait + Sync, G: Gate>(
    rt: &R,
    alloc: Global,
    gate: &G,
    memo: &Memo,
    pass: MemoPass,
    planned: Planned<'_>,
    rooms: Rooms,
    workers: u32,
) -> (
    Result<(Tree, Figures), NoTree>,
    Result<(), NoMemory>,
    MemoPass,
)
    requires own { IsPassOf memo.now pass }
    requires params { params_of memo.now ≡ planned.instance.now.params }
    requires planned { IsPlanned planned }
    requires rooms { AreReady planned.instance.now planned.shape.now rooms }
    ensures synthesised { IsSynthesised planned.entry.instance.now result.0 }
    ensures known { OnOk result.1 (HoldsPlan planned.entry.instance.now planned.entry.shape.now (seen_by result.2)) }
    ensures own { IsPassOf memo.now result.2 }
    ensures share { share_of result.2 ≡ share_of pass }
{
    let Planned {
        instance,
        shape,
        plan,
    } = planned;
    let bring = move || -> (Result<(), NoMemory>, MemoPass)
        requires { IsPassOf memo.now pass × (params_of memo.now ≡ instance.now.params) × IsPlanned (planned_of instance shape plan) }
        ensures own { IsPassOf memo.entry.now result.1 }
        ensures share { share_of result.1 ≡ share_of pass }
        ensures known { OnOk result.0 (HoldsPlan instance.entry.now shape.entry.now (seen_by result.1)) }
    {
        let planned = Planned {
            instance,
            shape,
            plan,
        };
        publish(rt, alloc, gate, memo, pass, planned)
    };
    let finish = move || -> Result<(Tree, Figures), NoTree>
        requires { IsPlanned (planned_of instance shape plan) × AreReady instance.now shape.now rooms }
        ensures { IsSynthesised instance.entry.now result }
    {
        let planned = Planned {
            instance,
            shape,
            plan,
        };
        finish_plan(rt, alloc, planned, rooms, workers)
    };
    memo_is_shared();
    let ((published, pass), synthesis) = beside(rt, bring, finish);
    (synthesis, published, pass)
}
