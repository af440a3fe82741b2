//! The tree of a version of the sinks, over the memo.

ghost use Rattle.std.specs.Prelude.{◌≡◌, ◌+◌, ◌≤◌, length, IfOk, IfErr, OnOk};
ghost use mathlib.Core.List.{IsPrefix};
ghost use Rattle.cts_instance.specs.Validity.{IsValid};
ghost use Rattle.cts_topo.specs.Shape.{IsShapeOver};
ghost use Rattle.cts_topo.specs.Sinks.{AreSinks};
ghost use Rattle.cts_topo.specs.Topology.{shape_of};
ghost use Rattle.cts_up.specs.Sites.{AreSites};
ghost use Rattle.cts_plain.specs.Ends.{Ends};
ghost use Rattle.cts_turn.specs.Passes.{made_by, seen_by, share_of};
ghost use Rattle.cts_memo.specs.Numbers.{missing};
ghost use Rattle.cts_memo.specs.Passes.{params_of, IsPassOf as IsMemoPassOf};
ghost use Rattle.cts_work.specs.Last.{IsPast, MayKnow};
ghost use Rattle.cts_design.specs.Passes.{instance_of, IsPassOf as IsDesignPassOf};
ghost use Rattle.cts_session.specs.Desks.{AreHandsOf, GoesOn, base_of, known_by, version_of};
ghost use Rattle.cts_session.specs.Draws.{EndsDraw, KnowsAtEnd, KnowsTree, KnowsUntil, end_at};

use crate::desk::{Desk, Hands};
use crate::finish::Finish;
use cts_design::{Design, snapshot};
use cts_elmore::Figures;
use cts_instance::Instance;
use cts_memo::{Memo, MemoPass};
use cts_merge::Steps;
use cts_num::NoMemory;
use cts_plain::{NoTree, Totals};
use cts_topo::{Order, Shape, topology_again};
use cts_tree::Tree;
use cts_turn::{Pass, Turn};
use cts_units::Sink;
use cts_work::{Gate, Past, rebuild_with};
use std::alloc::Global;
use std::sync::Wait;
use std::sync::ledger::Ledger;
use thiserror::Error;

/// The tree of a version, with its figures. A version is a number of accepted edits.
#[derive(Drop)]
pub struct Drawn {
    pub version: u32,
    pub tree: Tree,
    pub figures: Figures,
}

/// The skew and the wire of the tree of a version.
#[derive(Clone, Copy, Debug)]
pub struct VersionTotals {
    pub version: u32,
    pub totals: Totals,
}

/// Why a draw gives no tree.
#[derive(Clone, Copy, Debug, Error)]
pub enum TreeEnd {
    /// The sinks of this version have no tree: a node is beyond the limits, or cut.
    #[error("no tree of version {version}: {why}")]
    None { version: u32, why: NoTree },
    /// Memory ran out.
    #[error("no memory")]
    NoMemory,
}

impl From<NoMemory> for TreeEnd {
    ghost use Rattle.cts_session.specs.declared.draw.TreeEnd.TheVariants.{NoMemory};

    ghost from_gives = { λ _ end. end ≡ NoMemory };

    fn from(_error: NoMemory) -> TreeEnd {
        TreeEnd::NoMemory
    }
}

/// How a draw of this version ends that has no tree.
fn end_at(version: u32, why: NoTree) -> TreeEnd
    ensures { result ≡ end_at version why }
{
    match why {
        NoTree::Beyond { .. } | NoTree::Cut { .. } => TreeEnd::None { version, why },
        NoTree::NoMemory => TreeEnd::NoMemory,
    }
}

/// The instance with the sinks as they are when it is this call's turn, and how many edits were accepted
/// so far.
pub(crate) fn instance_now<R: Wait>(
    rt: &R,
    alloc: Global,
    instance: &Instance,
    design: &Turn<Design>,
    pass: &mut Pass<Design>,
) -> Result<(u32, Instance), NoMemory>
    requires base { instance_of design.now ≡ instance.now }
    requires own { IsDesignPassOf design.now pass.old }
    ensures own { IsDesignPassOf design.now pass.new }
    ensures share { share_of pass.new ≡ share_of pass.old }
    ensures made { made_by pass.new ≡ made_by pass.old }
    ensures goes_on { IsPrefix (seen_by pass.old) (seen_by pass.new) }
    ensures version { IfOk result (λ now. now.0 ≡ length (seen_by pass.new)) }
    ensures instance { IfOk result (λ now. now.1 ≡ version_of instance.now (seen_by pass.new)) }
    ensures valid { IfOk result (λ now. IsValid now.1) }
{
    let (version, sinks) = snapshot(design, rt, pass)?;
    let instance = instance.with_sinks(alloc, sinks)?;
    Ok((version, instance))
}

/// The shape of some sinks, made by their last order, which is then theirs.
fn shape_again(alloc: Global, sinks: &[Sink], order: &mut Option<Order>) -> Result<Shape, NoMemory>
    requires { AreSinks sinks.now }
    ensures definition { IfOk result (λ shape. shape ≡ shape_of sinks.now) }
    ensures each_sink_once { IfOk result (IsShapeOver (length sinks.now)) }
{
    let mut now = order.take().unwrap_or(Order::none(alloc));
    let shape = topology_again(alloc, sinks, &mut now)?;
    *order = Some(now);
    Ok(shape)
}

/// The shape of an instance's sinks, whose plan is made over the memo. Its sites are [`Past::sites`] afterwards.
///
/// The memo is as good as empty for the answer, which is that of the upward pass by one thread; it saves
/// the merges of the pairs that have a number in it. It is asked only for the nodes that aren't known of
/// the trees before, or heard of since; afterwards those of this tree are known. Where the plan has no node
/// beyond the memo has afterwards a number for every node of the tree, or is full.
fn plan<L: Ledger, R: Wait, G: Gate>(
    rt: &R,
    alloc: Global,
    memo: &Memo,
    pass: &mut MemoPass,
    past: &mut Past,
    order: &mut Option<Order>,
    gate: &G,
    caller: u32,
    instance: &Instance,
    steps: &mut Steps<L>,
) -> Result<Shape, NoTree>
    requires own { IsMemoPassOf memo.now pass.old }
    requires params { params_of memo.now ≡ instance.now.params }
    requires kept { IsPast (seen_by pass.old) past.old }
    ensures own { IsMemoPassOf memo.now pass.new }
    ensures share { share_of pass.new ≡ share_of pass.old }
    ensures goes_on { IsPrefix (seen_by pass.old) (seen_by pass.new) }
    ensures shape { IfOk result (λ shape. shape ≡ shape_of instance.now.sinks) }
    ensures over { IfOk result (IsShapeOver (length instance.now.sinks)) }
    ensures sites { IfOk result (λ shape. AreSites instance.now.params instance.now.sinks shape past.new.last.sites.items) }
    ensures ends { IfErr result (Ends instance.now) }
    ensures known { OnOk result (KnowsTree instance.now (seen_by pass.new)) }
    ensures known_until { IfErr result (KnowsUntil instance.now (seen_by pass.new)) }
    ensures kept { IsPast (seen_by pass.new) past.new }
    ensures merges { steps.new ≤ steps.old + missing (seen_by pass.old) instance.now.sinks (shape_of instance.now.sinks) }
{
    let sinks = instance.sinks();
    let shape = shape_again(alloc, sinks, order)?;
    rebuild_with(
        rt, alloc, memo, pass, gate, caller, sinks, &shape, past, steps,
    )?;
    Ok(shape)
}

/// What is made of an instance, whose version has this number and whose [`plan`] is made over the memo.
fn draw<L: Ledger, R: Wait, G: Gate, M: Drop, F: Finish<Made = M>>(
    rt: &R,
    alloc: Global,
    memo: &Memo,
    pass: &mut MemoPass,
    past: &mut Past,
    order: &mut Option<Order>,
    gate: &G,
    caller: u32,
    instance: &Instance,
    version: u32,
    finish: &F,
    steps: &mut Steps<L>,
) -> Result<M, NoTree>
    requires own { IsMemoPassOf memo.now pass.old }
    requires params { params_of memo.now ≡ instance.now.params }
    requires valid { IsValid instance.now }
    requires kept { IsPast (seen_by pass.old) past.old }
    ensures own { IsMemoPassOf memo.now pass.new }
    ensures share { share_of pass.new ≡ share_of pass.old }
    ensures goes_on { IsPrefix (seen_by pass.old) (seen_by pass.new) }
    ensures makes { IfOk result (F.makes finish.now instance.now version) }
    ensures ends { IfErr result (Ends instance.now) }
    ensures known { OnOk result (KnowsTree instance.now (seen_by pass.new)) }
    ensures known_until { IfErr result (KnowsUntil instance.now (seen_by pass.new)) }
    ensures kept { IsPast (seen_by pass.new) past.new }
    ensures merges { steps.new ≤ steps.old + missing (seen_by pass.old) instance.now.sinks (shape_of instance.now.sinks) }
{
    let shape = plan(
        rt, alloc, memo, pass, past, order, gate, caller, instance, steps,
    )?;
    finish.finish(alloc, instance, version, &shape, past.sites())
}

/// What is made of the sinks as they are when it is this call's turn. Nothing of an earlier draw is kept but
/// the memo, and what is known of its nodes.
pub(crate) fn draw_now<L: Ledger, R: Wait, G: Gate, M: Drop, F: Finish<Made = M>>(
    rt: &R,
    alloc: Global,
    desk: &Desk,
    hands: &mut Hands,
    past: &mut Option<Past>,
    order: &mut Option<Order>,
    gate: &G,
    caller: u32,
    finish: &F,
    steps: &mut Steps<L>,
) -> Result<M, TreeEnd>
    requires own { AreHandsOf desk.now hands.old }
    requires kept { MayKnow (seen_by hands.old.memo) past.old }
    ensures own { AreHandsOf desk.now hands.new }
    ensures goes_on { GoesOn (known_by hands.old) (known_by hands.new) }
    ensures known { known_by hands.new ≡ record (known_by hands.old) {
      entries = (known_by hands.new).entries;
      entries_made = (known_by hands.new).entries_made;
      edits = (known_by hands.new).edits;
    } }
    ensures makes { let edits = (known_by hands.new).edits in
        IfOk result (F.makes finish.now (version_of (base_of desk.now) edits) (length edits)) }
    ensures ends { IfErr result (EndsDraw (base_of desk.now) (known_by hands.new).edits) }
    ensures remembered { OnOk result (KnowsTree (version_of (base_of desk.now) (known_by hands.new).edits) (known_by hands.new).entries) }
    ensures kept { MayKnow (seen_by hands.new.memo) past.new }
    ensures remembered_until { IfErr result (KnowsAtEnd (version_of (base_of desk.now) (known_by hands.new).edits) (known_by hands.new).entries) }
    ensures merges { let sinks = (version_of (base_of desk.now) (known_by hands.new).edits).sinks in
        steps.new ≤ steps.old + missing (known_by hands.old).entries sinks (shape_of sinks) }
{
    let (version, instance) = instance_now(
        rt,
        alloc,
        &desk.instance,
        &desk.design,
        &mut hands.design,
    )?;
    let mut now = past.take().unwrap_or(Past::nothing(alloc));
    match draw(
        rt,
        alloc,
        &desk.memo,
        &mut hands.memo,
        &mut now,
        order,
        gate,
        caller,
        &instance,
        version,
        finish,
        steps,
    ) {
        Ok(made) => {
            *past = Some(now);
            Ok(made)
        }
        Err(why) => {
            *past = Some(now);
            Err(end_at(version, why))
        }
    }
}
