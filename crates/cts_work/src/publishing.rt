//! A plan is brought into the memo.

ghost use Rattle.std.specs.Prelude.{◌≡◌, ◌+◌, ◌<◌, ◌≤◌, ◌⊎◌, length, IfOk, OnOk};
ghost use mathlib.Core.List.{IsPrefix};
ghost use Rattle.cts_merge.specs.Merge.{IsLeaf};
ghost use Rattle.cts_topo.specs.Shape.{IsShapeOver};
ghost use Rattle.cts_up.specs.Plan.{IsPlan};
ghost use Rattle.cts_up.specs.Sinks.{AreSinksInRange};
ghost use Rattle.cts_turn.specs.Passes.{seen_by, share_of};
ghost use Rattle.cts_memo.specs.declared.entry.MemoEntry.{MemoEntry};
ghost use Rattle.cts_memo.specs.Keys.{IsNarrow, leaf_key};
ghost use Rattle.cts_memo.specs.Numbers.{AreKnown};
ghost use Rattle.cts_memo.specs.Passes.{IsPassOf, params_of};
ghost use Rattle.cts_memo.specs.Sound.{IsMadeOf, NamesEntries, max_entries};
ghost use Rattle.cts_work.specs.Built.{GoesOn, IsKept, IsPairAt, tree_at};
ghost use Rattle.cts_work.specs.Numbered.{AreNumbered, HasNumber};
ghost use Rattle.cts_work.specs.Plans.{nodes_of};
ghost use Rattle.cts_work.specs.Numbered.{HoldsFor};
ghost use Rattle.cts_work.specs.Work.{AreMade, IsMadeAt, IsReady};

use crate::gate::Gate;
use crate::node::{PairNumbers, keep};
use crate::plan::Plan;
use crate::work::Work;
use cts_memo::{Answer, Key, Memo, MemoPass};
use cts_merge::Finished;
use cts_num::NoMemory;
use cts_topo::{Shape, ShapeNode};
use cts_units::Sink;
use std::alloc::Global;
use std::sync::Wait;

/// Who brings a plan into the memo: by which runtime it waits for its turns, past which gate it publishes, and whether the
/// memo had no entries when it began.
#[derive(Drop)]
pub(crate) struct Publisher<'a, R, G> {
    pub(crate) rt: &'a R,
    pub(crate) gate: &'a G,
    pub(crate) is_first: bool,
}

/// A node that was brought into the memo.
#[derive(Clone, Copy)]
pub(crate) struct Brought {
    /// The number of its entry, or `None` where the memo was full.
    pub(crate) number: Option<u32>,
    /// The number of its piece, or of its leftmost piece where it stands above the pieces.
    pub(crate) piece: u32,
    /// Whether the memo lacked it, so that it was published, or had no room.
    pub(crate) is_new: bool,
}

/// What the memo answers for a key. Where it had no entries every key was absent, and so was a pair above a part that was
/// absent, since its entry would name the part's: then the memo isn't asked.
#[inline(always)]
fn answer_for<R: Wait>(rt: &R, memo: &Memo, pass: &mut MemoPass, key: Key, is_new: bool) -> Answer
    requires own { IsPassOf memo.now pass.old }
    requires key { NamesEntries (seen_by pass.old) key }
    ensures pass { GoesOn memo.now pass.old pass.new }
    ensures holds { HoldsFor (seen_by pass.new) key result }
{
    if is_new {
        return Answer::Absent;
    }
    memo.ask(rt, pass, key)
}

/// The number of what was made of a key: that of its entry, or, where it is absent, published past the
/// gate. `None` where the memo is full.
#[inline(always)]
fn bring<R: Wait, G: Gate>(
    publisher: &Publisher<'_, R, G>,
    piece: u32,
    memo: &Memo,
    pass: &mut MemoPass,
    key: Key,
    is_new: bool,
    finished: &Finished,
) -> Result<Brought, NoMemory>
    requires own { IsPassOf memo.now pass.old }
    requires key { NamesEntries (seen_by pass.old) key }
    requires finished { IsMadeOf (params_of memo.now) (seen_by pass.old) key finished.now }
    ensures pass { GoesOn memo.now pass.old pass.new }
    ensures kept { IfOk result (λ b. IsKept (seen_by pass.new) key finished.now b.number) }
{
    match answer_for(publisher.rt, memo, pass, key, is_new) {
        Answer::Have { number, .. } => Ok(Brought {
            number: Some(number),
            piece,
            is_new: false,
        }),
        Answer::Absent => {
            publisher.gate.between(piece);
            let number = keep(publisher.rt, memo, pass, key, *finished)?;
            Ok(Brought {
                number,
                piece,
                is_new: true,
            })
        }
    }
}

/// The leaf of a sink. Its key is read off what it is made of, since the sinks of a plan's leaves stand far apart in
/// their list.
fn bring_leaf<R: Wait, G: Gate>(
    publisher: &Publisher<'_, R, G>,
    piece: u32,
    memo: &Memo,
    pass: &mut MemoPass,
    sink: &Sink,
    finished: &Finished,
) -> Result<Brought, NoMemory>
    requires own { IsPassOf memo.now pass.old }
    requires narrow { IsNarrow finished.now.side }
    requires leaf { IsLeaf sink.now finished.now }
    ensures pass { GoesOn memo.now pass.old pass.new }
    ensures kept { IfOk result (λ b. IsKept (seen_by pass.new) (leaf_key sink.now) finished.now b.number) }
{
    let key = Key::of_leaf(finished);
    bring(
        publisher,
        piece,
        memo,
        pass,
        key,
        publisher.is_first,
        finished,
    )
}

/// A pair whose two parts were brought in before.
fn bring_pair<R: Wait, G: Gate>(
    publisher: &Publisher<'_, R, G>,
    work: &Work<'_>,
    pass: &mut MemoPass,
    at: PairNumbers,
    left: Brought,
    right: Brought,
    finished: &Finished,
) -> Result<Brought, NoMemory>
    requires own { IsPassOf work.now.memo.now pass.old }
    requires here { IsPairAt work.now.nodes.now at.node at.left at.right }
    requires left { HasNumber (seen_by pass.old) work.now.sinks.now (tree_at work.now.nodes.now at.left) left.number }
    requires right { HasNumber (seen_by pass.old) work.now.sinks.now (tree_at work.now.nodes.now at.right) right.number }
    requires made { IsMadeAt work.now at.node finished.now }
    ensures pass { GoesOn work.now.memo.now pass.old pass.new }
    ensures number { IfOk result (λ b. HasNumber (seen_by pass.new) work.now.sinks.now (tree_at work.now.nodes.now at.node) b.number) }
{
    let piece = left.piece;
    match Key::of_pair(left.number, right.number) {
        Some(key) => {
            let is_new = left.is_new || right.is_new;
            bring(publisher, piece, work.memo, pass, key, is_new, finished)
        }
        None => Ok(Brought {
            number: None,
            piece,
            is_new: true,
        }),
    }
}

/// The node of a number, brought into the memo after all before it. A leaf lies in the piece of this number.
fn bring_node<R: Wait, G: Gate>(
    publisher: &Publisher<'_, R, G>,
    work: &Work<'_>,
    pass: &mut MemoPass,
    node: u32,
    piece: u32,
    before: &[Brought],
    finished: &Finished,
) -> Result<Brought, NoMemory>
    requires own { IsPassOf work.now.memo.now pass.old }
    requires ready { IsReady work.now }
    requires node { node < length work.now.nodes.now }
    requires long { length before.now ≡ node }
    requires before { AreNumbered (seen_by pass.old) work.now.sinks.now work.now.nodes.now before.now }
    requires made { IsMadeAt work.now node finished.now }
    ensures pass { GoesOn work.now.memo.now pass.old pass.new }
    ensures number { IfOk result (λ b. HasNumber (seen_by pass.new) work.now.sinks.now (tree_at work.now.nodes.now node) b.number) }
{
    match work.nodes[node as usize] {
        ShapeNode::Leaf { sink } => {
            let sink = &work.sinks[sink as usize];
            bring_leaf(publisher, piece, work.memo, pass, sink, finished)
        }
        ShapeNode::Pair { left, right } => {
            let (a, b) = (before[left as usize], before[right as usize]);
            let at = PairNumbers { node, left, right };
            bring_pair(publisher, work, pass, at, a, b, finished)
        }
    }
}

/// The nodes of a part of a plan, brought into the memo one after another.
fn bring_part<R: Wait, G: Gate>(
    publisher: &Publisher<'_, R, G>,
    work: &Work<'_>,
    pass: &mut MemoPass,
    piece: u32,
    part: &[Finished],
    before: &mut Vec<Brought>,
) -> Result<(), NoMemory>
    requires own { IsPassOf work.now.memo.now pass.old }
    requires ready { IsReady work.now }
    requires within { length before.old.items + length part.now ≤ length work.now.nodes.now }
    requires made { AreMade work.now (length before.old.items) part.now }
    requires before { AreNumbered (seen_by pass.old) work.now.sinks.now work.now.nodes.now before.old.items }
    ensures pass { GoesOn work.now.memo.now pass.old pass.new }
    ensures long { OnOk result (length before.new.items ≡ length before.old.items + length part.now) }
    ensures before { OnOk result (AreNumbered (seen_by pass.new) work.now.sinks.now work.now.nodes.now before.new.items) }
{
    let first = before.len();
    for place in 0..part.len() {
        let next = bring_node(
            publisher,
            work,
            pass,
            (first + place) as u32,
            piece,
            before.as_slice(),
            &part[place],
        )?;
        before.push(next)?;
    }
    Ok(())
}

/// The nodes of a plan, brought into the memo one after another.
fn bring_nodes<R: Wait, G: Gate>(
    publisher: &Publisher<'_, R, G>,
    alloc: Global,
    work: &Work<'_>,
    pass: &mut MemoPass,
    plan: &Plan,
) -> Result<(), NoMemory>
    requires own { IsPassOf work.now.memo.now pass.old }
    requires ready { IsReady work.now }
    requires long { length (nodes_of plan.now) ≡ length work.now.nodes.now }
    requires made { AreMade work.now 0 (nodes_of plan.now) }
    ensures pass { GoesOn work.now.memo.now pass.old pass.new }
    ensures known { OnOk result ((length (seen_by pass.new) ≡ max_entries) ⊎ AreKnown (seen_by pass.new) work.now.sinks.now work.now.nodes.now) }
{
    let mut before = Vec::with_capacity(alloc, work.nodes.len())?;
    for number in 0..plan.parts.len() {
        let part = &plan.parts[number];
        bring_part(publisher, work, pass, part.piece, &part.nodes, &mut before)?;
    }
    Ok(())
}

/// Brings a plan of a shape over sinks into the memo with whose parameters it was made.
///
/// The caller alone goes through the nodes in their order. Each is looked up, and takes its number where the memo has it;
/// where it is absent, the gate's `between` is called with the number of its piece, outside every turn, and the node is
/// published. A pair above the pieces has the number of its leftmost one. A look-up whose answer is known is left out: in a
/// memo without entries every node is absent, and a pair one of whose parts was absent is absent too, as its entry would name
/// the part's. Nothing is looked up or published above a node that the memo had no room for. `NoMemory` comes where an allocation fails, or the table could not grow; what was
/// published stays in the memo.
pub fn publish_plan<R: Wait, G: Gate>(
    rt: &R,
    alloc: Global,
    gate: &G,
    memo: &Memo,
    pass: &mut MemoPass,
    sinks: &[Sink],
    shape: &Shape,
    plan: &Plan,
) -> Result<(), NoMemory>
    requires own { IsPassOf memo.now pass.old }
    requires sinks { AreSinksInRange sinks.now }
    requires shape { IsShapeOver (length sinks.now) shape.now }
    requires plan { IsPlan (params_of memo.now) sinks.now shape.now (nodes_of plan.now) }
    ensures own { IsPassOf memo.now pass.new }
    ensures share { share_of pass.new ≡ share_of pass.old }
    ensures goes_on { IsPrefix (seen_by pass.old) (seen_by pass.new) }
    ensures known { OnOk result ((length (seen_by pass.new) ≡ max_entries) ⊎ AreKnown (seen_by pass.new) sinks.now shape.now) }
{
    let nodes = shape.nodes();
    let work = Work { memo, sinks, nodes };
    let is_first = memo.read(rt, alloc, pass, 0, 1)?.is_empty();
    let publisher = Publisher { rt, gate, is_first };
    bring_nodes(&publisher, alloc, &work, pass, plan)
}
