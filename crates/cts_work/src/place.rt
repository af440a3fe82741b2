//! One node over the memo, at its place among those that are known, or built and put behind them.

ghost use Rattle.std.specs.Prelude.{◌≡◌, ◌+◌, ◌≤◌, Some, All, IfOk, IfErr};
ghost use mathlib.Core.List.{IsPrefix};
ghost use Rattle.cts_up.specs.Sinks.{IsSinkInRange};
ghost use Rattle.cts_turn.specs.Passes.{seen_by};
ghost use Rattle.cts_memo.specs.Passes.{IsPassOf};
ghost use Rattle.cts_work.specs.Built.{GoesOn, IsBuiltLeaf, IsNoted, IsPairAt};
ghost use Rattle.cts_memo.specs.Keys.{leaf_key};
ghost use Rattle.cts_work.specs.Known.{IsAtPlace};
ghost use Rattle.cts_work.specs.Last.{IsPairOver};
ghost use Rattle.cts_work.specs.Work.{EndsAt, IsBuiltAt, IsReady, missing_at};

use crate::gate::Gate;
use crate::hints::Hints;
use crate::known::add;
use crate::node::{Built, PairNumbers, build_leaf, build_pair};
use crate::work::{Work, Worker};
use cts_memo::{Key, Memo, MemoPass};
use cts_merge::Steps;
use cts_num::NoMemory;
use cts_units::Sink;
use cts_up::UpEnd;
use std::sync::Wait;
use std::sync::ledger::Ledger;

/// The place of a sink's leaf among the nodes that are known, with those that are put behind them.
pub(crate) fn place_leaf<R: Wait, G: Gate>(
    worker: &Worker<'_, '_, R, G>,
    hints: &Hints,
    memo: &Memo,
    pass: &mut MemoPass,
    sink: &Sink,
    nodes: &mut Vec<Built>,
    cursor: &mut u32,
) -> Result<u32, NoMemory>
    requires own { IsPassOf memo.now pass.old }
    requires sink { IsSinkInRange sink.now }
    requires noted { All (IsNoted (seen_by pass.old)) nodes.old.items }
    ensures pass { GoesOn memo.now pass.old pass.new }
    ensures more { IsPrefix nodes.old.items nodes.new.items }
    ensures noted { All (IsNoted (seen_by pass.new)) nodes.new.items }
    ensures built { IfOk result (IsAtPlace nodes.new.items (IsBuiltLeaf (seen_by pass.new) sink.now)) }
    ensures keyed { IfOk result (IsAtPlace nodes.new.items (λ leaf. leaf.key ≡ Some (leaf_key sink.now))) }
{
    let key = Key::of_sink(sink);
    if let Some(place) = hints.find(nodes, key, cursor) {
        return Ok(place);
    }
    let leaf = build_leaf(worker, memo, pass, sink)?;
    Ok(add(nodes, leaf)?)
}

/// The place of the pair at a number, whose two parts stand at such places.
pub(crate) fn place_pair<L: Ledger, R: Wait, G: Gate>(
    worker: &Worker<'_, '_, R, G>,
    hints: &Hints,
    work: &Work<'_>,
    pass: &mut MemoPass,
    at: PairNumbers,
    left: u32,
    right: u32,
    nodes: &mut Vec<Built>,
    cursor: &mut u32,
    steps: &mut Steps<L>,
) -> Result<u32, UpEnd>
    requires own { IsPassOf work.now.memo.now pass.old }
    requires ready { IsReady work.now }
    requires here { IsPairAt work.now.nodes.now at.node at.left at.right }
    requires left { IsAtPlace nodes.old.items (IsBuiltAt work.now (seen_by pass.old) at.left) left }
    requires right { IsAtPlace nodes.old.items (IsBuiltAt work.now (seen_by pass.old) at.right) right }
    requires noted { All (IsNoted (seen_by pass.old)) nodes.old.items }
    ensures pass { GoesOn work.now.memo.now pass.old pass.new }
    ensures more { IsPrefix nodes.old.items nodes.new.items }
    ensures noted { All (IsNoted (seen_by pass.new)) nodes.new.items }
    ensures built { IfOk result (IsAtPlace nodes.new.items (IsBuiltAt work.now (seen_by pass.new) at.node)) }
    ensures keyed { IfOk result (IsPairOver nodes.new.items left right) }
    ensures ends { IfErr result (EndsAt work.now at.node) }
    ensures merges { steps.new ≤ steps.old + missing_at work.now (seen_by pass.old) at.node }
{
    let a = &nodes[left as usize];
    let b = &nodes[right as usize];
    if let Some(key) = Key::of_pair(a.number, b.number) {
        if let Some(place) = hints.find(nodes, key, cursor) {
            return Ok(place);
        }
    }
    match build_pair(worker, work, pass, at, a, b, steps) {
        Ok(pair) => Ok(add(nodes, pair)?),
        Err(end) => Err(end),
    }
}
