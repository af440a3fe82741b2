//! One node over the memo.

ghost use Rattle.std.specs.Prelude.{◌≡◌, ◌+◌, ◌≤◌, Some, IfOk, IfErr};
ghost use Rattle.cts_merge.specs.Merge.{IsBeyond, IsMerged};
ghost use Rattle.cts_merge.specs.Side.{IsMergeable};
ghost use Rattle.cts_up.specs.Sinks.{IsSinkInRange};
ghost use Rattle.cts_turn.specs.Passes.{seen_by};
ghost use Rattle.cts_memo.specs.Keys.{leaf_key, pair_key};
ghost use Rattle.cts_memo.specs.Passes.{IsPassOf, params_of};
ghost use Rattle.cts_memo.specs.Replies.{IsAbsent, IsFound};
ghost use Rattle.cts_memo.specs.Sound.{IsMadeOf, NamesEntries};
ghost use Rattle.cts_work.specs.Built.{GoesOn, IsBuiltLeaf, IsKept, IsPairAt};
ghost use Rattle.cts_work.specs.Work.{EndsAt, IsBuiltAt, IsReady, missing_at};

use crate::gate::Gate;
use crate::work::{Work, Worker};
use cts_memo::{Answer, Key, Memo, MemoPass, PutEnd};
use cts_merge::{Beyond, Finished, Steps, leaf, merge};
use cts_num::NoMemory;
use cts_units::Sink;
use cts_up::UpEnd;
use std::sync::Wait;
use std::sync::ledger::Ledger;

/// A node that is done with.
#[derive(Clone, Copy)]
pub(crate) struct Built {
    /// Its key, or `None` where one of its parts has no number.
    pub(crate) key: Option<Key>,
    /// The number of its entry, or `None` where the memo was full.
    pub(crate) number: Option<u32>,
    /// What it is made of.
    pub(crate) finished: Finished,
}

/// Publishes what was made of a key. Its number, or `None` where the memo is full.
pub(crate) fn keep<R: Wait>(
    rt: &R,
    memo: &Memo,
    pass: &mut MemoPass,
    key: Key,
    finished: Finished,
) -> Result<Option<u32>, NoMemory>
    requires own { IsPassOf memo.now pass.old }
    requires key { NamesEntries (seen_by pass.old) key }
    requires finished { IsMadeOf (params_of memo.now) (seen_by pass.old) key finished }
    ensures pass { GoesOn memo.now pass.old pass.new }
    ensures kept { IfOk result (IsKept (seen_by pass.new) key finished) }
{
    match memo.put(rt, pass, key, finished) {
        PutEnd::At { number } => Ok(Some(number)),
        PutEnd::Full => Ok(None),
        PutEnd::NoMemory => Err(NoMemory),
    }
}

/// Publishes what was made of a key that was absent, past the gate. Its number, or `None` where the memo
/// is full.
fn publish<R: Wait, G: Gate>(
    worker: &Worker<'_, '_, R, G>,
    memo: &Memo,
    pass: &mut MemoPass,
    key: Key,
    finished: Finished,
) -> Result<Option<u32>, NoMemory>
    requires own { IsPassOf memo.now pass.old }
    requires key { NamesEntries (seen_by pass.old) key }
    requires finished { IsMadeOf (params_of memo.now) (seen_by pass.old) key finished }
    ensures pass { GoesOn memo.now pass.old pass.new }
    ensures kept { IfOk result (IsKept (seen_by pass.new) key finished) }
{
    worker.gate.between(worker.number);
    keep(worker.rt, memo, pass, key, finished)
}

/// What the memo answers for a key.
fn look_up<R: Wait>(rt: &R, memo: &Memo, pass: &mut MemoPass, key: Key) -> Answer
    requires own { IsPassOf memo.now pass.old }
    requires key { NamesEntries (seen_by pass.old) key }
    ensures pass { GoesOn memo.now pass.old pass.new }
    ensures found { IsFound (seen_by pass.new) key result }
{
    memo.ask(rt, pass, key)
}

/// The leaf of a sink: looked up, or made and published.
pub(crate) fn build_leaf<R: Wait, G: Gate>(
    worker: &Worker<'_, '_, R, G>,
    memo: &Memo,
    pass: &mut MemoPass,
    sink: &Sink,
) -> Result<Built, NoMemory>
    requires own { IsPassOf memo.now pass.old }
    requires sink { IsSinkInRange sink.now }
    ensures pass { GoesOn memo.now pass.old pass.new }
    ensures built { IfOk result (IsBuiltLeaf (seen_by pass.new) sink.now) }
    ensures keyed { IfOk result (λ leaf. leaf.key ≡ Some (leaf_key sink.now)) }
{
    let key = Key::of_sink(sink);
    let answer = look_up(worker.rt, memo, pass, key);
    if let Answer::Have { number, finished } = answer {
        return Ok(Built {
            key: Some(key),
            number: Some(number),
            finished,
        });
    }
    let finished = leaf(sink);
    let number = publish(worker, memo, pass, key, finished)?;
    Ok(Built {
        key: Some(key),
        number,
        finished,
    })
}

/// The pair of two sides, with the parameters of the memo.
pub(crate) fn merge_sides<L: Ledger>(
    memo: &Memo,
    a: &Finished,
    b: &Finished,
    steps: &mut Steps<L>,
) -> Result<Finished, Beyond>
    requires a { IsMergeable a.now.side }
    requires b { IsMergeable b.now.side }
    ensures merged { IfOk result (λ f. IsMerged (params_of memo.now) a.now.side b.now.side f) }
    ensures beyond { IfErr result (λ _. IsBeyond (params_of memo.now) a.now.side b.now.side) }
    ensures tick { steps.new ≡ steps.old + 1 }
{
    merge(memo.params(), &a.side, &b.side, steps)
}

/// The numbers of a pair and of its two parts among the nodes.
#[derive(Clone, Copy)]
pub(crate) struct PairNumbers {
    pub(crate) node: u32,
    pub(crate) left: u32,
    pub(crate) right: u32,
}

/// A pair whose key is absent: made and published.
fn make_pair<L: Ledger, R: Wait, G: Gate>(
    worker: &Worker<'_, '_, R, G>,
    work: &Work<'_>,
    pass: &mut MemoPass,
    at: PairNumbers,
    a: &Built,
    b: &Built,
    key: Key,
    steps: &mut Steps<L>,
) -> Result<Built, UpEnd>
    requires own { IsPassOf work.now.memo.now pass.old }
    requires ready { IsReady work.now }
    requires here { IsPairAt work.now.nodes.now at.node at.left at.right }
    requires a { IsBuiltAt work.now (seen_by pass.old) at.left a.now }
    requires b { IsBuiltAt work.now (seen_by pass.old) at.right b.now }
    requires key { pair_key a.now.number b.now.number ≡ Some key }
    requires absent { IsAbsent (seen_by pass.old) key }
    ensures pass { GoesOn work.now.memo.now pass.old pass.new }
    ensures built { IfOk result (IsBuiltAt work.now (seen_by pass.new) at.node) }
    ensures keyed { IfOk result (λ pair. pair.key ≡ Some key) }
    ensures ends { IfErr result (EndsAt work.now at.node) }
    ensures merges { steps.new ≤ steps.old + missing_at work.now (seen_by pass.old) at.node }
{
    match merge_sides(work.memo, &a.finished, &b.finished, steps) {
        Ok(finished) => {
            let number = publish(worker, work.memo, pass, key, finished)?;
            Ok(Built {
                key: Some(key),
                number,
                finished,
            })
        }
        Err(Beyond) => Err(UpEnd::Beyond { node: at.node }),
    }
}

/// A pair whose two parts have numbers in the memo: looked up, or made and published.
fn ask_pair<L: Ledger, R: Wait, G: Gate>(
    worker: &Worker<'_, '_, R, G>,
    work: &Work<'_>,
    pass: &mut MemoPass,
    at: PairNumbers,
    a: &Built,
    b: &Built,
    key: Key,
    steps: &mut Steps<L>,
) -> Result<Built, UpEnd>
    requires own { IsPassOf work.now.memo.now pass.old }
    requires ready { IsReady work.now }
    requires here { IsPairAt work.now.nodes.now at.node at.left at.right }
    requires a { IsBuiltAt work.now (seen_by pass.old) at.left a.now }
    requires b { IsBuiltAt work.now (seen_by pass.old) at.right b.now }
    requires key { pair_key a.now.number b.now.number ≡ Some key }
    ensures pass { GoesOn work.now.memo.now pass.old pass.new }
    ensures built { IfOk result (IsBuiltAt work.now (seen_by pass.new) at.node) }
    ensures keyed { IfOk result (λ pair. pair.key ≡ Some key) }
    ensures ends { IfErr result (EndsAt work.now at.node) }
    ensures merges { steps.new ≤ steps.old + missing_at work.now (seen_by pass.old) at.node }
{
    match look_up(worker.rt, work.memo, pass, key) {
        Answer::Have { number, finished } => Ok(Built {
            key: Some(key),
            number: Some(number),
            finished,
        }),
        Answer::Absent => make_pair(worker, work, pass, at, a, b, key, steps),
    }
}

/// The pair at a number, from its two parts. Above a part that has no number in the memo it is made
/// without asking.
pub(crate) fn build_pair<L: Ledger, R: Wait, G: Gate>(
    worker: &Worker<'_, '_, R, G>,
    work: &Work<'_>,
    pass: &mut MemoPass,
    at: PairNumbers,
    a: &Built,
    b: &Built,
    steps: &mut Steps<L>,
) -> Result<Built, UpEnd>
    requires own { IsPassOf work.now.memo.now pass.old }
    requires ready { IsReady work.now }
    requires here { IsPairAt work.now.nodes.now at.node at.left at.right }
    requires a { IsBuiltAt work.now (seen_by pass.old) at.left a.now }
    requires b { IsBuiltAt work.now (seen_by pass.old) at.right b.now }
    ensures pass { GoesOn work.now.memo.now pass.old pass.new }
    ensures built { IfOk result (IsBuiltAt work.now (seen_by pass.new) at.node) }
    ensures keyed { IfOk result (λ pair. pair.key ≡ pair_key a.now.number b.now.number) }
    ensures ends { IfErr result (EndsAt work.now at.node) }
    ensures merges { steps.new ≤ steps.old + missing_at work.now (seen_by pass.old) at.node }
{
    match Key::of_pair(a.number, b.number) {
        Some(key) => ask_pair(worker, work, pass, at, a, b, key, steps),
        None => match merge_sides(work.memo, &a.finished, &b.finished, steps) {
            Ok(finished) => Ok(Built {
                key: None,
                number: None,
                finished,
            }),
            Err(Beyond) => Err(UpEnd::Beyond { node: at.node }),
        },
    }
}
