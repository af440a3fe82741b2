//! The upward pass of one caller over the memo.

ghost use Rattle.std.specs.Prelude.{◌≡◌, ◌+◌, ◌<◌, ◌≤◌, ◌⊎◌, All, map, length, IfOk, IfErr, OnOk, true};
ghost use mathlib.Core.List.{IsPrefix};
ghost use Rattle.cts_topo.specs.Shape.{IsShapeOver};
ghost use Rattle.cts_up.specs.Ends.{Ends};
ghost use Rattle.cts_up.specs.Plan.{IsPlan};
ghost use Rattle.cts_up.specs.Sinks.{AreSinksInRange};
ghost use Rattle.cts_up.specs.Sites.{AreSites};
ghost use Rattle.cts_turn.specs.Passes.{seen_by, share_of};
ghost use Rattle.cts_memo.specs.Numbers.{AreKnown, missing};
ghost use Rattle.cts_memo.specs.Passes.{IsPassOf, params_of};
ghost use Rattle.cts_memo.specs.Sound.{max_entries};
ghost use Rattle.cts_work.specs.Built.{GoesOn, IsNoted};
ghost use Rattle.cts_work.specs.Known.{picked, sites_of};
ghost use Rattle.cts_work.specs.Last.{AreKeyed, IsPast, MayStandIn};

use crate::gate::Gate;
use crate::known::{Known, nodes_at};
use crate::last::LastTree;
use crate::node::Built;
use crate::part::{PlacedTree, build_part};
use crate::past::Past;
use crate::work::{Work, Worker};
use cts_memo::{Memo, MemoPass};
use cts_merge::{Finished, Steps};
use cts_topo::Shape;
use cts_units::Sink;
use cts_up::UpEnd;
use std::alloc::{AllocError, Global};
use std::sync::Wait;
use std::sync::ledger::Ledger;

/// What nodes are made of.
fn finished_of(alloc: Global, built: &[Built]) -> Result<Vec<Finished>, AllocError>
    ensures { IfOk result (λ plan. plan.items ≡ map (λ node. node.finished) built.now) }
{
    built.iter().map(|node| node.finished).collect(alloc)
}

/// The nodes of a shape over sinks, built by one caller over the memo. The memo is asked only for the nodes that aren't
/// known, which are put behind those that are; those that the last tree has too aren't even looked for.
fn build_over<L: Ledger, R: Wait, G: Gate>(
    rt: &R,
    alloc: Global,
    memo: &Memo,
    pass: &mut MemoPass,
    gate: &G,
    number: u32,
    sinks: &[Sink],
    shape: &Shape,
    last: &LastTree,
    known: &mut Known,
    steps: &mut Steps<L>,
) -> Result<PlacedTree, UpEnd>
    requires own { IsPassOf memo.now pass.old }
    requires sinks { AreSinksInRange sinks.now }
    requires shape { IsShapeOver (length sinks.now) shape.now }
    requires last { MayStandIn known.old.nodes.items last.now }
    requires noted { All (IsNoted (seen_by pass.old)) known.old.nodes.items }
    ensures pass { GoesOn memo.now pass.old pass.new }
    ensures noted { All (IsNoted (seen_by pass.new)) known.new.nodes.items }
    ensures last { MayStandIn known.new.nodes.items last.now }
    ensures within { IfOk result (λ tree. All (λ p. p < length known.new.nodes.items) tree.places.items) }
    ensures long { IfOk result (λ tree. length tree.places.items ≡ length shape.now) }
    ensures plan { IfOk result (λ tree. IsPlan (params_of memo.now) sinks.now shape.now (map (λ node. node.finished) (picked known.new.nodes.items tree.places.items))) }
    ensures keyed { IfOk result (λ tree. tree.numbered ≡ true → AreKeyed sinks.now shape.now (picked known.new.nodes.items tree.places.items)) }
    ensures sites { IfOk result (λ tree. tree.sites.items ≡ sites_of (picked known.new.nodes.items tree.places.items)) }
    ensures ends { IfErr result (Ends (params_of memo.now) sinks.now shape.now) }
    ensures known { OnOk result ((length (seen_by pass.new) ≡ max_entries) ⊎ AreKnown (seen_by pass.new) sinks.now shape.now) }
    ensures merges { steps.new ≤ steps.old + missing (seen_by pass.old) sinks.now shape.now }
{
    let nodes = shape.nodes();
    let leaves = last.same_leaves(alloc, sinks)?;
    let same = leaves.as_slice();
    let work = Work { memo, sinks, nodes };
    let worker = Worker {
        rt,
        gate,
        number,
        last,
        leaves: same,
    };
    let root = nodes.len() as u32 - 1;
    match build_part(&worker, &work, alloc, pass, root, known, steps) {
        Ok(tree) => Ok(tree),
        Err(end) => Err(end),
    }
}

/// Makes the plan of a shape over sinks, which is that of [`rebuild`]; its sites are [`Past::sites`] afterwards. Where a
/// tree was built before, its nodes that stayed are taken over. Then the entries that came to the memo since are read
/// first, many in one call, and the memo is asked only for the nodes that are neither known of earlier trees nor among
/// these entries.
///
/// Where there is no plan what was known before stays, unless it is more than is kept.
pub fn rebuild_with<L: Ledger, R: Wait, G: Gate>(
    rt: &R,
    alloc: Global,
    memo: &Memo,
    pass: &mut MemoPass,
    gate: &G,
    number: u32,
    sinks: &[Sink],
    shape: &Shape,
    past: &mut Past,
    steps: &mut Steps<L>,
) -> Result<(), UpEnd>
    requires own { IsPassOf memo.now pass.old }
    requires sinks { AreSinksInRange sinks.now }
    requires shape { IsShapeOver (length sinks.now) shape.now }
    requires kept { IsPast (seen_by pass.old) past.old }
    ensures own { IsPassOf memo.now pass.new }
    ensures share { share_of pass.new ≡ share_of pass.old }
    ensures goes_on { IsPrefix (seen_by pass.old) (seen_by pass.new) }
    ensures sites { OnOk result (AreSites (params_of memo.now) sinks.now shape.now past.new.last.sites.items) }
    ensures ends { IfErr result (Ends (params_of memo.now) sinks.now shape.now) }
    ensures known { OnOk result ((length (seen_by pass.new) ≡ max_entries) ⊎ AreKnown (seen_by pass.new) sinks.now shape.now) }
    ensures kept { IsPast (seen_by pass.new) past.new }
    ensures merges { steps.new ≤ steps.old + missing (seen_by pass.old) sinks.now shape.now }
{
    past.known.listen(rt, alloc, memo, pass);
    match build_over(
        rt,
        alloc,
        memo,
        pass,
        gate,
        number,
        sinks,
        shape,
        &past.last,
        &mut past.known,
        steps,
    ) {
        Ok(tree) => {
            let nodes = shape.nodes();
            past.keep_tree(alloc, sinks, nodes, tree.places, tree.sites, tree.numbered);
            Ok(())
        }
        Err(end) => {
            past.keep_no_tree(alloc);
            Err(end)
        }
    }
}

/// The plan of a shape over sinks, as the upward pass gives it with the memo's parameters, whatever the
/// memo holds and whoever shares it.
///
/// Each node's key is looked up; where it is absent the node is made and published, and the gate is
/// called with the number in between. Above a node that the memo had no room for it is made without
/// asking. `Beyond` is exactly that of the upward pass, and `NoMemory` comes where an allocation fails.
/// No turn is held while a node is made.
pub fn rebuild<L: Ledger, R: Wait, G: Gate>(
    rt: &R,
    alloc: Global,
    memo: &Memo,
    pass: &mut MemoPass,
    gate: &G,
    number: u32,
    sinks: &[Sink],
    shape: &Shape,
    steps: &mut Steps<L>,
) -> Result<Vec<Finished>, UpEnd>
    requires own { IsPassOf memo.now pass.old }
    requires sinks { AreSinksInRange sinks.now }
    requires shape { IsShapeOver (length sinks.now) shape.now }
    ensures own { IsPassOf memo.now pass.new }
    ensures share { share_of pass.new ≡ share_of pass.old }
    ensures goes_on { IsPrefix (seen_by pass.old) (seen_by pass.new) }
    ensures plan { IfOk result (λ plan. IsPlan (params_of memo.now) sinks.now shape.now plan.items) }
    ensures ends { IfErr result (Ends (params_of memo.now) sinks.now shape.now) }
    ensures known { OnOk result ((length (seen_by pass.new) ≡ max_entries) ⊎ AreKnown (seen_by pass.new) sinks.now shape.now) }
    ensures merges { steps.new ≤ steps.old + missing (seen_by pass.old) sinks.now shape.now }
{
    let last = LastTree::none(alloc);
    let mut known = Known::nothing(alloc);
    match build_over(
        rt, alloc, memo, pass, gate, number, sinks, shape, &last, &mut known, steps,
    ) {
        Ok(tree) => Ok(finished_of(alloc, &nodes_at(alloc, &known.nodes, &tree.places)?)?),
        Err(end) => Err(end),
    }
}
