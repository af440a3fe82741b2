//! The nodes of a shape, one after another.

ghost use Rattle.std.specs.Prelude.{◌≡◌, ◌+◌, ◌<◌, ◌≤◌, All, length, IfOk, IfErr, true};
ghost use mathlib.Core.List.{IsPrefix};
ghost use Rattle.cts_turn.specs.Passes.{seen_by};
ghost use Rattle.cts_memo.specs.Passes.{IsPassOf};
ghost use Rattle.cts_work.specs.Built.{GoesOn, IsNoted};
ghost use Rattle.cts_work.specs.Known.{IsAtPlace, StandAt, picked, sites_of};
ghost use Rattle.cts_work.specs.Last.{AreFound, AreKeyed, AreSameLeaves, IsKeyAt, IsTakenOver, MayStandIn};
ghost use Rattle.cts_work.specs.Work.{AreBuilt, EndsAt, EndsIn, IsBuiltAt, IsPart, IsReady, missing_at, missing_from};

use crate::again::{Placed, all_numbered, node_again, site_at};
use crate::gate::Gate;
use crate::known::Known;
use crate::node::PairNumbers;
use crate::place::{place_leaf, place_pair};
use crate::work::{Work, Worker};
use cts_memo::MemoPass;
use cts_merge::Steps;
use cts_num::NoMemory;
use cts_topo::ShapeNode;
use cts_up::{Site, UpEnd};
use std::alloc::Global;
use std::sync::Wait;
use std::sync::ledger::Ledger;

/// A tree whose nodes are done with.
#[derive(Drop)]
pub(crate) struct PlacedTree {
    /// The places of its nodes among those that are known.
    pub(crate) places: Vec<u32>,
    /// The sites of its nodes.
    pub(crate) sites: Vec<Site>,
    /// Whether each of its nodes has a number in the memo.
    pub(crate) numbered: bool,
}

/// The node of a number, by the places of those before it and by their numbers in the last tree: taken over from there,
/// or at the place where it is known, or built and put behind those that are known. Where others published much
/// meanwhile, that is heard first.
pub(crate) fn place_node<L: Ledger, R: Wait, G: Gate>(
    worker: &Worker<'_, '_, R, G>,
    work: &Work<'_>,
    alloc: Global,
    pass: &mut MemoPass,
    node: u32,
    tree: &[u32],
    found: &[Option<u32>],
    known: &mut Known,
    cursor: &mut u32,
    steps: &mut Steps<L>,
) -> Result<Placed, UpEnd>
    requires own { IsPassOf work.now.memo.now pass.old }
    requires ready { IsReady work.now }
    requires leaves { AreSameLeaves worker.now.last.now work.now.sinks.now worker.now.leaves.now }
    requires node { node < length work.now.nodes.now }
    requires long { length tree.now ≡ node }
    requires before { StandAt known.old.nodes.items tree.now (AreBuilt work.now (seen_by pass.old) 0) }
    requires found { AreFound worker.now.last.now.places.items tree.now found.now }
    requires last { MayStandIn known.old.nodes.items worker.now.last.now }
    requires noted { All (IsNoted (seen_by pass.old)) known.old.nodes.items }
    ensures pass { GoesOn work.now.memo.now pass.old pass.new }
    ensures more { IsPrefix known.old.nodes.items known.new.nodes.items }
    ensures noted { All (IsNoted (seen_by pass.new)) known.new.nodes.items }
    ensures built { IfOk result (λ placed. IsAtPlace known.new.nodes.items (IsBuiltAt work.now (seen_by pass.new) node) placed.place) }
    ensures keyed { IfOk result (λ placed. IsAtPlace known.new.nodes.items (IsKeyAt work.now (picked known.new.nodes.items tree.now) node) placed.place) }
    ensures again { IfOk result (IsTakenOver worker.now.last.now known.new.nodes.items) }
    ensures ends { IfErr result (EndsAt work.now node) }
    ensures merges { steps.new ≤ steps.old + missing_at work.now (seen_by pass.old) node }
{
    let last = worker.last;
    if let Some(placed) = node_again(last, worker.leaves, work.nodes[node as usize], found) {
        return Ok(placed);
    }
    known.catch_up(worker.rt, alloc, work.memo, pass);
    let hints = &known.hints;
    match work.nodes[node as usize] {
        ShapeNode::Leaf { sink } => {
            let sink = &work.sinks[sink as usize];
            match place_leaf(
                worker,
                hints,
                work.memo,
                pass,
                sink,
                &mut known.nodes,
                cursor,
            ) {
                Ok(place) => Ok(Placed { place, again: None }),
                Err(NoMemory) => Err(UpEnd::NoMemory),
            }
        }
        ShapeNode::Pair { left, right } => {
            let a = tree[left as usize];
            let b = tree[right as usize];
            let at = PairNumbers { node, left, right };
            match place_pair(
                worker,
                hints,
                work,
                pass,
                at,
                a,
                b,
                &mut known.nodes,
                cursor,
                steps,
            ) {
                Ok(place) => Ok(Placed { place, again: None }),
                Err(end) => Err(end),
            }
        }
    }
}

/// The nodes from the first to the root. Each site is listed here, where its node is near at hand.
pub(crate) fn build_part<L: Ledger, R: Wait, G: Gate>(
    worker: &Worker<'_, '_, R, G>,
    work: &Work<'_>,
    alloc: Global,
    pass: &mut MemoPass,
    root: u32,
    known: &mut Known,
    steps: &mut Steps<L>,
) -> Result<PlacedTree, UpEnd>
    requires own { IsPassOf work.now.memo.now pass.old }
    requires ready { IsReady work.now }
    requires leaves { AreSameLeaves worker.now.last.now work.now.sinks.now worker.now.leaves.now }
    requires part { IsPart work.now.nodes.now 0 root }
    requires last { MayStandIn known.old.nodes.items worker.now.last.now }
    requires noted { All (IsNoted (seen_by pass.old)) known.old.nodes.items }
    ensures pass { GoesOn work.now.memo.now pass.old pass.new }
    ensures noted { All (IsNoted (seen_by pass.new)) known.new.nodes.items }
    ensures last { MayStandIn known.new.nodes.items worker.now.last.now }
    ensures long { IfOk result (λ tree. length tree.places.items ≡ root + 1) }
    ensures built { IfOk result (λ tree. StandAt known.new.nodes.items tree.places.items (AreBuilt work.now (seen_by pass.new) 0)) }
    ensures keyed { IfOk result (λ tree. tree.numbered ≡ true → AreKeyed work.now.sinks.now work.now.nodes.now (picked known.new.nodes.items tree.places.items)) }
    ensures sites { IfOk result (λ tree. tree.sites.items ≡ sites_of (picked known.new.nodes.items tree.places.items)) }
    ensures ends { IfErr result (EndsIn work.now 0 root) }
    ensures merges { steps.new ≤ steps.old + missing_from work.now (seen_by pass.old) 0 (root + 1) }
{
    let count = root as usize + 1;
    let mut places = Vec::with_capacity(alloc, count)?;
    let mut sites = Vec::with_capacity(alloc, count)?;
    let mut found = Vec::with_capacity(alloc, count)?;
    let mut numbered = true;
    let mut cursor = 0;
    for node in 0..root + 1 {
        let before = places.as_slice();
        let numbers = found.as_slice();
        match place_node(
            worker,
            work,
            alloc,
            pass,
            node,
            before,
            numbers,
            known,
            &mut cursor,
            steps,
        ) {
            Ok(placed) => {
                let now = known.nodes.as_slice();
                numbered = all_numbered(numbered, now, placed);
                let site = site_at(worker.last, now, placed);
                places.push(placed.place)?;
                sites.push(site)?;
                found.push(placed.again)?;
            }
            Err(end) => return Err(end),
        }
    }
    Ok(PlacedTree {
        places,
        sites,
        numbered,
    })
}
