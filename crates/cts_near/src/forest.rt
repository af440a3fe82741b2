//! The parts that are left, and the joins that made them.

ghost use Rattle.std.specs.Prelude.{◌≡◌, ◌+◌, ◌<◌, ◌≤◌, All, length, remove, slice_set, IfErr, IfOk, OnOk};
ghost use Rattle.std.specs.List.Sorted.{IsNonDecreasingBy, IsPermutation};
ghost use Rattle.cts_units.specs.Ids.{HasDistinctIds};
ghost use Rattle.cts_units.specs.declared.params.Params.{Params};
ghost use Rattle.cts_units.specs.declared.params.Sink.{Sink};
ghost use Rattle.cts_units.specs.Limits.{IsParams};
ghost use Rattle.cts_up.specs.Sinks.{AreSinksInRange, IsSinkInRange};
ghost use Rattle.cts_merge.specs.Side.{IsMergeable};
ghost use Rattle.cts_near.specs.Ends.{StepEnds};
ghost use Rattle.cts_near.specs.declared.subtree.Subtree.{Subtree};
ghost use Rattle.cts_near.specs.Forest.{AreLeafSubtrees, IsBegun, IsForest, IsLeafSubtree, IsStep, leaves, parts_of};
ghost use Rattle.cts_near.specs.Search.{AreBounds};

use crate::end::NearEnd;
use crate::search::{bounds_of, closest, renew};
use crate::subtree::Subtree;
use cts_merge::{Steps, leaf, merge};
use cts_num::NoMemory;
use cts_topo::ShapeNode;
use cts_units::{Params, Sink};
use std::alloc::Global;
use std::sync::ledger::Ledger;

/// The leaves of so many sinks, in their order.
fn leaves_of(alloc: Global, count: usize) -> Result<Vec<ShapeNode>, NoMemory>
    requires { count ≤ 65536 }
    ensures { IfOk result (λ joins. joins.items ≡ leaves count) }
{
    let mut joins = Vec::with_capacity(alloc, 2 * count)?;
    for place in 0..count {
        joins.push(ShapeNode::Leaf { sink: place as u32 })?;
    }
    Ok(joins)
}

/// The subtree of a sink, which stands at this place of the list of sinks.
fn leaf_subtree(sink: &Sink, place: usize) -> Subtree
    requires sink { IsSinkInRange sink.now }
    requires place { place ≤ 65536 }
    ensures leaf { IsLeafSubtree sink.now place result }
    ensures in_range { IsMergeable result.side }
{
    Subtree {
        name: sink.id,
        node: place as u32,
        side: leaf(sink).side,
    }
}

/// The subtrees of the sinks, in their order.
fn leaf_subtrees(alloc: Global, sinks: &[Sink]) -> Result<Vec<Subtree>, NoMemory>
    requires { AreSinksInRange sinks.now }
    ensures leaves { IfOk result (λ subtrees. AreLeafSubtrees sinks.now (length sinks.now) subtrees.items) }
    ensures in_range { IfOk result (λ subtrees. All (λ (s : Subtree). IsMergeable s.side) subtrees.items) }
{
    let mut subtrees = Vec::with_capacity(alloc, sinks.len())?;
    for (place, sink) in sinks.iter().enumerate() {
        subtrees.push(leaf_subtree(sink, place))?;
    }
    Ok(subtrees)
}

/// Sorts subtrees by their names.
fn sort_by_name(subtrees: &mut Vec<Subtree>)
    ensures permutation { IsPermutation subtrees.old.items subtrees.new.items }
    ensures sorted { IsNonDecreasingBy (λ (s : Subtree). s.name) subtrees.new.items }
{
    subtrees.sort_unstable_by_key(|subtree| subtree.name);
}

/// The parts that are left, and the joins that made them.
#[derive(Drop)]
pub(crate) struct Forest {
    /// A leaf for each sink, in their order, and then each pair in the order in which they were made.
    pub(crate) joins: Vec<ShapeNode>,
    /// The parts that are still to be joined, by rising names.
    pub(crate) subtrees: Vec<Subtree>,
    /// For each of them a number of nm that is at most its gap to every later one.
    pub(crate) bounds: Vec<u64>,
}

impl Forest {
    /// The parts over the sinks, before any join.
    pub(crate) fn begin(alloc: Global, sinks: &[Sink]) -> Result<Forest, NoMemory>
        requires sinks { AreSinksInRange sinks.now }
        requires distinct { HasDistinctIds (λ (s : Sink). s.id) sinks.now }
        ensures forest { IfOk result (λ forest. (params : Params) → IsForest params sinks.now forest.joins.items
            forest.subtrees.items forest.bounds.items) }
        ensures begun { IfOk result (λ forest. IsBegun sinks.now (parts_of forest.joins.items forest.subtrees.items)) }
        ensures count { IfOk result (λ forest. length forest.subtrees.items ≡ length sinks.now) }
    {
        let joins = leaves_of(alloc, sinks.len())?;
        let mut subtrees = leaf_subtrees(alloc, sinks)?;
        sort_by_name(&mut subtrees);
        let bounds = bounds_of(alloc, subtrees.as_slice())?;
        Ok(Forest {
            joins,
            subtrees,
            bounds,
        })
    }

    /// Joins the closest two parts: the pair of both takes the place of the first, whose name it has, since that is the
    /// lesser one. `Beyond` names this step where the pair is over the limits.
    pub(crate) fn join_closest<L: Ledger>(
        &mut self,
        params: &Params,
        sinks: &[Sink],
        step: u32,
        steps: &mut Steps<L>,
    ) -> Result<(), NearEnd>
        requires params { IsParams params.now }
        requires sinks { AreSinksInRange sinks.now }
        requires some { 2 ≤ length self.old.subtrees.items }
        requires forest { IsForest params.now sinks.now self.old.joins.items self.old.subtrees.items self.old.bounds.items }
        ensures forest { OnOk result (IsForest params.now sinks.now self.new.joins.items self.new.subtrees.items
            self.new.bounds.items) }
        ensures joins { OnOk result (IsStep params.now (parts_of self.old.joins.items self.old.subtrees.items)
            (parts_of self.new.joins.items self.new.subtrees.items)) }
        ensures count { OnOk result (length self.new.subtrees.items + 1 ≡ length self.old.subtrees.items) }
        ensures ends { IfErr result (StepEnds params.now (parts_of self.old.joins.items self.old.subtrees.items) step) }
    {
        let (first, second) = closest(self.subtrees.as_slice(), self.bounds.as_mut_slice());
        let (a, b) = (self.subtrees[first], self.subtrees[second]);
        let Ok(pair) = merge(params, &a.side, &b.side, steps) else {
            return Err(NearEnd::Beyond { step });
        };
        let joined = Subtree {
            name: a.name,
            node: self.joins.len() as u32,
            side: pair.side,
        };
        self.joins.push(ShapeNode::Pair {
            left: a.node,
            right: b.node,
        })?;
        self.replace(first, second, joined);
        Ok(())
    }

    /// Puts a pair in the place of the first of the two that it joins, and closes up behind the second.
    fn replace(&mut self, first: usize, second: usize, joined: Subtree)
        requires in_order { first < second }
        requires within { second < length self.old.subtrees.items }
        requires in_range { All (λ s. IsMergeable s.side) self.old.subtrees.items }
        requires joined { IsMergeable joined.side }
        requires bounded { AreBounds self.old.subtrees.items self.old.bounds.items }
        ensures joins { self.new.joins.items ≡ self.old.joins.items }
        ensures subtrees { self.new.subtrees.items ≡ remove (slice_set self.old.subtrees.items first joined) second }
        ensures bounded { AreBounds self.new.subtrees.items self.new.bounds.items }
    {
        self.subtrees[first] = joined;
        self.subtrees.remove(second);
        self.bounds.remove(second);
        renew(self.subtrees.as_slice(), self.bounds.as_mut_slice(), first);
    }
}
