//! The ascent over the nodes of a shape, or of a stretch of one, which keeps of them only what the pairs above
//! them need.

ghost use Rattle.std.specs.Prelude.{◌≡◌, ℕ, ◌+◌, ◌<◌, ◌++◌, ◌∷◌, [], take, length, map, slice_get, All, Some, IfSome, IfOk, IfErr};
ghost use Rattle.cts_units.specs.declared.params.Params.{Params};
ghost use Rattle.cts_units.specs.Limits.{IsParams};
ghost use Rattle.cts_postorder.specs.PostOrder.{trees_of};
ghost use Rattle.cts_postorder.specs.Waiting.{StandsAt};
ghost use Rattle.cts_topo.specs.Shape.{IsStretchOver, children_from, leaf_sinks};
ghost use Rattle.cts_up.specs.Ascending.{IsAscent};
ghost use Rattle.cts_up.specs.Plan.{IsBeyondPair, IsFinished};
ghost use Rattle.cts_up.specs.Sinks.{AreSinksInRange};

use cts_merge::{Beyond, Finished, Side, Steps, leaf, merge};
use cts_num::NoMemory;
use cts_topo::ShapeNode;
use cts_units::{Params, Sink};
use std::alloc::Global;
use std::sync::ledger::Ledger;

/// The sinks in the order of the leaves that name them. They are looked up before the pass, since each look-up
/// goes far in memory, and a merge that waits for one takes far longer.
fn sinks_of_leaves(
    alloc: Global,
    sinks: &[Sink],
    nodes: &[ShapeNode],
) -> Result<Vec<Sink>, NoMemory>
    requires within { All (λ sink. sink < length sinks.now) (leaf_sinks nodes.now) }
    ensures { IfOk result (λ named. map Some named.items ≡ map (slice_get sinks.now) (leaf_sinks nodes.now)) }
{
    // There is one leaf more than pairs.
    let mut named = Vec::with_capacity(alloc, nodes.len() / 2 + 1)?;
    for node in nodes {
        match *node {
            ShapeNode::Leaf { sink } => named.push(sinks[sink as usize])?,
            ShapeNode::Pair { .. } => {}
        }
    }
    Ok(named)
}

/// How far a pass upward has come.
#[derive(Drop)]
pub(crate) struct Ascent {
    /// The sinks in the order of the leaves that name them.
    named: Vec<Sink>,
    /// How many leaves it has passed.
    leaves: usize,
    /// The sides of the nodes that wait for the pair above them, the latest last.
    pub(crate) waiting: Vec<Side>,
}

impl Ascent {
    /// An ascent that stands before the first node.
    pub(crate) fn begin(
        alloc: Global,
        sinks: &[Sink],
        nodes: &[ShapeNode],
    ) -> Result<Ascent, NoMemory>
        requires within { All (λ sink. sink < length sinks.now) (leaf_sinks nodes.now) }
        ensures { IfOk result (λ ascent. (params : Params) (first : ℕ) → IsStretchOver (length sinks.now) first nodes.now
            → IsAscent params sinks.now first nodes.now 0 ascent.named.items ascent.leaves ascent.waiting.items) }
    {
        Ok(Ascent {
            named: sinks_of_leaves(alloc, sinks, nodes)?,
            leaves: 0,
            waiting: Vec::new(alloc),
        })
    }

    /// What the node of this number in the stretch is made of. Its parts no longer wait, and its own side is
    /// to. It is the same whatever number the stretch's first node has in the shape.
    pub(crate) fn finish<L: Ledger>(
        &mut self,
        params: &Params,
        sinks: &[Sink],
        nodes: &[ShapeNode],
        number: usize,
        steps: &mut Steps<L>,
    ) -> Result<Finished, Beyond>
        requires params { IsParams params.now }
        requires sinks { AreSinksInRange sinks.now }
        requires number { number < length nodes.now }
        requires before { (first : ℕ) × IsAscent params.now sinks.now first nodes.now number
            self.old.named.items self.old.leaves self.old.waiting.items }
        ensures here { IfOk result (λ f. (first : ℕ) → IsAscent params.now sinks.now first nodes.now number
            self.old.named.items self.old.leaves self.old.waiting.items
            → StandsAt (children_from first) nodes.now (IsFinished params.now sinks.now) number f) }
        ensures beyond { IfErr result (λ _. (first : ℕ) → IsAscent params.now sinks.now first nodes.now number
            self.old.named.items self.old.leaves self.old.waiting.items
            → IfSome (slice_get (trees_of (children_from first) nodes.now) number) (IsBeyondPair params.now sinks.now)) }
        ensures after { IfOk result (λ f. (first : ℕ) → IsAscent params.now sinks.now first nodes.now number
            self.old.named.items self.old.leaves self.old.waiting.items
            → IsAscent params.now sinks.now first nodes.now (number + 1)
            self.new.named.items self.new.leaves (self.new.waiting.items ++ f.side ∷ [])) }
        ensures merges { steps.new + length (leaf_sinks (take (number + 1) nodes.now))
            ≡ steps.old + length (leaf_sinks (take number nodes.now)) + 1 }
    {
        match nodes[number] {
            ShapeNode::Leaf { .. } => {
                let finished = leaf(&self.named[self.leaves]);
                self.leaves += 1;
                Ok(finished)
            }
            ShapeNode::Pair { .. } => {
                let rest = self.waiting.len() - 2;
                let (a, b) = (&self.waiting[rest], &self.waiting[rest + 1]);
                let merged = merge(params, a, b, steps);
                self.waiting.truncate(rest);
                merged
            }
        }
    }
}
