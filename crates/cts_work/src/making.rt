//! The nodes of a part, made without the memo.

ghost use Rattle.std.specs.Prelude.{◌≡◌, ◌+◌, ◌<◌, length, IfOk, IfErr};
ghost use Rattle.cts_work.specs.Plans.{made_of};
ghost use Rattle.cts_work.specs.Work.{AreMade, EndsAt, EndsIn, IsMadeAt, IsPart, IsReady, StartsFrom};

use crate::node::merge_sides;
use crate::plan::PlanPart;
use crate::work::Work;
use cts_merge::{Beyond, Finished, Steps, leaf};
use cts_topo::ShapeNode;
use cts_up::UpEnd;
use std::alloc::Global;
use std::sync::ledger::Ledger;

/// The most pairs between a piece and the next one, since there are at most 256 pieces.
const PAIRS_ABOVE: usize = 8;

/// The nodes that are made: those of parts that are done, and then those of one that isn't.
#[derive(Clone, Copy)]
pub(crate) struct Made<'a> {
    pub(crate) parts: &'a [PlanPart],
    pub(crate) part: &'a [Finished],
}

impl Made<'_> {
    ghost use Rattle.std.specs.Prelude.{slice_index_or};
    ghost use Rattle.cts_merge.specs.declared.side.Finished.{Finished};

    /// The node at a place among them.
    fn at(&self, place: usize) -> &Finished
        requires { place < length (made_of self.now) }
        ensures { (d : Finished) → result.now ≡ slice_index_or (made_of self.now) place d }
    {
        let mut rest = place;
        for part in self.parts {
            match part.nodes.get(rest) {
                Some(finished) => return finished,
                None => rest -= part.nodes.len(),
            }
        }
        &self.part[rest]
    }
}

/// What the node of a number is, by what those before it are, from `first` on.
pub(crate) fn make_node<L: Ledger>(
    work: &Work<'_>,
    first: u32,
    node: u32,
    before: Made<'_>,
    steps: &mut Steps<L>,
) -> Result<Finished, UpEnd>
    requires ready { IsReady work.now }
    requires node { node < length work.now.nodes.now }
    requires starts { StartsFrom work.now.nodes.now first node }
    requires long { first + length (made_of before) ≡ node }
    requires before { AreMade work.now first (made_of before) }
    ensures made { IfOk result (IsMadeAt work.now node) }
    ensures ends { IfErr result (EndsAt work.now node) }
{
    match work.nodes[node as usize] {
        ShapeNode::Leaf { sink } => Ok(leaf(&work.sinks[sink as usize])),
        ShapeNode::Pair { left, right } => {
            let a = before.at((left - first) as usize);
            let b = before.at((right - first) as usize);
            match merge_sides(work.memo, a, b, steps) {
                Ok(finished) => Ok(finished),
                Err(Beyond) => Err(UpEnd::Beyond { node }),
            }
        }
    }
}

/// What the nodes of a part are, from its first to its root, with room for the pairs above it.
pub(crate) fn make_part<L: Ledger>(
    work: &Work<'_>,
    alloc: Global,
    first: u32,
    root: u32,
    steps: &mut Steps<L>,
) -> Result<Vec<Finished>, UpEnd>
    requires ready { IsReady work.now }
    requires part { IsPart work.now.nodes.now first root }
    ensures long { IfOk result (λ made. first + length made.items ≡ root + 1) }
    ensures made { IfOk result (λ made. AreMade work.now first made.items) }
    ensures ends { IfErr result (EndsIn work.now first root) }
{
    let mut made = Vec::with_capacity(alloc, (root - first) as usize + 1 + PAIRS_ABOVE)?;
    for node in first..root + 1 {
        let part = made.as_slice();
        match make_node(work, first, node, Made { parts: &[], part }, steps) {
            Ok(next) => made.push(next)?,
            Err(end) => return Err(end),
        }
    }
    Ok(made)
}
