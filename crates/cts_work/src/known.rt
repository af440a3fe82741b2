//! The nodes that a caller knows of the trees that it built before, and of what others published.

ghost use Rattle.std.specs.Prelude.{◌≡◌, List, Some, All, IfOk, IfErr, false, slice_get};
ghost use mathlib.Core.List.{IsPrefix};
ghost use Rattle.cts_memo.specs.declared.entry.MemoEntry.{MemoEntry};
ghost use Rattle.cts_work.specs.Built.{IsNoted};
ghost use Rattle.cts_work.specs.Known.{IsKnown, picked};

use crate::hints::Hints;
use crate::node::Built;
use cts_num::NoMemory;
use std::alloc::{AllocError, Global};

/// So many nodes are kept beside those of a tree, however small it is.
const SPARE: usize = 1 << 16;

/// Nodes of trees that were built over a memo, and entries of the memo that were heard of since, so that the next tree
/// asks the memo for the others alone.
///
/// They stand in one list, and a tree is a list of places in it: a node that is found again isn't copied. The list
/// grows at its end; once it is far longer than the last tree, the nodes of that tree alone stay in it.
#[derive(Drop)]
pub(crate) struct Known {
    pub(crate) nodes: Vec<Built>,
    pub(crate) hints: Hints,
    /// The number of the first entry that wasn't read yet.
    pub(crate) next: u32,
    /// How many nodes the last tree had.
    pub(crate) count: usize,
}

/// Adds a node at the end of a list of nodes, and tells its place.
pub(crate) fn add(nodes: &mut Vec<Built>, node: Built) -> Result<u32, NoMemory>
    ensures more { IsPrefix nodes.old.items nodes.new.items }
    ensures noted { (seen : List MemoEntry) → All (IsNoted seen) nodes.old.items → IsNoted seen node → All (IsNoted seen) nodes.new.items }
    ensures added { IfOk result (λ place. slice_get nodes.new.items place ≡ Some node) }
{
    let Ok(place) = u32::try_from(nodes.len()) else {
        return Err(NoMemory);
    };
    nodes.push(node)?;
    Ok(place)
}

/// The nodes at some places of a list, in the order of these places.
pub(crate) fn nodes_at(
    alloc: Global,
    nodes: &[Built],
    places: &[u32],
) -> Result<Vec<Built>, AllocError>
    ensures { IfOk result (λ own. own.items ≡ picked nodes.now places.now) }
{
    let mut own = Vec::with_capacity(alloc, places.len())?;
    for place in places {
        let Some(node) = nodes.get(*place as usize) else {
            continue;
        };
        own.push(*node)?;
    }
    Ok(own)
}

/// Puts other nodes in the place of those of a list, which keeps its room.
fn refill(nodes: &mut Vec<Built>, others: Vec<Built>)
    ensures { nodes.new.items ≡ others.items }
{
    nodes.clear();
    if nodes.extend_from_slice(&others).is_err() {
        *nodes = others;
    }
}

impl Known {
    /// Nothing.
    pub(crate) fn nothing(alloc: Global) -> Known
        ensures { (seen : List MemoEntry) → IsKnown seen result }
    {
        Known {
            nodes: Vec::new(alloc),
            hints: Hints::none(alloc),
            next: 0,
            count: 0,
        }
    }

    /// The most nodes that are kept beside each other.
    pub(crate) fn most(&self) -> usize {
        self.count.saturating_mul(2).saturating_add(SPARE)
    }

    /// Whether more nodes are known than are kept, or no tree was built yet.
    pub(crate) fn is_too_much(&self) -> bool {
        self.hints.cells.is_empty() || self.nodes.len() > self.most()
    }

    /// Makes room for all nodes that are kept beside each other, or for eight times those of the last tree where that is
    /// less, so that the list stays where it is while it grows. Where the room can't be had the list grows as it comes.
    fn make_room(&mut self)
        ensures rest { self.new ≡ record self.old { nodes = self.new.nodes } }
        ensures nodes { self.new.nodes.items ≡ self.old.nodes.items }
    {
        let room = self.most().min(self.count.saturating_mul(8));
        let more = room.saturating_sub(self.nodes.len());
        let _reserved = self.nodes.reserve(more);
    }

    /// Forgets all nodes but those of a tree, which stand at these places, where they are far fewer than all, and tells
    /// whether it did.
    fn tidy(&mut self, alloc: Global, tree: &[u32]) -> Result<bool, AllocError>
        ensures known { (seen : List MemoEntry) → IsKnown seen self.old → IsKnown seen self.new }
        ensures same { IfOk result (λ tidied. tidied ≡ false → self.new.nodes.items ≡ self.old.nodes.items) }
        ensures unchanged { IfErr result (λ _. self.new.nodes.items ≡ self.old.nodes.items) }
    {
        let count = tree.len();
        let enough = count.saturating_add(count / 2).saturating_add(SPARE / 2);
        if self.nodes.len() <= enough {
            return Ok(false);
        }
        let own = nodes_at(alloc, &self.nodes, tree)?;
        refill(&mut self.nodes, own);
        self.hints.noted = 0;
        Ok(true)
    }

    /// Ends a tree, whose nodes stand at these places, and tells whether they don't stand there any more. After a first
    /// tree what was published behind its root is still to be heard.
    pub(crate) fn close_tree(&mut self, alloc: Global, tree: &[u32]) -> bool
        ensures known { (seen : List MemoEntry) → IsKnown seen self.old → IsKnown seen self.new }
        ensures same { result ≡ false → self.new.nodes.items ≡ self.old.nodes.items }
    {
        if self.hints.cells.is_empty() {
            let root = self.nodes.last().and_then(|root| root.number);
            self.next = root.unwrap_or(u32::MAX).saturating_add(1);
        }
        self.count = tree.len();
        let moved = self.tidy(alloc, tree).unwrap_or(false);
        self.make_room();
        if self.hints.make_room(alloc, tree.len()).is_ok() {
            self.hints.note(&self.nodes);
        }
        moved
    }
}
