//! What a caller keeps of its trees from one to the next.

ghost use Rattle.std.specs.Prelude.{◌≡◌, ◌<◌, List, length, All, true};
ghost use Rattle.cts_memo.specs.declared.entry.MemoEntry.{MemoEntry};
ghost use Rattle.cts_work.specs.Known.{IsKnown, picked, sites_of};
ghost use Rattle.cts_work.specs.Last.{AreKeyed, IsPast, MayStandIn};

use crate::known::Known;
use crate::last::LastTree;
use cts_topo::ShapeNode;
use cts_units::Sink;
use cts_up::Site;
use std::alloc::Global;

/// What a caller keeps of its trees, so that the next one takes over what stayed: the nodes that it knows, and which of
/// them its last tree has.
#[derive(Drop)]
pub struct Past {
    pub(crate) known: Known,
    pub(crate) last: LastTree,
}

impl Past {
    /// Nothing.
    pub fn nothing(alloc: Global) -> Past
        ensures { (seen : List MemoEntry) → IsPast seen result }
    {
        Past {
            known: Known::nothing(alloc),
            last: LastTree::none(alloc),
        }
    }

    /// The sites of the last tree.
    pub fn sites(&self) -> &[Site]
        ensures { result.now ≡ self.now.last.sites.items }
    {
        self.last.sites.as_slice()
    }

    /// Keeps the tree of a shape over sinks, whose nodes stand at these places and have these sites. Where `numbered`
    /// tells that all of them have numbers, and memory lasts, the next tree can take over what stayed.
    pub(crate) fn keep_tree(
        &mut self,
        alloc: Global,
        sinks: &[Sink],
        shape: &[ShapeNode],
        tree: Vec<u32>,
        sites: Vec<Site>,
        numbered: bool,
    )
        requires within { All (λ p. p < length self.old.known.nodes.items) tree.items }
        requires long { length tree.items ≡ length shape.now }
        requires keyed { numbered ≡ true → AreKeyed sinks.now shape.now (picked self.old.known.nodes.items tree.items) }
        requires sites { sites.items ≡ sites_of (picked self.old.known.nodes.items tree.items) }
        ensures known { (seen : List MemoEntry) → IsKnown seen self.old.known → IsPast seen self.new }
        ensures sites { self.new.last.sites.items ≡ sites.items }
    {
        self.last.whole = false;
        self.last.places = tree;
        self.last.sites = sites;
        if self.last.take(sinks, shape).is_ok() {
            self.last.whole = numbered;
        }
        if self.known.close_tree(alloc, &self.last.places) {
            self.last.whole = false;
        }
    }

    /// Forgets all where more is known than is kept.
    pub(crate) fn keep_no_tree(&mut self, alloc: Global)
        ensures { (seen : List MemoEntry) → IsPast seen self.old → IsPast seen self.new }
    {
        if self.known.is_too_much() {
            *self = Past::nothing(alloc);
        }
    }
}
