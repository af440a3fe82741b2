//! The tree that a caller built last, and which of its nodes the next one has too.

ghost use Rattle.std.specs.Prelude.{◌≡◌, ℕ, IsTrue, IfOk, IfSome, OnOk, Some, false, slice_get};
ghost use Rattle.cts_memo.specs.Keys.{leaf_key};
ghost use Rattle.cts_topo.specs.declared.shape.ShapeNode.TheVariants.{Pair};
ghost use Rattle.cts_work.specs.Last.{AreSameLeaves, IsSameLeaf};

use cts_topo::ShapeNode;
use cts_units::Sink;
use cts_up::Site;
use std::alloc::{AllocError, Global};

/// The tree that was built last. Of the next tree a leaf is the same where its sink is, and a pair where its two parts
/// are the same and stood below one pair. So the nodes that stayed are found by one walk over the sinks and one over the
/// shape, and nothing is looked up for them.
#[derive(Drop)]
pub(crate) struct LastTree {
    /// Its sinks.
    pub(crate) sinks: Vec<Sink>,
    /// The number of each sink's leaf. Nothing rests on it: it counts where that leaf is the sink's.
    pub(crate) leaves: Vec<u32>,
    /// Its shape, node by node.
    pub(crate) shape: Vec<ShapeNode>,
    /// The places of its nodes among those that are known.
    pub(crate) places: Vec<u32>,
    /// The sites of its nodes.
    pub(crate) sites: Vec<Site>,
    /// Whether all this is there, and each node has a number in the memo.
    pub(crate) whole: bool,
}

/// Whether two sinks have the same leaf. Ids don't count.
fn have_one_leaf(old: &Sink, new: &Sink) -> bool
    ensures { IsTrue result → leaf_key old.now ≡ leaf_key new.now }
{
    old.x == new.x && old.y == new.y && old.cap == new.cap && old.offset == new.offset
}

/// The first place from `first` on at which a sink has this id, or the end of the list.
fn place_of_id(sinks: &[Sink], first: usize, id: u32) -> usize {
    for place in first..sinks.len() {
        if sinks[place].id == id {
            return place;
        }
    }
    sinks.len()
}

/// Notes the number of each leaf of a shape over so many sinks at its sink's place.
fn note_leaves(leaves: &mut Vec<u32>, sinks: usize, shape: &[ShapeNode]) -> Result<(), AllocError> {
    leaves.resize(sinks, 0)?;
    let mut number: u32 = 0;
    for node in shape {
        if let ShapeNode::Leaf { sink } = *node {
            if let Some(noted) = leaves.get_mut(sink as usize) {
                *noted = number;
            }
        }
        number = number.wrapping_add(1);
    }
    Ok(())
}

impl LastTree {
    /// No tree.
    pub(crate) fn none(alloc: Global) -> LastTree
        ensures { result.whole ≡ false }
    {
        LastTree {
            sinks: Vec::new(alloc),
            leaves: Vec::new(alloc),
            shape: Vec::new(alloc),
            places: Vec::new(alloc),
            sites: Vec::new(alloc),
            whole: false,
        }
    }

    /// The number of the leaf of the sink at this place of the list, where this sink has the same leaf.
    fn leaf_at(&self, place: usize, sink: &Sink) -> Option<u32>
        ensures { IfSome result (IsSameLeaf self.now sink.now) }
    {
        let old = self.sinks.get(place)?;
        if !have_one_leaf(old, sink) {
            return None;
        }
        let number = *self.leaves.get(place)?;
        match *self.shape.get(number as usize)? {
            ShapeNode::Leaf { sink } if sink as usize == place => Some(number),
            _ => None,
        }
    }

    /// For each of these sinks the number of its leaf, where that is the same. The two lists are compared by one walk: of
    /// the last one some sinks are gone, and those that came stand at the end.
    pub(crate) fn same_leaves(
        &self,
        alloc: Global,
        sinks: &[Sink],
    ) -> Result<Vec<Option<u32>>, AllocError>
        ensures { IfOk result (λ leaves. AreSameLeaves self.now sinks.now leaves.items) }
    {
        let mut leaves = Vec::with_capacity(alloc, sinks.len())?;
        let mut next = 0;
        for sink in sinks {
            let place = place_of_id(&self.sinks, next, sink.id);
            leaves.push(self.leaf_at(place, sink))?;
            next = place.saturating_add(1);
        }
        Ok(leaves)
    }

    /// The number of the pair over these two nodes: it stands right behind its right part.
    #[inline(always)]
    pub(crate) fn same_pair(&self, left: Option<u32>, right: Option<u32>) -> Option<u32>
        ensures { IfSome result (λ number. (a : ℕ) × (b : ℕ) × (left ≡ Some a) × (right ≡ Some b) × (slice_get self.now.shape.items number ≡ Some (Pair a b))) }
    {
        let (a, b) = (left?, right?);
        let number = b.checked_add(1)?;
        match *self.shape.get(number as usize)? {
            ShapeNode::Pair { left, right } if left == a && right == b => Some(number),
            _ => None,
        }
    }

    /// Takes other sinks.
    fn take_sinks(&mut self, sinks: &[Sink]) -> Result<(), AllocError>
        ensures sinks { OnOk result (self.new.sinks.items ≡ sinks.now) }
        ensures rest { self.new ≡ record self.old { sinks = self.new.sinks } }
    {
        self.sinks.clear();
        self.sinks.extend_from_slice(sinks)
    }

    /// Takes another shape.
    fn take_shape(&mut self, shape: &[ShapeNode]) -> Result<(), AllocError>
        ensures shape { OnOk result (self.new.shape.items ≡ shape.now) }
        ensures rest { self.new ≡ record self.old { shape = self.new.shape } }
    {
        self.shape.clear();
        self.shape.extend_from_slice(shape)
    }

    /// Takes the sinks and the shape of another tree.
    pub(crate) fn take(&mut self, sinks: &[Sink], shape: &[ShapeNode]) -> Result<(), AllocError>
        ensures taken { OnOk result ((self.new.sinks.items ≡ sinks.now) × (self.new.shape.items ≡ shape.now)) }
        ensures rest { (self.new.places ≡ self.old.places) × (self.new.sites ≡ self.old.sites) × (self.new.whole ≡ self.old.whole) }
    {
        self.take_sinks(sinks)?;
        self.take_shape(shape)?;
        note_leaves(&mut self.leaves, sinks.len(), shape)
    }
}
