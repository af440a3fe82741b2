//! Where the nodes may stand that are known, so that they are found without a search.

ghost use Rattle.std.specs.Prelude.{IfSome};
ghost use Rattle.cts_work.specs.Known.{HasKeyAt};

use crate::node::Built;
use cts_memo::Key;
use std::alloc::{AllocError, Global};

/// The fewest cells, which take half a megabyte: more than one for each node that is kept beside those of a small tree.
const LEAST_CELLS: usize = 1 << 17;

/// The most cells, which take a megabyte.
const MOST_CELLS: usize = 1 << 18;

/// Where the nodes of a list may stand. Nothing rests on it: a node counts only where it has the key that is looked for.
///
/// Nodes stand in the list in the order in which they were built or published. So the node of a key is looked for behind
/// the one that was found before it, and then where the cell of its key tells.
#[derive(Drop)]
pub(crate) struct Hints {
    /// A place for each cell; a later node takes the cell from an earlier one.
    pub(crate) cells: Vec<u32>,
    /// How many nodes of the list the cells were told of.
    pub(crate) noted: usize,
}

/// The number of the cell that a key picks, for so many cells, a power of two.
fn cell_of(key: Key, cells: usize) -> usize {
    let mixed = match key {
        Key::Leaf { x, y, cap, offset } => x
            .cast_unsigned()
            .wrapping_mul(0x9e37_79b9_7f4a_7c15)
            .wrapping_add(y.cast_unsigned().wrapping_mul(0xc2b2_ae3d_27d4_eb4f))
            .wrapping_add(cap.wrapping_mul(0x1656_67b1_9e37_79f9))
            .wrapping_add(offset.wrapping_mul(0xd6e8_feb8_6659_fd93)),
        Key::Pair { left, right } => (left as u64)
            .wrapping_mul(0x9e37_79b9_7f4a_7c15)
            .wrapping_add((right as u64).wrapping_mul(0xc2b2_ae3d_27d4_eb4f)),
    };
    (mixed ^ mixed >> 32) as usize & cells.wrapping_sub(1)
}

/// This place, where the node there has this key, and a number.
#[inline(always)]
fn at_place(nodes: &[Built], place: u32, key: Key) -> Option<u32>
    ensures { IfSome result (HasKeyAt nodes.now key) }
{
    let node = nodes.get(place as usize)?;
    let own = node.key?;
    if own != key {
        return None;
    }
    let _number = node.number?;
    Some(place)
}

impl Hints {
    /// No hint.
    pub(crate) fn none(alloc: Global) -> Hints {
        Hints {
            cells: Vec::new(alloc),
            noted: 0,
        }
    }

    /// The place of the node of a key, where its cell tells it.
    #[inline(always)]
    pub(crate) fn in_cell(&self, nodes: &[Built], key: Key) -> Option<u32>
        ensures { IfSome result (HasKeyAt nodes.now key) }
    {
        let cell = cell_of(key, self.cells.len());
        at_place(nodes, *self.cells.get(cell)?, key)
    }

    /// The place of the node of a key, where it stands at the cursor or its cell tells it. The cursor goes behind it.
    #[inline(always)]
    pub(crate) fn find(&self, nodes: &[Built], key: Key, cursor: &mut u32) -> Option<u32>
        ensures { IfSome result (HasKeyAt nodes.now key) }
    {
        let found = match at_place(nodes, *cursor, key) {
            Some(place) => Some(place),
            None => self.in_cell(nodes, key),
        };
        if let Some(place) = found {
            *cursor = place.wrapping_add(1);
        }
        found
    }

    /// Makes room for the cells of a tree of so many nodes, where there are fewer.
    pub(crate) fn make_room(&mut self, alloc: Global, nodes: usize) -> Result<(), AllocError> {
        let count = nodes
            .saturating_mul(2)
            .clamp(LEAST_CELLS, MOST_CELLS)
            .next_power_of_two();
        if count > self.cells.len() {
            self.cells = vec![in alloc; 0; count]?;
            self.noted = 0;
        }
        Ok(())
    }

    /// Tells the cells of the nodes that they weren't told of yet.
    pub(crate) fn note(&mut self, nodes: &[Built]) {
        for place in self.noted..nodes.len() {
            let (Some(node), Ok(place)) = (nodes.get(place), u32::try_from(place)) else {
                return;
            };
            if let Some(key) = node.key {
                let cell = cell_of(key, self.cells.len());
                if let Some(noted) = self.cells.get_mut(cell) {
                    *noted = place;
                }
            }
        }
        self.noted = nodes.len();
    }
}
