//! What is known of a subtree where it is merged.

use cts_geom::Region;
use thiserror::Error;

/// A subtree as a merge above it sees it.
#[derive(Clone, Copy)]
pub struct Side {
    /// The greatest, over its leaves, of the doubled delay from its node to the leaf and twice the leaf's wanted
    /// offset, in 10^-27 s.
    pub greatest: u128,
    /// Its load as seen from above its node, in zF.
    pub load: u64,
    /// Where its node may stand.
    pub region: Region,
}

/// A node of the tree when the upward pass is done with it.
#[derive(Clone, Copy)]
pub struct Finished {
    /// What a merge above it sees.
    pub side: Side,
    /// The length of the wire to its first child in nm, 0 at a leaf.
    pub ea: u32,
    /// The length of the wire to its second child in nm, 0 at a leaf.
    pub eb: u32,
    /// The index in the library of the buffer at the node.
    pub buffer: Option<u16>,
}

/// A pair is over the limits: a wire of it is longer than 2^31 - 1 nm, its load is above 2^56 zF, or its
/// greatest doubled delay is above 2^104 of 10^-27 s.
#[derive(Clone, Copy, PartialEq, Eq, Debug, Error)]
#[error("beyond the limits of wires, loads or delays")]
pub struct Beyond;
