//! The figures of a tree and of its nodes. Loads are in zF, lengths in nm, and delays and arrivals doubled, in
//! 10^-27 s.

use cts_list::Items;

/// The figures of one node.
#[derive(Clone, Copy, Debug, PartialEq, Eq)]
pub struct NodeFigure {
    /// The load at the node, below its buffer if it has one.
    pub below: u64,
    /// The offset that a leaf's sink wants, not doubled, 0 at a pair. A leaf's arrival is its delay and twice this.
    // Beside the load it takes no room, since what follows begins at a multiple of 16 bytes.
    pub offset: u64,
    /// The distance of the greatest arrivals of a pair's two parts through their wires, 0 at a leaf.
    pub residue: u128,
    /// The delay from the source.
    pub delay: u128,
    /// The delay from the last buffer above, without its intrinsic delay, or from the source.
    pub stage: u128,
}

/// The figures of the nodes of a tree, by number.
pub type NodeFigures = Items<NodeFigure>;

/// The figures of a tree.
#[derive(Drop)]
pub struct Figures {
    /// The figures of its nodes, by number.
    pub nodes: NodeFigures,
    /// The load that the source drives: that of the root, and the capacitance of its wire.
    pub source_load: u64,
    /// The lengths of all wires together.
    pub wire_total: u64,
    /// The greatest delay of a leaf.
    pub greatest: u128,
    /// The least delay of a leaf.
    pub least: u128,
    /// The greatest arrival of a leaf: its delay and twice the offset that its sink wants.
    pub arrival_greatest: u128,
    /// The least arrival of a leaf.
    pub arrival_least: u128,
    /// The greatest arrival of a leaf less the least.
    pub skew: u128,
    /// The greatest sum of residues on the path to a leaf.
    pub bound: u128,
    /// Whether neither the source nor a buffer drives more than the load limit.
    pub load_met: bool,
    /// Whether no leaf and no buffer has a slew above the slew limit.
    pub slew_met: bool,
}
