//! What the balance makes of one node.

/// A node as the balance is done with it.
#[derive(Clone, Copy)]
pub struct NodeBalance {
    /// The greatest, over its leaves, of the doubled delay from the node to the leaf, its own buffer included, and twice
    /// the leaf's wanted offset, in 10^-27 s.
    pub greatest: u128,
    /// The least of these sums.
    pub least: u128,
    /// The load as seen from above the node, in zF.
    pub load: u64,
    /// The length of the wire to its left child in nm, 0 at a leaf.
    pub left_wire: u64,
    /// The length of the wire to its right child in nm, 0 at a leaf.
    pub right_wire: u64,
    /// The lengths of all wires below the node together, in nm.
    pub wires: u64,
}
