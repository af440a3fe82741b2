//! The nodes of trees.

use crate::route::Route;
use cts_geom::Spot;

/// What a node is.
#[derive(Clone, Copy, Debug, PartialEq, Eq)]
pub enum NodeKind {
    /// A sink, by its id and its place in the list of sinks.
    Leaf {
        id: u32,
        sink: u32,
    },
    /// A pair of two parts, by the numbers of their roots, and the index of its buffer in the
    /// library, if it has one.
    Pair {
        left: u32,
        right: u32,
        buffer: Option<u16>,
    },
}

/// A node with its place, and the route and the wire to it from the pair above it, or from the source.
#[derive(Drop)]
pub struct TreeNode {
    pub kind: NodeKind,
    pub place: Spot,
    /// The length in nm of the wire along the route, which may snake and then is longer; 0 in a tree whose
    /// wires have no lengths yet.
    pub wire: u64,
    pub route: Route,
}
