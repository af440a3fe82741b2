//! Edges of blocks.

use crate::whole::Segment;

/// The part of an edge from its first to its last free point, and how far it is from a side of the
/// die, in nm.
#[derive(Clone, Copy)]
pub struct Edge {
    pub offset: u64,
    pub segment: Segment,
}
