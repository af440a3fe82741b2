//! A part as the search sees it.

use cts_merge::Side;

/// A subtree that is still to be joined.
#[derive(Clone, Copy)]
pub struct Subtree {
    /// The least id of its sinks.
    pub name: u32,
    /// The number of its join, among all joins so far.
    pub node: u32,
    /// How a merge sees it.
    pub side: Side,
}
