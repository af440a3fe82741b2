//! The types of clock trees: routes, nodes, and trees as lists of nodes in post-order.
//!
//! A tree is kept as its nodes in post-order, the model of `cts_postorder`: a pair names its
//! children by their numbers, the right child is the node before it, and the root is the last node.
//! [`Placed`] is a tree whose nodes have places and routes, and wires of length 0 so far, [`Tree`] one
//! whose wires have their lengths too; both keep the post-order as an invariant of their type, so that a layer above may use what
//! `cts_postorder` says of such lists: each node but the last has one pair above it, children stand
//! before their pair, and n leaves make 2n - 1 nodes.
//!
//! The layers above cite `specs/Nodes.antt` for what a node names, and `specs/Path.antt` for a route
//! as the list of its points: its length, its turns, and what it is for steps to run along an axis.
//! What a place, a route or a length must be is said by the layers that choose them.
#![tactic(auto)]

mod nodes;
mod route;
mod tree;

pub use nodes::{NodeKind, TreeNode};
pub use route::{Corners, Route};
pub use tree::{Placed, Tree};
