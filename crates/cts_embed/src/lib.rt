//! From the plan of a shape to its tree: places and routes from the root down, and then the wires balanced upward.
//!
//! A layer above hands the plan of a shape to [`embed`], or the sites of the plan alone to [`embed_sites`], and takes the
//! placed tree; it cites `specs/Places.antt` for where a node stands and `specs/PlacedTree.antt` for the tree of the
//! same form whose nodes are told one by one, each by its subtree and the pairs above it. A layer whose workers place nodes
//! beside each other prepares the [`Ground`] of an instance, lists what the leaves have of their sinks with [`leaves_for`], and
//! places one node at a time with [`place_at`] or [`place_known`]. It hands a placed tree to [`balance`], or to [`balance_with`] where it has listed the pins of the leaves (`cts_elmore::pins`),
//! and takes the tree, or the least node that is beyond. A layer whose workers balance the parts of a tree beside each other
//! calls [`balance_part`] for the stretch of nodes of each. Both cite `specs/Balance.antt`, which tells by a recursion on
//! the tree what the balance makes of each node, and `specs/BalancedTree.antt`, which tells the nodes of the balanced
//! tree in the same way. The laws of [`laws`] say that there is exactly one answer to each, and where
//! places lie.
#![tactic(auto)]

mod balancing;
mod embedding;
mod end;
mod ground;
mod ids;
pub mod laws;
mod leaf_lists;
mod node;
mod place;
mod placing;
mod upward;
mod wires;

pub use balancing::{balance, balance_with};
pub use embedding::{embed, embed_sites};
pub use end::{BalanceEnd, EmbedEnd};
pub use ground::Ground;
pub use leaf_lists::{Leaves, leaves_for, leaves_room};
pub use node::NodeBalance;
pub use place::{place_at, place_known};
pub use placing::{ground_of, place_node, source_place};
pub use upward::{is_root_within, leaf_balance, pair_balance};
pub use wires::balance_part;
