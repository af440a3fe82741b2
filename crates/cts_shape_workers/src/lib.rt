//! The shape of a clock tree and its placed tree, each made by several workers in parallel.
//!
//! Layers above make them by [`topology_by`] and [`embed_by`], whose clauses are those of `cts_topo::topology` and
//! `cts_embed::embed_sites` for every number of workers. So both give the same: by the laws of these crates there is only one
//! shape, one placed tree or end. Nodes go into a list that [`room_for`] fills beforehand, as while other work goes on.
//!
//! The two parts of a tree ask nothing of each other. The places are a pass by halves of `cts_beside`: a thread of its own takes
//! the right part while the caller's goes on with the left one, down to parts of one worker. The shape is divided in the same way
//! by a division of its own, since it goes over three lists of pins and a list of nodes that grows, and has no place a node.
#![tactic(auto)]

mod divide;
mod places;
mod placing;
mod topology;

pub use places::{embed_by, room_for};
pub use topology::topology_by;
