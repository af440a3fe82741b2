//! The tree of an instance by several workers in parallel: the lengths of its wires, its figures, and the whole tree over a plan.
//!
//! A layer above calls [`shape_by`] for the shape with [`Rooms`] for its tree, makes the shape's plan as it likes, and gives its
//! sites to [`tree_by`]; for every number of workers that is what `cts_plain` makes of the plan. Nodes that are placed already go
//! to [`settle_by`], which gives what `cts_plain::settle` gives, or to [`balance_by`], which sets the wires alone, as
//! `cts_embed::balance_with` does; a tree goes to [`measure_by`], whose clauses are those of `cts_elmore::measure_with`. By the
//! laws of these crates there is only one answer to each.
//!
//! Wires and figures from below are passes by halves of `cts_beside`: the two parts of a tree ask nothing of each other until
//! their root is reached. Downward, where a part takes from its root what it begins with, two threads pass over the two parts.
//! The workers share the instance and rooms in which each writes its own part, and nothing else.
#![tactic(auto)]

mod balance;
mod descend;
mod figures;
mod gather;
mod rooms;
mod settle;
mod split;
mod synthesis;

pub use balance::balance_by;
pub use figures::{figures_room, measure_by};
pub use rooms::Rooms;
pub use settle::settle_by;
pub use synthesis::{shape_by, tree_by};
