//! The shape of a clock tree: which sinks its pairs stand over, before any place is known.
//!
//! A shape is the list of a binary tree's nodes in post-order, the model of `cts_postorder`. A
//! layer above makes it by [`topology`], reads it by [`Shape::nodes`], and cites the definitions of
//! `specs/`: `Shape` for what the nodes name, `Topology` for the rule by which sinks are divided.
//!
//! A layer that makes parts of a shape beside each other takes the steps one by one: [`pins_of`] and
//! [`sorted_along`], then [`is_turned`] and [`halve`] for a division, and [`add_tree`] for a part.
//! `Divisible` says what pins have to be for these, and `Topology` (`AddsTree`) what a part comes to.
//!
//! Where a list of sinks comes again with a few changes, a layer above keeps an [`Order`] from one list to the next and makes
//! each shape by [`topology_again`], whose answer is that of [`topology`] whatever the order holds. Sinks that stayed where
//! they were are not sorted again: they keep their order along both axes, and those that came or moved are merged into it.
#![tactic(auto)]

mod again;
mod divide;
pub mod laws;
mod merge;
mod order;
mod overlap;
mod pin;
mod shape;

pub use again::topology_again;
pub use divide::{add_tree, halve, is_turned, pins_of, sorted_along, topology};
pub use order::Order;
pub use pin::Pin;
pub use shape::{Shape, ShapeNode};
