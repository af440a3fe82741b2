//! Repeaters on the trunk, the wire from the source to the root of a clock tree.
//!
//! A layer above takes the [`Trunk`] of a sound tree with repeaters of one buffer of the library by [`lay_trunk`], and its
//! (`specs/Places.antt`, and `specs/Way.antt` for the points of a way). The extended tree has them as nodes with one child
//! each: `specs/Extended.antt` has its loads, delays and stages as sums over the trunk and then over the tree's paths, and
//! `specs/Laid.antt` what a [`Trunk`] says of it. The laws of [`laws`] say that repeaters shift every node's delay by one
//! amount, so that the skew is that of the tree; residues and bound go by the tree alone.
//!
//! The code passes over the trunk once, and shifts the figures of the tree. Over a stretch that lies inside a block it goes
//! in one step.
#![tactic(auto)]

pub mod laws;
mod lay;
mod look;
mod met;
mod places;
mod sums;
mod text;
mod trunk;
mod way;

pub use lay::lay_trunk;
pub use text::write_trunk;
pub use trunk::{Repeater, Repeaters, Trunk, TrunkEnd};
