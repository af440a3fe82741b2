//! Blocks, and the points that they leave free.
//!
//! The layers above may use the types and functions named here and the words of `specs/` that their
//! contracts cite: whether a point is in the die, strictly inside a block, or free, and what the
//! nearest free point is. [`nearest_free`] takes no memory and looks at all blocks; a [`FreeMap`] is
//! made once and answers many such questions.
//!
//! The search knows that the nearest free point has the x of the place, rounded down or up, or lies
//! on an edge of a block that faces away from the place. It climbs and falls in such columns from block
//! to block, and stops where a column is further away than the best point. A [`FreeMap`] finds the
//! blocks round a point by a raster, and keeps the exposed edges in the order of their x.
#![tactic(auto)]

mod banding;
mod bands;
mod blocks;
mod distance;
mod edge;
mod edges;
mod free;
mod free_map;
mod index;
mod indexing;
mod laws;
mod obstacles;
mod raster;
mod scan;
mod search;
mod whole;

pub use blocks::{Block, Kind};
pub use free::{free_for_buffer, free_for_wire, is_half_in_die};
pub use free_map::FreeMap;
pub use laws::{every_place_has_a_nearest_free_point, nearest_free_is_one};
pub use scan::nearest_free;
