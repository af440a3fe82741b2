//! Geometry of the clock tree: points, distances, regions and outlines.
//!
//! A point (x, y) is kept as its spot (u, v) = (x + y, x - y), because there the points within some
//! Manhattan distance of a point form a square. Lengths are whole nm; a point whose coordinates are
//! half nm is a spot too where x and y are both half. A region is a rectangle of whole (u, v), never
//! empty; contracts see its four numbers, and speak of the set of its spots by `ContainsSpot`.
//!
//! Every call takes coordinates of at most 2^40 in size, and none takes memory.
//!
//! The layers above may use the types and functions named here, the words of `specs/` that their
//! contracts cite, and the laws of `laws`, which say what those words mean.
#![tactic(auto)]

mod bounds;
pub mod laws;
mod merging;
mod points;
mod regions;

pub use bounds::Die;
pub use merging::{gap, meet, nearest};
pub use points::{Half, Spot, distance, halves, spot_of, spot_of_half};
pub use regions::Region;
