//! The upward pass: what each node of a shape is made of, from the sinks to the root.
//!
//! A layer above hands in the sinks, a shape over them and the parameters, and takes the plan of [`up`], or
//! its sites alone by [`sites`], or the reason why there is none; it cites `specs/Plan.antt`, which tells a
//! plan by a recursion on the tree of the shape, and `specs/Sites.antt`. One that has several workers hands in
//! the nodes of a subtree, takes their sites by [`sites_part`], and cites `specs/Stretches.antt`. The laws of
//! [`laws`] say that a shape has either one plan or one least node that is beyond, and where the regions of a
//! plan lie.
//!
//! The pass knows no memo, no thread and no places: it goes once over the nodes in post-order.
#![tactic(auto)]

mod ascent;
mod end;
pub mod laws;
mod pass;
mod site;

pub use end::UpEnd;
pub use pass::up;
pub use site::{Site, site_of, sites, sites_part};
