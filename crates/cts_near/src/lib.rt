//! The nearest-pair topology of a clock tree: at each step the two parts whose merging regions are closest are joined; and
//! the synthesis over it.
//!
//! A layer above hands in sinks and parameters, and takes the shape of [`near`], or the reason why there is none. It cites
//! the definitions of `specs/`: `Near` for what the sinks come to, step by step, with `Closest` for the two that a step
//! joins and `Parts` for the parts; `NearShape` for the shape; `Ends` for why there is none. They take the least of all
//! pairs at each step, and know no order of the parts. The laws of [`laws`] say that sinks come to one thing alone, that a
//! shape names each sink, and that it has a plan, so that the upward pass over it is never beyond.
//!
//! A leaf's side is that of `cts_merge::leaf`, which begins with twice its sink's offset. The search keeps a bound for each
//! part and no partner; its memory grows with the number of sinks.
//!
//! [`synthesise_near`] takes an instance, and gives the tree with its figures, or why there is none: too many sinks, the first
//! step whose pair is over the limits, or an end of the synthesis over the shape. `specs/Synthesis.antt` says what an
//! instance comes to: the rest is the synthesis of `cts_plain` over the shape. By the laws it comes to one thing alone, and
//! its tree is sound.
#![tactic(auto)]

mod end;
mod forest;
pub mod laws;
mod nodes;
mod pass;
mod search;
mod subtree;
mod synthesis;
mod tree_end;

pub use end::NearEnd;
pub use pass::{MAX_NEAR_SINKS, near};
pub use synthesis::synthesise_near;
pub use tree_end::NoNearTree;
