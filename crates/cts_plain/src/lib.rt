//! The synthesis of a clock tree by one thread: shape, plan, places and routes, balance, figures.
//!
//! A layer above hands an instance to [`synthesise`], another shape of its sinks to [`synthesise_over`], or a plan
//! that it made itself to [`finish`], its sites to [`finish_sites`], or nodes that it placed itself to [`settle`], and takes the
//! tree with its figures, or why there is none. `specs/Synthesis.antt` says what the synthesis
//! of an instance is, without a thread, a memo or an order of steps in it. The laws of [`laws`] say that
//! a valid instance has exactly one synthesis, and that its tree is sound: each sink is reached once, the
//! routes are legal, no buffer stands in a block, and no node is over the limits.
//!
//! Where nobody asks for the tree, a layer above hands the sites of a plan to [`totals_of`]: the answer is what the synthesis
//! over this shape has as skew and as wire, or why there is no tree. Each node is placed and balanced where it is met on the
//! way down and up again, and nothing of it is kept but what the pair above it needs. So no list of nodes and none of figures
//! is made, which take most of the memory of a synthesis.
#![tactic(auto)]

mod below;
mod end;
pub mod laws;
mod synthesis;
mod totals;

pub use below::Below;
pub use end::NoTree;
pub use synthesis::{finish, finish_sites, settle, synthesise, synthesise_over};
pub use totals::{Totals, totals_of};
