//! Callers who edit and draw beside each other: their replies, and what makes a history of their edits
//! legal.
//!
//! Each caller goes through a script of its own. What they all did is one history of accepted edits and
//! a list of replies for each caller. The layers above may use that in a legal history each caller's
//! accepted edits stand once and in their order.
#![tactic(auto)]

mod answer;
mod callers;
mod edit;
pub mod laws;
mod secret;

pub use edit::{Run, run_callers};
