//! Callers' sessions over an instance: edits of its sinks, and trees of their versions.
//!
//! A [`Desk`] has an instance, the design in which its sinks are edited, and the memo of its finished
//! subtrees. [`Hands`] are one pass of each: whoever has some may call the desk. A [`Session`] is a caller
//! with its number and hands of its own; sessions are split, so that threads have one each, and joined
//! again. [`Session::edit`] judges an edit of the sinks, [`Session::tree`] gives the tree of the sinks
//! as they then are, and [`Session::totals`] its skew and its wire alone. The layers above may use that each edit is judged at a history that begins with all
//! that the session had seen, that a tree is the synthesis of a version that is no older than that, made
//! with no more merges than the memo lacked pairs, and that [`Desk::close`] gives the history in which
//! every accepted edit stands once.
#![tactic(auto)]

mod desk;
mod draw;
mod finish;
pub mod laws;
mod session;

pub use desk::{Desk, DeskOut, Hands};
pub use draw::{Drawn, TreeEnd, VersionTotals};
pub use session::Session;
