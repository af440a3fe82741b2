//! Edits of the sinks of an instance, and the versions of the sinks that they make.
//!
//! A [`Design`] has the sinks of an instance and the edits that were accepted so far, its history. One
//! that is owned judges each edit in about constant time and makes it where it is accepted, as `cts_edit`
//! says. It is also the object of a turn: threads share it, each with a pass of its own, [`send_edit`]
//! sends an edit to it, and [`snapshot`] lists the sinks. The layers above may use that each call meets a
//! history that begins with all that its pass had seen, that an accepted edit is appended there once, and
//! that the sinks of a snapshot are those after the history that the pass then has seen, which are valid
//! with the other parts of the instance. [`decide`] judges an edit of any list of sinks, without a design.
#![tactic(auto)]

mod call;
mod design;
pub mod laws;
mod shared;

pub use call::{DesignCall, DesignReply};
pub use cts_edit::{Edit, EditCause, EditReply, Entry, decide};
pub use design::Design;
pub use shared::{send_edit, snapshot};
