//! Edits of the sinks of an instance: what an edit makes of a list of sinks, and which cause refuses one.
//!
//! `specs/Edits.antt` says what an edit makes of a list of sinks, and `specs/Decide.antt` which cause
//! refuses one. [`decide`] judges an edit of any list of sinks, and takes no memory. A layer above that
//! keeps its sinks in its own way judges by [`Facts`] of them with [`cause_by`]. It may use that either
//! gives the first cause that holds, and none exactly where the edit is accepted. A [`Journal`] has the sinks of an instance
//! and the edits that were accepted so far: it judges each edit in about constant time, and makes it where it is accepted.
//! [`laws`] has what these words mean.
#![tactic(auto)]

mod edit;
mod journal;
mod judge;
pub mod laws;
mod reply;
mod roster;

pub use edit::{Edit, EditCause, Entry};
pub use journal::Journal;
pub use judge::{Facts, cause_by, decide, id_of, is_in_block, walls_of};
pub use reply::EditReply;
