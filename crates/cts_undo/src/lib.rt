//! Changes of the sinks of an instance that can be undone and redone to any depth.
//!
//! A [`Book`] has the changes that are done and those that were undone since the last change, and the
//! sinks after those that are done. The layers above may use that its sinks are always those after the
//! changes that are done, as `cts_edit` defines them, and what each step makes of the two lists, as
//! `specs/Replay.antt` says: undo and redo go back and forth over one list of changes, and a change that
//! is accepted drops what was undone. [`inverse_of`] gives what takes one edit of a list of sinks back.
//!
//! A replay is one caller that goes through a script and may undo and redo its changes. [`replay`] gives the reply to each
//! step, as `specs/Answers.antt` says: by the changes that are done before the step, of which a draw is the synthesis.
//! [`version_after`] is the instance with the sinks after them, and [`write_replay`] writes the text of both, which
//! `specs/ReplayText.antt` tells line by line. By the [`laws`] the steps have one list of replies at most, and so one text.
#![tactic(auto)]

mod book;
mod inverse;
pub mod laws;
mod moved;
mod reply;
mod run;
mod sinks;
mod write;

pub use book::Book;
pub use inverse::{Inverse, inverse_of};
pub use moved::Moved;
pub use reply::ReplayReply;
pub use run::{Replayed, replay, version_after};
pub use write::write_replay;
