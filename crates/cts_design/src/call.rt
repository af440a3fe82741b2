//! The calls of a design and its replies.

use cts_edit::{EditReply, Entry};
use cts_units::Sink;

/// What is asked of a design.
#[derive(Clone, Copy)]
pub enum DesignCall {
    /// Judges an edit, and makes it where it is accepted.
    Change(Entry),
    /// Lists the sinks.
    Snapshot,
}

/// What a design replies.
#[derive(Drop)]
pub enum DesignReply {
    /// To an edit.
    Changed(EditReply),
    /// To a snapshot: how many edits were accepted so far, and the sinks after them.
    Listed { version: u32, sinks: Vec<Sink> },
    /// To a snapshot, where memory ran out.
    NoMemory,
}
