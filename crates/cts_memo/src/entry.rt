//! Entries of a memo's table, its calls and its replies.

use crate::key::Key;
use cts_merge::Finished;
use cts_num::NoMemory;

/// A subtree that is known, and what the upward pass makes of it.
#[derive(Clone, Copy)]
pub struct MemoEntry {
    pub key: Key,
    pub finished: Finished,
}

/// What is asked of a table.
#[derive(Drop)]
pub enum MemoCall {
    /// Looks a key up.
    Ask(Key),
    /// Publishes what was made of a key.
    Put(Key, Finished),
    /// Reads so many entries from a number on, or as many as there are, into a list whose room was had
    /// before the turn.
    Read {
        first: u32,
        most: u32,
        room: Vec<MemoEntry>,
    },
}

/// What a table replies.
#[derive(Drop)]
pub enum MemoReply {
    /// To a look-up.
    Asked(Answer),
    /// To a publication.
    Published(PutEnd),
    /// To a reading of entries: they stand in the order of their numbers.
    Listed(Result<Vec<MemoEntry>, NoMemory>),
}

/// The answer to a look-up.
#[derive(Clone, Copy)]
pub enum Answer {
    /// The entry of the key.
    Have {
        /// Its position in the table.
        number: u32,
        finished: Finished,
    },
    /// No entry has the key.
    Absent,
}

/// How a publication ends.
#[derive(Clone, Copy, Debug, PartialEq, Eq)]
pub enum PutEnd {
    /// The key's entry stands at this position. It was appended, or found.
    At { number: u32 },
    /// The key isn't there, and the table has as many entries as it can have.
    Full,
    /// Memory ran out.
    NoMemory,
}
