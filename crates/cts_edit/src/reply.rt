//! How an edit ends.

use crate::edit::EditCause;

/// How an edit ends. A version is a number of accepted edits.
#[derive(Clone, Copy, Debug, PartialEq, Eq)]
pub enum EditReply {
    /// It was made, with the version after it.
    Accepted { version: u32 },
    /// It was refused, with the version at which it was decided. Nothing is changed.
    Refused { cause: EditCause, version: u32 },
    /// Memory ran out. Nothing is changed.
    NoMemory,
}
