//! How an undo or a redo ends.

/// How an undo or a redo ends. A version is the number of changes that are done.
#[derive(Clone, Copy, Debug, PartialEq, Eq)]
pub enum Moved {
    /// A change was undone or redone, with the version after it.
    Done { version: u32 },
    /// There was nothing to undo or redo. Nothing is changed.
    Empty { version: u32 },
    /// Memory ran out. Nothing is changed.
    NoMemory,
}
