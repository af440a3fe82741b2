//! The third program's one call: from an input and an output to a status. The input is an instance directly
//! followed by what `edit` or `replay` writes on it; the output gets the canonical text of the instance with the
//! sinks after the history, or a line that names the first entry that the rule of edits refuses.
//!
//! The layer above, the program, may use [`tell_after`]. What stands beside it is private: the instance and the
//! history of an input (`input`), the edits of a history made one after another (`outcome`), and the
//! program's own reason to stop (`stop`), a history that is none. Statuses and the other notes are those of `cts`
//! (`cts_notes`). [`laws`] says that an input comes to one thing at most, that none is refused which
//! spells an instance and a history, and that what `edit` writes comes to the instance of its report.
#![tactic(auto)]

mod after;
mod input;
pub mod laws;
mod outcome;
mod stop;

pub use after::tell_after;
