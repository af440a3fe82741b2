//! The second program's one call: from an input and an output to a status. The input is an instance
//! directly followed by a report, as for the word `check`; the output gets the picture of the report's tree.
//!
//! The layer above, the program, may use [`draw`]. What stands beside it is private: the instance and the
//! report of an input (`input`), and the program's own reason to stop (`stop`), a report that is no text of one.
//! Statuses and the other notes are those of `cts` (`cts_notes`).
#![tactic(auto)]

mod drawing;
mod input;
mod stop;

pub use drawing::draw;
