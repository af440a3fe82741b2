//! What the programs have in common at their edges: how a run ends, what the notes say of an input that is refused, and the
//! instance at the front of an input.
//!
//! The layers above may use [`Status`] with its number, [`read_front`] with the most bytes of an input, and the functions
//! that put the words of a note: which words these are stands in `specs/Notes`.
#![tactic(auto)]

mod front;
mod notes;
mod status;
mod stop;
mod words;

pub use front::{INPUT_LIMIT, read_front};
pub use notes::{put_numbered, put_refusal};
pub use status::{Status, exit_code};
pub use stop::{Reason, Stop, write_note};
pub use words::{Arguments, HostArguments, MemArguments, has_words, words_of};
