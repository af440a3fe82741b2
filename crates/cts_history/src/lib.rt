//! Histories of edits: the replies to the callers who made one, what makes one legal, and its text.
//!
//! `specs/Replies.antt` says which [`Reply`] to a step of a script is right, `specs/Legal.antt` which history and replies
//! are legal, and the laws what follows: each caller's accepted edits stand once and in their order ([`laws`]).
//! `specs/History.antt` is the text, line by line, where an edit has the words that it has in a script. The writer takes no
//! memory, and gives the sink some KiB at a time. It asks for a history and replies that can be printed, as legal ones can.
//! What is told of the tree after the history follows this text on the same sink, by its own writer.
//!
//! [`read_history`] reads the entries of the history with which some bytes begin, or their first line with which no history
//! begins. `specs/Opening.antt` says what it is for bytes to begin with a history: the lines are those that are written, up
//! to the last entry, and what comes after it may be anything. So bytes begin with one history at most. Whether the edits
//! would be accepted is not asked here. `specs/Entries.antt` takes a text apart by functions that the code follows step by
//! step, out of the words of `cts_report_reader`, whose lemmas put them together.
#![tactic(auto)]

mod entry;
mod history;
pub mod laws;
mod read;
mod reply;
mod reply_words;
mod words;

pub use history::{put_entries, put_length_of, write_history};
pub use read::{Reading, read_history};
pub use reply::Reply;
pub use reply_words::{put_cause, put_reply};
pub use words::{put_count, put_whole, put_word};
