//! The reader of instances: from the bytes of a text to a valid instance, or to the first line that
//! offends and its first cause.
//!
//! The layers above may use [`read_instance`] and [`read_rest`] with the grammar of `specs/` that
//! their contracts cite: `Lines` (which lines are skipped, and words), `Grammar` (a line against a
//! line of the grammar), `Header` and `Items` (the lines of an instance) and `Whole`. The reader of
//! scripts, whose lines follow those of an instance, uses the calls for the lines that are left and
//! for the words and numbers of a line, and [`plain_number`] where its words stand one space apart
//! (`specs/Plain.antt`).
#![tactic(auto)]

mod cursor;
pub mod fields;
mod header;
mod items;
pub mod laws;
mod left;
mod lists;
mod plain;
mod read;
mod stop;
mod words;

pub use left::{line_left, none_left};
pub use lists::at_line;
pub use plain::plain_number;
pub use read::{Taken, read_instance, read_rest};
pub use stop::{Cause, ReadStop};
pub use words::{count_words, is_printable, word_at};
