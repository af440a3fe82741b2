//! The memo of finished subtrees, which threads share by turns.
//!
//! A layer above starts a [`Memo`] over an instance's parameters and splits its [`MemoPass`] between threads. By a pass it
//! asks for the number of a subtree, which is known by its [`Key`], and puts in what is missing. One call also reads the
//! entries from a number on, so that a thread learns what others have published. An entry is what `leaf` or `merge` gives for
//! its key (`specs/Sound.antt`); entries never change and never move, so that a number in one list is the same number in every
//! longer one. A memo of 2^21 entries is full: it still answers, and takes no more. A memo that is closed leaves its
//! [`Table`], in which its owner looks keys up without turns. The [`laws`] say what its entries are, and how many a shape
//! lacks.
#![tactic(auto)]

mod entry;
mod key;
pub mod laws;
mod memo;
mod secret;
mod seeded;
mod table;

pub use entry::{Answer, MemoCall, MemoEntry, MemoReply, PutEnd};
pub use key::Key;
pub use memo::{Memo, MemoOut, MemoPass};
pub use secret::{Mixture, Secret};
pub use seeded::Seeded;
pub use table::Table;
