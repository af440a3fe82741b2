//! Taking turns on a shared object: the base of everything that threads share.
//!
//! An [`Object`] tells a list of entries and answers calls. A [`Turn`] holds one, and threads call it
//! through a `&Turn`, each with a [`Pass`] of its own, in the order in which they drew their tickets.
//! The layers above may use that there is one history, the list that the object tells: each reply is
//! allowed at a list that begins with all that the pass had seen, a pass counts the entries that it
//! made, and closing the turn gives the object whose list is what the last pass has seen. Only
//! [`Turn::call`] may wait.
#![tactic(auto)]

mod object;
mod rule;
mod turn;
mod view;

pub use object::Object;
pub use turn::{Pass, StillOut, Turn};
