//! Numbers from 0 on, dealt out to several threads, each number once.
//!
//! A [`Deal`] has one word, the next number. Threads draw from it through a `&Deal`, each with a
//! [`Hand`] of its own. A contract sees the list of the numbers that a hand drew and its share, of 64
//! parts. The layers above may use that no hand draws a number twice, and that the hand with the whole
//! share holds each number from 0 up to its count once. Nothing waits.
#![tactic(auto)]

mod deal;
mod rule;
mod view;

pub use deal::{Deal, Hand};
