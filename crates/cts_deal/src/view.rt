//! What a hand knows of the deal. No value of it is made.
use std::collections::LinkedList;

/// A hand's share of the deal, and its numbers.
pub struct View {
    // Of 64 parts.
    pub share: u64,
    // The numbers that the hand drew, in this order.
    pub drawn: LinkedList<u32>,
}
