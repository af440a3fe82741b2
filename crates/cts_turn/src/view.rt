//! What a pass knows of the turn. No value of it is made.
use std::collections::LinkedList;

pub struct View<E, O> {
    // The list that the object told when the pass saw it last.
    pub seen: LinkedList<E>,
    // The shorter list of the two passes that were joined last.
    pub also: LinkedList<E>,
    // The object as it was at the start. A spent view has none.
    pub object: Option<O>,
    // How many entries of the list this pass made.
    pub made: u64,
    // Of 65,536 parts.
    pub share: u64,
    // 1 while it waits with a ticket, or is in turn.
    pub waits: u64,
    // 1 while it is in turn.
    pub in_turn: u64,
    pub ticket: u64,
}
