//! What is built, and by whom.

use crate::last::LastTree;
use cts_memo::Memo;
use cts_topo::ShapeNode;
use cts_units::Sink;

/// The nodes of a shape over sinks, which are built over a memo.
#[derive(Drop)]
pub(crate) struct Work<'a> {
    pub(crate) memo: &'a Memo,
    pub(crate) sinks: &'a [Sink],
    pub(crate) nodes: &'a [ShapeNode],
}

/// A worker or caller, with its number, the gate at which it can be watched, its last tree, and for each sink the number of
/// its leaf there, where that is the same.
#[derive(Drop)]
pub(crate) struct Worker<'a, 'k, R, G> {
    pub(crate) rt: &'a R,
    pub(crate) gate: &'a G,
    pub(crate) number: u32,
    pub(crate) last: &'k LastTree,
    pub(crate) leaves: &'k [Option<u32>],
}
