//! Replies to the steps of a script.

use cts_edit::EditReply;
use cts_plain::NoTree;

/// The reply to a step.
#[derive(Clone, Copy, Debug)]
pub enum Reply {
    /// To a change of the sinks.
    Edited {
        line: u32,
        reply: EditReply,
    },
    /// To a draw: the version of the sinks, and the doubled skew in 10^-27 s and the wire in nm of their
    /// tree.
    Drew {
        line: u32,
        version: u32,
        skew: u128,
        wire: u64,
    },
    /// To a draw of sinks that have no tree.
    NoTree {
        line: u32,
        version: u32,
        why: NoTree,
    },
}
