//! The pins of the leaves, listed before the passes upward that read them.

ghost use Rattle.std.specs.Prelude.{◌≡◌, ◌<◌, length, All, IfSome, IfOk};
ghost use Rattle.cts_tree.specs.Nodes.{leaf_sink};
ghost use Rattle.cts_elmore.specs.Loads.{leaf_pins};

use cts_instance::Instance;
use cts_num::NoMemory;
use cts_tree::{NodeKind, TreeNode};
use std::alloc::Global;

/// What a pass upward has to know of a sink.
#[derive(Clone, Copy)]
pub struct Pin {
    /// Its capacitance in zF.
    pub cap: u64,
    /// Its wanted offset in 10^-27 s, not doubled.
    pub offset: u64,
}

impl Pin {
    ghost use Rattle.std.specs.Prelude.{◌≡◌, ◌*◌, ◌^◌, ◌<◌};

    /// Twice the wanted offset, as delays are doubled: where the arrival at the pin begins, in 10^-27 s.
    pub fn doubled_offset(self) -> u128
        ensures value { result ≡ 2 * self.offset }
        ensures bound { result < 2 ^ 65 }
    {
        2 * u128::from(self.offset)
    }
}

/// The pins of the leaves' sinks, in the order of the leaves.
///
/// The sinks stand in memory in another order than the leaves, so that each look-up takes as long as a read
/// from memory. In a loop that does nothing else these reads overlap; the branches of a pass upward would
/// wait for each of them. One list serves every pass over a tree whose nodes keep their kinds.
pub fn pins(alloc: Global, instance: &Instance, nodes: &[TreeNode]) -> Result<Vec<Pin>, NoMemory>
    requires { All (λ node. IfSome (leaf_sink node.kind) (λ sink. sink < length instance.now.sinks)) nodes.now }
    ensures { IfOk result (λ pins. pins.items ≡ leaf_pins instance.now nodes.now) }
{
    let sinks = instance.sinks();
    let mut pins = Vec::with_capacity(alloc, nodes.len().div_ceil(2))?;
    for node in nodes {
        match node.kind {
            NodeKind::Leaf { sink, .. } => {
                let named = sinks[sink as usize];
                pins.push(Pin {
                    cap: named.cap,
                    offset: named.offset,
                })?;
            }
            NodeKind::Pair { .. } => {}
        }
    }
    Ok(pins)
}
