//! The buffers of a tree: whether they stand outside the blocks.

ghost use Rattle.std.specs.Prelude.{◌↔◌, ◌≤◌, length, All, IfOk, IsTrue};
ghost use Rattle.cts_elmore.specs.Sound.{HasOpenBuffer};
ghost use Rattle.cts_check.specs.Ranges.{IsInRange};
ghost use Rattle.cts_check.specs.Rules.{IsFirstFailing, MeetsBufferBlocked};

use cts_block::FreeMap;
use cts_instance::Instance;
use cts_num::NoMemory;
use cts_tree::{NodeKind, TreeNode};
use std::alloc::Global;

/// Whether a node has no buffer, or one that stands strictly inside no block.
fn has_open_buffer(map: &FreeMap, node: &TreeNode) -> bool
    requires { IsInRange node.now }
    ensures { IsTrue result ↔ HasOpenBuffer map.now.blocks node.now }
{
    match node.kind {
        NodeKind::Leaf { .. } | NodeKind::Pair { buffer: None, .. } => true,
        NodeKind::Pair {
            buffer: Some(_),
            ..
        } => map.is_open_to_buffers(node.place),
    }
}

/// The least number of a node whose buffer stands strictly inside a block of either kind, or `None`
/// exactly where there is none.
pub fn first_blocked_buffer(
    alloc: Global,
    instance: &Instance,
    nodes: &[TreeNode],
) -> Result<Option<u32>, NoMemory>
    requires few { length nodes.now ≤ 131071 }
    requires in_range { All IsInRange nodes.now }
    ensures { IfOk result (IsFirstFailing (MeetsBufferBlocked instance.now nodes.now)) }
{
    let map = FreeMap::of(alloc, instance.blocks(), &instance.die())?;
    for (number, node) in nodes.iter().enumerate() {
        if !has_open_buffer(&map, node) {
            return Ok(Some(number as u32));
        }
    }
    Ok(None)
}
