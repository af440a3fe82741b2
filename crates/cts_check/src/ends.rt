//! Where the wires of a tree begin.

ghost use Rattle.std.specs.Prelude.{◌≡◌, [], map, All, IfOk};
ghost use Rattle.cts_postorder.specs.PostOrder.{IsPostOrder};
ghost use Rattle.cts_tree.specs.Nodes.{tree_children};
ghost use Rattle.cts_elmore.specs.Sound.{upper_end};
ghost use Rattle.cts_report_reader.specs.Seen.{IsSeen};
ghost use Rattle.cts_check.specs.Ranges.{IsInRange};
ghost use Rattle.cts_check.specs.Ways.{AreUpperEnds};

use cts_geom::{Half, halves};
use cts_instance::Instance;
use cts_num::NoMemory;
use cts_tree::{NodeKind, TreeNode};
use std::alloc::Global;

/// The clock source.
fn source_point(instance: &Instance) -> Half
    ensures upper_end { result ≡ upper_end instance.now [] }
    ensures in_range { IsSeen result }
{
    Half {
        x: 2 * instance.source_x(),
        y: 2 * instance.source_y(),
    }
}

/// Where the wire above each node begins, by number, in half nm: at the pair above it, or at the source.
pub fn upper_ends(
    alloc: Global,
    instance: &Instance,
    nodes: &[TreeNode],
) -> Result<Vec<Half>, NoMemory>
    requires post_order { IsPostOrder (map tree_children nodes.now) }
    requires in_range { All IsInRange nodes.now }
    ensures ends { IfOk result (λ ends. AreUpperEnds instance.now nodes.now ends.items) }
    ensures in_range { IfOk result (λ ends. All IsSeen ends.items) }
{
    let mut ends = vec![in alloc; source_point(instance); nodes.len()]?;
    for number in (0..nodes.len()).rev() {
        let node = &nodes[number];
        if let NodeKind::Pair { left, right, .. } = node.kind {
            let place = halves(node.place);
            ends[left as usize] = place;
            ends[right as usize] = place;
        }
    }
    Ok(ends)
}
