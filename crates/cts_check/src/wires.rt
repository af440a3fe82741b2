//! The wires of a tree: whether each is as long as its route.

ghost use Rattle.std.specs.Prelude.{◌≡◌, ◌↔◌, ◌*◌, ◌<◌, ◌≤◌, length, map, All, IsTrue};
ghost use Rattle.cts_geom.specs.Points.{manhattan_of, point_of};
ghost use Rattle.cts_postorder.specs.PostOrder.{IsPostOrder};
ghost use Rattle.cts_tree.specs.Nodes.{tree_children};
ghost use Rattle.cts_tree.specs.Path.{path_length, points_along};
ghost use Rattle.cts_instance.specs.declared.parts.Parts.{Parts};
ghost use Rattle.cts_report_reader.specs.Seen.{IsSeen};
ghost use Rattle.cts_check.specs.Ranges.{IsInRange};
ghost use Rattle.cts_check.specs.Rules.{IsFirstFailing, MeetsShort};
ghost use Rattle.cts_check.specs.Ways.{AreUpperEnds};

use cts_geom::{Half, halves};
use cts_tree::TreeNode;

/// The length of a step in half nm.
fn step_length(p: Half, q: Half) -> u64
    requires p { IsSeen p }
    requires q { IsSeen q }
    ensures manhattan { result ≡ manhattan_of p q }
    ensures bound { result ≤ 400000000 }
{
    p.x.abs_diff(q.x) + p.y.abs_diff(q.y)
}

/// The length of the way over these corners, in half nm.
fn way_length(from: Half, corners: &[Half], to: Half) -> u64
    requires from { IsSeen from }
    requires corners { All IsSeen corners.now }
    requires few { length corners.now ≤ 65536 }
    requires to { IsSeen to }
    ensures { result ≡ path_length (points_along from corners.now to) }
{
    let mut length = 0;
    let mut start = from;
    for corner in corners {
        length += step_length(start, *corner);
        start = *corner;
    }
    length + step_length(start, to)
}

/// Whether a node's wire is shorter than its route, which begins at this point.
fn is_short(node: &TreeNode, from: Half) -> bool
    requires node { IsInRange node.now }
    requires from { IsSeen from }
    ensures { IsTrue result
        ↔ (2 * node.now.wire < path_length (points_along from node.now.route.corners (point_of node.now.place))) }
{
    2 * node.wire < way_length(from, node.route.corners.items(), halves(node.place))
}

/// The least number of a node whose wire is shorter than its route, or `None` exactly where there is
/// none. Takes the points where the wires begin, by number.
pub fn first_short_wire(nodes: &[TreeNode], ends: &[Half]) -> Option<u32>
    requires few { length nodes.now ≤ 131071 }
    requires in_range { All IsInRange nodes.now }
    requires one_each { length ends.now ≡ length nodes.now }
    requires ends_in_range { All IsSeen ends.now }
    ensures { (i : Parts) → IsPostOrder (map tree_children nodes.now) → AreUpperEnds i nodes.now ends.now
        → IsFirstFailing (MeetsShort i nodes.now) result }
{
    for (number, node) in nodes.iter().enumerate() {
        if is_short(node, ends[number]) {
            return Some(number as u32);
        }
    }
    None
}
