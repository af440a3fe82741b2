//! The routes of a tree: whether a wire may run along them.

ghost use Rattle.std.specs.Prelude.{◌↔◌, ◌≤◌, List, length, map, All, IfOk, IsTrue};
ghost use Rattle.cts_geom.specs.declared.bounds.Die.{Die};
ghost use Rattle.cts_block.specs.declared.blocks.Block.{Block};
ghost use Rattle.cts_postorder.specs.PostOrder.{IsPostOrder};
ghost use Rattle.cts_tree.specs.Nodes.{tree_children};
ghost use Rattle.cts_tree.specs.Path.{IsAxisStep, points_along};
ghost use Rattle.cts_route.specs.Walls.{KeepsOut};
ghost use Rattle.cts_elmore.specs.Sound.{IsLegalRoute};
ghost use Rattle.cts_report_reader.specs.Seen.{IsSeen};
ghost use Rattle.cts_check.specs.Ranges.{IsInRange};
ghost use Rattle.cts_check.specs.Rules.{IsFirstFailing, MeetsRoute};
ghost use Rattle.cts_check.specs.Ways.{AreUpperEnds, HasLegalSteps, IsLegalStep};

use cts_block::is_half_in_die;
use cts_geom::{Die, Half, halves};
use cts_instance::Instance;
use cts_num::NoMemory;
use cts_route::Walls;
use cts_tree::{Route, TreeNode};
use std::alloc::Global;

/// Whether the step runs along one axis and is longer than 0.
fn is_axis_step(p: Half, q: Half) -> bool
    ensures { IsTrue result ↔ IsAxisStep p q }
{
    (p.x == q.x) != (p.y == q.y)
}

/// Whether the step runs along one axis, is longer than 0, and has no point outside the die or strictly
/// inside a block that stops wires.
fn is_legal_step(die: &Die, walls: &Walls, p: Half, q: Half) -> bool
    requires p { IsSeen p }
    requires q { IsSeen q }
    ensures { (blocks : List Block) → KeepsOut blocks walls.now
        → IsTrue result ↔ IsLegalStep blocks die.now p q }
{
    is_axis_step(p, q) && is_half_in_die(die, p) && is_half_in_die(die, q) && walls.is_clear(p, q)
}

/// Whether all steps of the way over these corners are legal.
fn has_legal_steps(die: &Die, walls: &Walls, from: Half, corners: &[Half], to: Half) -> bool
    requires from { IsSeen from }
    requires corners { All IsSeen corners.now }
    requires to { IsSeen to }
    ensures { (blocks : List Block) → KeepsOut blocks walls.now
        → IsTrue result ↔ HasLegalSteps blocks die.now (points_along from corners.now to) }
{
    let mut start = from;
    for corner in corners {
        if !is_legal_step(die, walls, start, *corner) {
            return false;
        }
        start = *corner;
    }
    is_legal_step(die, walls, start, to)
}

/// Whether a route between these ends is legal: all its steps are, or it has none.
fn is_legal_route(die: &Die, walls: &Walls, from: Half, to: Half, route: &Route) -> bool
    requires from { IsSeen from }
    requires to { IsSeen to }
    requires corners { All IsSeen route.now.corners }
    ensures { (blocks : List Block) → KeepsOut blocks walls.now
        → IsTrue result ↔ IsLegalRoute blocks die.now from to route.now }
{
    let corners = route.corners.items();
    (from == to && corners.is_empty()) || has_legal_steps(die, walls, from, corners, to)
}

/// The least number of a node whose route is not legal, or `None` exactly where there is none.
///
/// Takes the points where the wires begin, by number. Each step of a route is looked at once, against
/// the blocks that stop wires.
pub fn first_illegal_route(
    alloc: Global,
    instance: &Instance,
    nodes: &[TreeNode],
    ends: &[Half],
) -> Result<Option<u32>, NoMemory>
    requires post_order { IsPostOrder (map tree_children nodes.now) }
    requires few { length nodes.now ≤ 131071 }
    requires in_range { All IsInRange nodes.now }
    requires ends { AreUpperEnds instance.now nodes.now ends.now }
    requires ends_in_range { All IsSeen ends.now }
    ensures { IfOk result (IsFirstFailing (MeetsRoute instance.now nodes.now)) }
{
    let die = instance.die();
    let walls = Walls::of(alloc, instance.blocks())?;
    for (number, node) in nodes.iter().enumerate() {
        if !is_legal_route(&die, &walls, ends[number], halves(node.place), &node.route) {
            return Ok(Some(number as u32));
        }
    }
    Ok(None)
}
