//! Whether the limits on loads and slews are met with repeaters.

ghost use Rattle.std.specs.Prelude.{◌≡◌, ◌*◌, ◌^◌, ◌<◌, ◌≤◌, ◌↔◌, length, All, IsTrue};
ghost use Rattle.cts_units.specs.Delay.{slew_of};
ghost use Rattle.cts_units.specs.Limits.{max_delay};
ghost use Rattle.cts_elmore.specs.Figures.{IsFigureInRange};
ghost use Rattle.cts_elmore.specs.Outputs.{LoadIsMet, SlewIsMet};
ghost use Rattle.cts_trunk.specs.Met.{LoadsAreMet, SlewsAreMet, shifted_stage as spec_shifted_stage};

use crate::sums::Reach;
use cts_elmore::NodeFigure;
use cts_tree::{NodeKind, TreeNode};
use cts_units::slew_tenths;

/// Whether the slew of a stage is at most the limit, in 10^-27 s.
fn is_slew_within(limit: u64, stage: u128) -> bool
    requires stage { stage ≤ 2 ^ 120 }
    ensures { IsTrue result ↔ slew_of stage ≤ 10 * limit }
{
    slew_tenths(stage) <= 10 * u128::from(limit)
}

/// Whether no wire of the trunk is driven into more than the limit, in zF.
pub fn loads_on_trunk_met(limit: u64, reaches: &[Reach]) -> bool
    ensures { IsTrue result ↔ All (λ reach. reach.load ≤ limit) reaches.now }
{
    reaches.iter().all(|reach| reach.load <= limit)
}

/// Whether no stage of these wires has a greater slew than the limit.
pub fn slews_on_trunk_met(limit: u64, reaches: &[Reach]) -> bool
    requires { All (λ reach. reach.stage ≤ 2 ^ 120) reaches.now }
    ensures { IsTrue result ↔ All (λ reach. slew_of reach.stage ≤ 10 * limit) reaches.now }
{
    for reach in reaches {
        if !is_slew_within(limit, reach.stage) {
            return false;
        }
    }
    true
}

/// Whether a node drives no more than the limit, where it has a buffer.
fn is_load_met(limit: u64, kind: NodeKind, below: u64) -> bool
    ensures { IsTrue result ↔ LoadIsMet limit kind below }
{
    match kind {
        NodeKind::Leaf { .. } | NodeKind::Pair { buffer: None, .. } => true,
        NodeKind::Pair {
            buffer: Some(_),
            ..
        } => below <= limit,
    }
}

/// Whether the slew at a node is at most the limit, where the node ends a stage.
fn is_slew_met(limit: u64, kind: NodeKind, stage: u128) -> bool
    requires { stage ≤ 2 ^ 120 }
    ensures { IsTrue result ↔ SlewIsMet limit kind stage }
{
    match kind {
        NodeKind::Pair { buffer: None, .. } => true,
        NodeKind::Leaf { .. } | NodeKind::Pair { .. } => is_slew_within(limit, stage),
    }
}

/// The stage of a node, where that of the root goes from `old` to `new`.
fn shifted_stage(old: u128, new: u128, figure: &NodeFigure) -> u128
    requires new { new ≤ max_delay }
    requires stage { figure.now.stage ≤ max_delay }
    ensures value { result ≡ spec_shifted_stage old new figure.now }
    ensures bound { result ≤ 2 ^ 120 }
{
    if figure.delay == figure.stage {
        figure.stage.saturating_sub(old) + new
    } else {
        figure.stage
    }
}

/// Whether no buffer of the tree drives more than the limit, in zF.
pub fn loads_in_tree_met(limit: u64, nodes: &[TreeNode], figures: &[NodeFigure]) -> bool
    requires { length figures.now ≡ length nodes.now }
    ensures { IsTrue result ↔ LoadsAreMet limit nodes.now figures.now }
{
    for number in 0..nodes.len() {
        if !is_load_met(limit, nodes[number].kind, figures[number].below) {
            return false;
        }
    }
    true
}

/// Whether no leaf and no buffer of the tree has a greater slew than the limit, where the root's stage goes from `old` to
/// `new`.
pub fn slews_in_tree_met(
    limit: u64,
    old: u128,
    new: u128,
    nodes: &[TreeNode],
    figures: &[NodeFigure],
) -> bool
    requires long { length figures.now ≡ length nodes.now }
    requires new { new ≤ max_delay }
    requires figures { All IsFigureInRange figures.now }
    ensures { IsTrue result ↔ SlewsAreMet limit old new nodes.now figures.now }
{
    for number in 0..nodes.len() {
        let stage = shifted_stage(old, new, &figures[number]);
        if !is_slew_met(limit, nodes[number].kind, stage) {
            return false;
        }
    }
    true
}
