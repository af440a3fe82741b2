//! The balance of a placed tree.

ghost use Rattle.std.specs.Prelude.{◌≡◌, IfOk, IfErr};
ghost use Rattle.cts_elmore.specs.Loads.{leaf_pins};
ghost use Rattle.cts_embed.specs.BalancedTree.{IsBalancedTree};
ghost use Rattle.cts_embed.specs.Ends.{BalanceEnds};
ghost use Rattle.cts_embed.specs.Fitting.{Fits};

use crate::end::BalanceEnd;
use crate::wires::set_wires;
use cts_elmore::{Pin, pins};
use cts_instance::Instance;
use cts_tree::{Placed, Tree};
use std::alloc::Global;

/// The tree of a placed tree, with the wires balanced over its routes.
///
/// Upward once more, from leaves that begin with twice their wanted offsets, each pair takes the least pair
/// of lengths over the routes to its two children, by the difference of their greatest arrivals, then by
/// total length, then by the left one's length. It keeps its buffer. The root's wire is as long as its route. Answers `Beyond` with the least number of a node
/// that is over the limits of wires, loads or delays, those of the root and its wire among them, and
/// `NoMemory` where an allocation fails. The placed nodes are dropped on a refusal.
pub fn balance(alloc: Global, instance: &Instance, placed: Placed) -> Result<Tree, BalanceEnd>
    requires { Fits instance.now placed }
    ensures tree { IfOk result (IsBalancedTree instance.now placed) }
    ensures ends { IfErr result (BalanceEnds instance.now placed) }
{
    let pins = pins(alloc, instance, placed.nodes())?;
    balance_with(alloc, instance, placed, pins.as_slice())
}

/// The tree of a placed tree, as [`balance`] answers it, where the [`pins`] of its leaves are listed already,
/// in the order of the leaves.
pub fn balance_with(
    alloc: Global,
    instance: &Instance,
    placed: Placed,
    pins: &[Pin],
) -> Result<Tree, BalanceEnd>
    requires fits { Fits instance.now placed }
    requires pins { pins.now ≡ leaf_pins instance.now placed }
    ensures tree { IfOk result (IsBalancedTree instance.now placed) }
    ensures ends { IfErr result (BalanceEnds instance.now placed) }
{
    let mut nodes = placed.into_nodes();
    set_wires(alloc, instance, nodes.as_mut_slice(), pins)?;
    Ok(Tree::of(nodes))
}
