//! The lengths of the wires of a balanced tree.

ghost use Rattle.std.specs.Prelude.{◌≡◌, ◌≤◌, map, IfOk, IfErr};
ghost use Rattle.std.specs.List.{All};
ghost use Rattle.cts_postorder.specs.PostOrder.{IsPostOrder, NamesFrom};
ghost use Rattle.cts_tree.specs.Nodes.{tree_children, children_from};
ghost use Rattle.cts_elmore.specs.Loads.{leaf_pins};
ghost use Rattle.cts_embed.specs.BalancedTree.{IsBalancedTree, IsBalancedStretch, IsStretchBalance};
ghost use Rattle.cts_embed.specs.Ends.{BalanceEnds, StretchEnds};
ghost use Rattle.cts_embed.specs.Fitting.{Fits};
ghost use Rattle.cts_embed.specs.Range.{IsInRange};

use crate::end::BalanceEnd;
use crate::node::NodeBalance;
use crate::upward::{is_root_within, leaf_balance, pair_balance, take_pin};
use cts_elmore::Pin;
use cts_instance::Instance;
use cts_postorder::take_pair;
use cts_tree::{NodeKind, TreeNode};
use std::alloc::Global;

/// Balances a stretch of placed nodes that are those of one tree, of which the first has the number `first`, so that its
/// pairs name their children by the numbers from there on.
///
/// Each node below a pair of the stretch gets the length of its wire in nm, as the balance makes it of that pair, and what
/// the balance makes of the stretch's root is answered; the root's own wire is for the caller to set. The pins are those of
/// the leaves' sinks, in the order of the leaves. Answers `Beyond` with the least number of a pair of the stretch that is
/// over the limits of wires, loads or delays, and `NoMemory` where an allocation fails; some wires may be set by then.
pub fn balance_part(
    alloc: Global,
    instance: &Instance,
    first: usize,
    nodes: &mut [TreeNode],
    pins: &[Pin],
) -> Result<NodeBalance, BalanceEnd>
    requires first { first ≤ 131071 }
    requires post_order { IsPostOrder (map (children_from first) nodes.old) }
    requires numbered { All (NamesFrom tree_children first) nodes.old }
    requires fits { Fits instance.now nodes.old }
    requires pins { pins.now ≡ leaf_pins instance.now nodes.old }
    ensures balance { IfOk result (IsStretchBalance instance.now first nodes.old) }
    ensures range { IfOk result IsInRange }
    ensures nodes { IfOk result (λ _. IsBalancedStretch instance.now first nodes.old nodes.new) }
    ensures ends { IfErr result (StretchEnds instance.now first nodes.old) }
{
    let params = instance.params();
    let mut leaves = pins.iter();
    let mut waiting = Vec::new(alloc);
    for number in 0..nodes.len() {
        let balance = match nodes[number].kind {
            NodeKind::Leaf { .. } => leaf_balance(take_pin(&mut leaves)),
            NodeKind::Pair {
                left,
                right,
                buffer,
            } => {
                let (left, right) = (left as usize - first, right as usize - first);
                let (la, lb) = (nodes[left].route.length, nodes[right].route.length);
                let (a, b) = take_pair(&mut waiting);
                let Ok(pair) = pair_balance(params, buffer, &a, la, &b, lb) else {
                    return Err(BalanceEnd::Beyond {
                        node: (first + number) as u32,
                    });
                };
                nodes[left].wire = pair.left_wire;
                nodes[right].wire = pair.right_wire;
                pair
            }
        };
        waiting.push(balance)?;
    }
    let Some(root) = waiting.pop() else {
        unreachable!()
    };
    Ok(root)
}

/// Gives each placed node the length of its wire in nm: what the balance makes of the pair above it, and
/// for the root the length of its route. The pins are those of the leaves' sinks, in the order of the leaves.
///
/// They are set in place, those of a pair's two children once the pair is balanced. Where a node is beyond, or
/// memory runs out, some are set and the others are as they were.
pub(crate) fn set_wires(
    alloc: Global,
    instance: &Instance,
    nodes: &mut [TreeNode],
    pins: &[Pin],
) -> Result<(), BalanceEnd>
    requires post_order { IsPostOrder (map tree_children nodes.old) }
    requires fits { Fits instance.now nodes.old }
    requires pins { pins.now ≡ leaf_pins instance.now nodes.old }
    ensures tree { IfOk result (λ _. IsBalancedTree instance.now nodes.old nodes.new) }
    ensures ends { IfErr result (BalanceEnds instance.now nodes.old) }
{
    let root = balance_part(alloc, instance, 0, nodes, pins)?;
    let last = nodes.len() - 1;
    let length = nodes[last].route.length;
    if !is_root_within(instance, length, &root) {
        return Err(BalanceEnd::Beyond { node: last as u32 });
    }
    nodes[last].wire = length;
    Ok(())
}
