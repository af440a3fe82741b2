//! A tree from its root down and up again: the places, and then the balance.

ghost use Rattle.std.specs.Prelude.{◌<◌, length, IfSome, MatchOption};
ghost use Rattle.cts_embed.specs.Balance.{IsLeafBalance, IsPairBalance};
ghost use Rattle.cts_embed.specs.Prepared.{IsGroundOf};
ghost use Rattle.cts_embed.specs.Range.{IsInRange};
ghost use Rattle.cts_embed.specs.Stretches.{IsReady};
ghost use Rattle.cts_plain.specs.Below.{IsBelow, IsLeafBelow};

use cts_elmore::Pin;
use cts_embed::{Ground, NodeBalance, leaf_balance, pair_balance, place_at};
use cts_geom::Spot;
use cts_instance::Instance;
use cts_merge::Beyond;
use cts_topo::ShapeNode;
use cts_tree::NodeKind;
use cts_units::Sink;
use cts_up::Site;
use std::alloc::Global;

/// A tree whose root is placed: what the balance makes of it, and the length of the route to the root in nm.
#[derive(Clone, Copy)]
pub struct Below {
    pub balance: NodeBalance,
    pub route: u64,
}

/// What the balance makes of the leaf of a sink.
fn balance_of(sink: &Sink) -> NodeBalance
    ensures { IsLeafBalance sink.now result }
{
    leaf_balance(Pin {
        cap: sink.cap,
        offset: sink.offset,
    })
}

/// What the balance makes of the leaf of the sink at this place of the list.
fn leaf_below(instance: &Instance, sink: u32) -> NodeBalance
    requires { sink < length instance.now.sinks }
    ensures { IsLeafBelow instance.now.sinks sink result }
{
    let sinks = instance.sinks();
    balance_of(&sinks[sink as usize])
}

/// What the balance makes of a pair with this buffer over two trees, or `None` where it is beyond the limits.
fn pair_below(instance: &Instance, buffer: Option<u16>, a: &Below, b: &Below) -> Option<NodeBalance>
    requires buffer { MatchOption buffer (Unit {0}) (λ index. index < length instance.now.params.library) }
    requires a { IsInRange a.now.balance }
    requires b { IsInRange b.now.balance }
    ensures { IfSome result (IsPairBalance instance.now.params buffer a.now.balance a.now.route b.now.balance b.now.route) }
{
    let params = instance.params();
    match pair_balance(params, buffer, &a.balance, a.route, &b.balance, b.route) {
        Ok(balance) => Some(balance),
        Err(Beyond) => None,
    }
}

/// The tree at a number, placed from the place where the route to its root starts and then balanced; `None` where a node
/// is cut or beyond, or memory runs out.
pub(crate) fn tree_below(
    alloc: Global,
    instance: &Instance,
    ground: &Ground,
    nodes: &[ShapeNode],
    sites: &[Site],
    number: u32,
    from: Spot,
) -> Option<Below>
    requires ground { IsGroundOf instance.now ground.now }
    requires ready { IsReady instance.now nodes.now sites.now number from }
    ensures { IfSome result (IsBelow instance.now nodes.now number) }
{
    let Ok(node) = place_at(alloc, instance, ground, nodes, sites, number, from) else {
        return None;
    };
    let balance = match node.kind {
        NodeKind::Leaf { sink, .. } => leaf_below(instance, sink),
        NodeKind::Pair {
            left,
            right,
            buffer,
        } => {
            // In this order the nodes are read from the last to the first, as they stand in memory.
            let b = tree_below(alloc, instance, ground, nodes, sites, right, node.place)?;
            let a = tree_below(alloc, instance, ground, nodes, sites, left, node.place)?;
            pair_below(instance, buffer, &a, &b)?
        }
    };
    Some(Below {
        balance,
        route: node.route.length,
    })
}
