//! The balance of a placed tree by several workers: its two parts beside each other, each in this way again, and then its root.

ghost use Rattle.std.specs.Prelude.{◌≡◌, ◌≤◌, ◌<◌, map, length, IfOk, IfErr, MatchOption};
ghost use Rattle.cts_units.specs.Limits.{IsParams};
ghost use Rattle.cts_postorder.specs.PostOrder.{IsPostOrder};
ghost use Rattle.cts_tree.specs.Nodes.{tree_children};
ghost use Rattle.cts_elmore.specs.Loads.{leaf_pins};
ghost use Rattle.cts_embed.specs.BalancedTree.{IsBalancedTree};
ghost use Rattle.cts_embed.specs.Ends.{BalanceEnds};
ghost use Rattle.cts_embed.specs.Fitting.{Fits};
ghost use Rattle.cts_embed.specs.Range.{IsInRange};
ghost use Rattle.cts_tree_workers.specs.Balancing.{AreWired, IsLastWired, IsRootOver, last_route};
ghost use denote.Param.Send.{IsSync};

use cts_beside::{Halved, Halves, by_halves};
use cts_elmore::Pin;
use cts_embed::{BalanceEnd, NodeBalance, balance_part, is_root_within, pair_balance};
use cts_instance::Instance;
use cts_tree::{NodeKind, Placed, Tree, TreeNode};
use cts_units::Params;
use std::alloc::Global;
use std::thread::Threads;

/// The tree of a placed tree, with the wires balanced over its routes, as `cts_embed::balance_with` answers it, by at most so
/// many workers beside each other: its two parts are balanced, each in the same way, and then its root.
///
/// The pins are those of the leaves' sinks, in the order of the leaves, as `cts_elmore::pins` lists them; the lengths of wires
/// are in nm. With fewer than two workers, and for a tree of few nodes, no thread is started. Answers `Beyond` with the least
/// number of a node that is over the limits of wires, loads or delays, those of the root and its wire among them, and
/// `NoMemory` where an allocation fails; where both happen, either may be told. The placed nodes are dropped on a refusal.
pub fn balance_by<R: Threads + Sync>(
    rt: &R,
    alloc: Global,
    workers: u32,
    instance: &Instance,
    placed: Placed,
    pins: &[Pin],
) -> Result<Tree, BalanceEnd>
    requires fits { Fits instance.now placed }
    requires pins { pins.now ≡ leaf_pins instance.now placed }
    ensures tree { IfOk result (IsBalancedTree instance.now placed) }
    ensures ends { IfErr result (BalanceEnds instance.now placed) }
{
    let mut nodes = placed.into_nodes();
    set_wires(rt, alloc, workers, instance, nodes.as_mut_slice(), pins)?;
    Ok(Tree::of(nodes))
}

/// Gives each placed node the length of its wire in nm: what the balance makes of the pair above it, and for the root the
/// length of its route. Answers `Beyond` with the number of the root where that is over the limits that are asked of it alone.
fn set_wires<R: Threads + Sync>(
    rt: &R,
    alloc: Global,
    workers: u32,
    instance: &Instance,
    nodes: &mut [TreeNode],
    pins: &[Pin],
) -> Result<(), BalanceEnd>
    requires shared { IsSync R.row }
    requires post_order { IsPostOrder (map tree_children nodes.old) }
    requires fits { Fits instance.now nodes.old }
    requires pins { pins.now ≡ leaf_pins instance.now nodes.old }
    ensures tree { IfOk result (λ _. IsBalancedTree instance.now nodes.old nodes.new) }
    ensures ends { IfErr result (BalanceEnds instance.now nodes.old) }
{
    let work = Balance { alloc, instance };
    let part = PlacedPart { first: 0, pins };
    let root = by_halves(rt, workers, &work, &part, nodes)?;
    let last = nodes.len() - 1;
    let wire = nodes[last].route.length;
    if !is_root_within(instance, wire, &root) {
        return Err(BalanceEnd::Beyond { node: last as u32 });
    }
    nodes[last].wire = wire;
    Ok(())
}

/// What the balance of a placed tree goes by.
#[derive(Clone, Copy)]
struct Balance<'a> {
    alloc: Global,
    instance: &'a Instance,
}

/// A part of a placed tree: the number of its first node, and the pins of its leaves.
#[derive(Clone, Copy)]
struct PlacedPart<'a> {
    first: usize,
    pins: &'a [Pin],
}

/// Each node below a pair of a part gets the length of its wire in nm. What the balance makes of the part's root is answered;
/// the root's own wire is for the caller to set.
///
/// Answers `Beyond` with the least number of a pair of the part that is over the limits of wires, loads or delays, and
/// `NoMemory` where an allocation fails; where both happen, either may be told. Some wires may be set by then.
impl<'a> Halved for Balance<'a> {
    ghost use Rattle.cts_tree_workers.specs.Balancing.{AreCut, IsBalancedBy, IsReady};

    type Part = PlacedPart<'a>;

    type Place = TreeNode;

    type Over = Option<u16>;

    type Answer = Result<NodeBalance, BalanceEnd>;

    ghost ready = { IsReady };

    ghost cuts = { AreCut };

    ghost made = { IsBalancedBy };

    fn alone(
        &self,
        part: &PlacedPart<'a>,
        nodes: &mut [TreeNode],
    ) -> Result<NodeBalance, BalanceEnd> {
        balance_part(self.alloc, self.instance, part.first, nodes, part.pins)
    }

    fn cut(
        &self,
        part: &PlacedPart<'a>,
        nodes: &[TreeNode],
    ) -> Option<Halves<PlacedPart<'a>, Option<u16>>> {
        let last = nodes.len() - 1;
        let kind = nodes[last].kind;
        let NodeKind::Pair { left, buffer, .. } = kind else {
            return None;
        };
        let middle = left as usize - part.first + 1;
        let (front, back) = part.pins.split_at(middle / 2 + 1);
        Some(Halves {
            front: PlacedPart {
                first: part.first,
                pins: front,
            },
            back: PlacedPart {
                first: part.first + middle,
                pins: back,
            },
            middle,
            last,
            over: buffer,
        })
    }

    fn join(
        &self,
        part: &PlacedPart<'a>,
        _first: &PlacedPart<'a>,
        _second: &PlacedPart<'a>,
        buffer: Option<u16>,
        front: &mut [TreeNode],
        back: &mut [TreeNode],
        _own: &mut [TreeNode],
        a: Result<NodeBalance, BalanceEnd>,
        b: Result<NodeBalance, BalanceEnd>,
    ) -> Result<NodeBalance, BalanceEnd> {
        let left = a?;
        let right = b?;
        let root = (part.first + front.len() + back.len()) as u32;
        balance_root(
            self.instance.params(),
            buffer,
            root,
            front,
            back,
            &left,
            &right,
        )
    }
}

/// Balances the pair over two parts, of which these are the balances, and sets the wires of the parts' roots. Answers `Beyond`
/// with this number where the pair is over the limits of wires, loads or delays.
fn balance_root(
    params: &Params,
    buffer: Option<u16>,
    number: u32,
    front: &mut [TreeNode],
    back: &mut [TreeNode],
    a: &NodeBalance,
    b: &NodeBalance,
) -> Result<NodeBalance, BalanceEnd>
    requires params { IsParams params.now }
    requires buffer { MatchOption buffer (Unit {0}) (λ index. index < length params.now.library) }
    requires a { IsInRange a.now }
    requires b { IsInRange b.now }
    requires some { (1 ≤ length front.old) × (1 ≤ length back.old) }
    ensures wired { IfOk result (AreWired params.now buffer front.old back.old a.now b.now front.new back.new) }
    ensures over { IfErr result (IsRootOver params.now buffer front.old back.old a.now b.now number) }
{
    let (la, lb) = (last_route(front), last_route(back));
    let Ok(root) = pair_balance(params, buffer, a, la, b, lb) else {
        return Err(BalanceEnd::Beyond { node: number });
    };
    set_last_wire(front, root.left_wire);
    set_last_wire(back, root.right_wire);
    Ok(root)
}

/// The length in nm of the route to the last of these nodes.
fn last_route(nodes: &[TreeNode]) -> u64
    requires some { 1 ≤ length nodes.now }
    ensures { result ≡ last_route nodes.now }
{
    nodes[nodes.len() - 1].route.length
}

/// Sets the length in nm of the wire to the last of these nodes.
fn set_last_wire(nodes: &mut [TreeNode], wire: u64)
    requires some { 1 ≤ length nodes.old }
    ensures { IsLastWired nodes.old wire nodes.new }
{
    let last = nodes.len() - 1;
    nodes[last].wire = wire;
}
