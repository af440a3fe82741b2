//! A node that the last tree has too.

ghost use Rattle.std.specs.Prelude.{◌≡◌, ◌<◌, IsSome, IfSome, IsTrue, Some, length, slice_get};
ghost use Rattle.cts_up.specs.Sites.{site_of as spec_site_of};
ghost use Rattle.cts_work.specs.declared.last.LastTree.{LastTree};
ghost use Rattle.cts_work.specs.Known.{IsAtPlace};
ghost use Rattle.cts_work.specs.Last.{IsAgain, IsSameNode, IsTakenOver};

use crate::last::LastTree;
use crate::node::Built;
use cts_topo::ShapeNode;
use cts_up::{Site, site_of};

/// A node that is done with.
#[derive(Clone, Copy)]
pub(crate) struct Placed {
    /// Its place among the nodes that are known.
    pub(crate) place: u32,
    /// Its number in the last tree, where it was taken over from there.
    pub(crate) again: Option<u32>,
}

/// The number of a node in the last tree, where that has it too, by the numbers of the leaves of sinks and of the nodes
/// before it.
#[inline(always)]
fn number_again(
    last: &LastTree,
    leaves: &[Option<u32>],
    node: ShapeNode,
    found: &[Option<u32>],
) -> Option<u32>
    ensures { IfSome result (IsSameNode last.now leaves.now found.now node) }
{
    match node {
        ShapeNode::Leaf { sink } => *leaves.get(sink as usize)?,
        ShapeNode::Pair { left, right } => {
            let a = *found.get(left as usize)?;
            let b = *found.get(right as usize)?;
            last.same_pair(a, b)
        }
    }
}

/// The node of the last tree that is this one.
#[inline(always)]
pub(crate) fn node_again(
    last: &LastTree,
    leaves: &[Option<u32>],
    node: ShapeNode,
    found: &[Option<u32>],
) -> Option<Placed>
    ensures { IfSome result (IsAgain last.now leaves.now found.now node) }
{
    if !last.whole {
        return None;
    }
    let number = number_again(last, leaves, node, found)?;
    let place = *last.places.get(number as usize)?;
    Some(Placed {
        place,
        again: Some(number),
    })
}

/// Whether a node has a number in the memo, as all nodes before it have.
#[inline(always)]
pub(crate) fn all_numbered(before: bool, nodes: &[Built], placed: Placed) -> bool
    requires { (last : LastTree) × IsTakenOver last nodes.now placed }
    ensures { IsTrue result → IsTrue before × IsAtPlace nodes.now (λ node. IsSome node.number) placed.place }
{
    if !before {
        return false;
    }
    if let Some(_number) = placed.again {
        return true;
    }
    let Some(node) = nodes.get(placed.place as usize) else {
        return false;
    };
    match node.number {
        Some(_number) => true,
        None => false,
    }
}

/// Where a node may stand: as the last tree has it, or as the node tells.
#[inline(always)]
pub(crate) fn site_at(last: &LastTree, nodes: &[Built], placed: Placed) -> Site
    requires within { placed.place < length nodes.now }
    requires again { IsTakenOver last.now nodes.now placed }
    ensures { (node : Built) → slice_get nodes.now placed.place ≡ Some node → result ≡ spec_site_of node.finished }
{
    let sites = last.sites.as_slice();
    if let Some(number) = placed.again {
        if let Some(site) = sites.get(number as usize) {
            return *site;
        }
    }
    site_of(&nodes[placed.place as usize].finished)
}
