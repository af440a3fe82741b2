//! What resistances drive: the source, and the outputs of buffers.

ghost use Rattle.std.specs.Prelude.{◌≡◌, ◌+◌, ◌*◌, ◌^◌, ◌<◌, ◌≤◌, map, IfSome, MatchOption};
ghost use Rattle.cts_units.specs.Limits.{IsWire, max_load};
ghost use Rattle.cts_postorder.specs.PostOrder.{IsPostOrder, root_of};
ghost use Rattle.cts_tree.specs.Nodes.{tree_children};
ghost use Rattle.cts_elmore.specs.Fits.{FitsInstance};
ghost use Rattle.cts_elmore.specs.Subtrees.{DriveOrOver, IsDriveOver, IsDriveThrough, IsSubtree, IsSubtreeInRange};

use crate::subtree::Subtree;
use cts_instance::Instance;
use cts_tree::TreeNode;
use cts_units::{MAX_DELAY, MAX_LENGTH, MAX_LOAD, Wire, wire_delay};

/// The doubled delay, in 10^-27 s, of a resistance in µΩ that drives a load in zF.
pub fn resistance_delay(resistance: u64, load: u64) -> u128
    requires resistance { resistance < 10 ^ 18 }
    requires load { load ≤ max_load }
    ensures value { result ≡ 2 * resistance * load }
    ensures bound { result ≤ 2 ^ 117 }
{
    wide_delay(resistance as u128, load as u128)
}

#[tactic(auto, using(cts_units::proofs::BufferDelay::buffer_delay_le))]
fn wide_delay(resistance: u128, load: u128) -> u128
    requires resistance { resistance < 10 ^ 18 }
    requires load { load ≤ max_load }
    ensures value { result ≡ 2 * resistance * load }
    ensures bound { result ≤ 2 ^ 117 }
{
    2 * resistance * load
}

/// What the source drives through the root's wire.
#[derive(Clone, Copy)]
pub struct Drive {
    /// Its load in zF.
    pub load: u64,
    /// The doubled delay at the root in 10^-27 s.
    pub delay: u128,
}

/// What a source of this resistance in µΩ drives through a root's wire of `length` nm, or `None`
/// exactly where that is over the limits.
fn drive_through(resistance: u64, wire: Wire, length: u64, root: &Subtree) -> Option<Drive>
    requires resistance { resistance < 10 ^ 18 }
    requires wire { IsWire wire }
    requires root { IsSubtreeInRange root.now }
    ensures { MatchOption result (IsDriveOver resistance wire length root.now)
        (IsDriveThrough resistance wire length root.now) }
{
    if length > MAX_LENGTH {
        return None;
    }
    let load = root.seen + wire.c * length;
    if load > MAX_LOAD {
        return None;
    }
    let delay = resistance_delay(resistance, load) + wire_delay(wire, length, root.seen);
    if delay + root.greatest > MAX_DELAY {
        return None;
    }
    Some(Drive { load, delay })
}

/// What the source drives through the root's wire, or `None` exactly where the root is over the limits.
pub fn drive_root(instance: &Instance, nodes: &[TreeNode], root: &Subtree) -> Option<Drive>
    requires post_order { IsPostOrder (map tree_children nodes.now) }
    requires fits { FitsInstance instance.now nodes.now }
    requires root { IfSome (root_of tree_children nodes.now) (λ t. IsSubtree instance.now t root.now) }
    ensures { IfSome (root_of tree_children nodes.now) (λ t. DriveOrOver instance.now t result) }
{
    drive_through(
        instance.source_r(),
        instance.params().wire,
        nodes[nodes.len() - 1].wire,
        root,
    )
}
