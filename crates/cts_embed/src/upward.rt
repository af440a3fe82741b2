//! The steps of the balance upward: what it makes of a leaf, of a pair and of the root.

ghost use Rattle.std.specs.Prelude.{◌≡◌, ◌^◌, ◌<◌, ◌≤◌, ◌∷◌, ◌↔◌, IsTrue, length, IfOk, IfErr, MatchOption};
ghost use Rattle.std.specs.Slice.Iter.{iter_rest};
ghost use Rattle.cts_units.specs.Limits.{IsParams, max_length, max_load};
ghost use Rattle.cts_merge.specs.LeastPair.{IsTooLong, Covers};
ghost use Rattle.cts_elmore.specs.Loads.{pin_of};
ghost use Rattle.cts_embed.specs.Balance.{IsLeafBalance, IsPairBalance, IsPairBeyond, IsRootWithin, IsWirePair, delay_through, least_through};
ghost use Rattle.cts_embed.specs.Range.{IsInRange};

use crate::node::NodeBalance;
use cts_elmore::Pin;
use cts_geom::Region;
use cts_instance::Instance;
use cts_merge::{Beyond, Side, choose};
use cts_units::{MAX_DELAY, MAX_LENGTH, MAX_LOAD, Params, Sink, buffered, wire_delay};
use std::slice;

/// A node as `choose` takes it, which looks at no region.
fn side_of(node: &NodeBalance) -> Side
    ensures greatest { result.greatest ≡ node.now.greatest }
    ensures load { result.load ≡ node.now.load }
{
    Side {
        greatest: node.greatest,
        load: node.load,
        region: Region {
            u1: 0,
            u2: 0,
            v1: 0,
            v2: 0,
        },
    }
}

/// The lengths of the wires to two children whose routes have the lengths `la` and `lb`.
fn wire_pair(
    params: &Params,
    a: &NodeBalance,
    la: u64,
    b: &NodeBalance,
    lb: u64,
) -> Result<(u64, u64), Beyond>
    requires params { IsParams params.now }
    requires a { IsInRange a.now }
    requires b { IsInRange b.now }
    ensures wires { IfOk result (λ pair. IsWirePair params.now.wire a.now la b.now lb pair.0 pair.1) }
    ensures left_within { IfOk result (λ pair. pair.0 ≤ max_length) }
    ensures right_within { IfOk result (λ pair. pair.1 ≤ max_length) }
    ensures beyond { IfErr result (λ _.
        IsTooLong (delay_through params.now.wire a.now) (delay_through params.now.wire b.now) (Covers la lb)) }
{
    choose(params, &side_of(a), la, &side_of(b), lb)
}

/// The greatest arrival of a node through a wire of this length above it.
fn delay_through(params: &Params, node: &NodeBalance, length: u64) -> u128
    requires params { IsParams params.now }
    requires node { IsInRange node.now }
    requires length { length ≤ max_length }
    ensures value { result ≡ delay_through params.now.wire node.now length }
    ensures bound { result ≤ 2 ^ 111 }
{
    node.greatest + wire_delay(params.wire, length, node.load)
}

/// The least arrival of a node through a wire of this length above it.
fn least_through(params: &Params, node: &NodeBalance, length: u64) -> u128
    requires params { IsParams params.now }
    requires node { IsInRange node.now }
    requires length { length ≤ max_length }
    ensures value { result ≡ least_through params.now.wire node.now length }
    ensures bound { result ≤ 2 ^ 111 }
{
    node.least + wire_delay(params.wire, length, node.load)
}

/// A pair with this buffer over two children and the routes to them.
#[inline(always)]
pub fn pair_balance(
    params: &Params,
    buffer: Option<u16>,
    a: &NodeBalance,
    la: u64,
    b: &NodeBalance,
    lb: u64,
) -> Result<NodeBalance, Beyond>
    requires params { IsParams params.now }
    requires buffer { MatchOption buffer (Unit {0}) (λ index. index < length params.now.library) }
    requires a { IsInRange a.now }
    requires b { IsInRange b.now }
    ensures pair { IfOk result (IsPairBalance params.now buffer a.now la b.now lb) }
    ensures beyond { IfErr result (λ _. IsPairBeyond params.now buffer a.now la b.now lb) }
{
    let (left_wire, right_wire) = wire_pair(params, a, la, b, lb)?;
    let load = a.load + b.load + params.wire.c * (left_wire + right_wire);
    if load > MAX_LOAD {
        return Err(Beyond);
    }
    let (added, seen) = buffered(params, buffer, load);
    let left_delay = delay_through(params, a, left_wire);
    let right_delay = delay_through(params, b, right_wire);
    let greatest = left_delay.max(right_delay) + added;
    if greatest > MAX_DELAY {
        return Err(Beyond);
    }
    let left_least = least_through(params, a, left_wire);
    let right_least = least_through(params, b, right_wire);
    Ok(NodeBalance {
        greatest,
        least: left_least.min(right_least) + added,
        load: seen,
        left_wire,
        right_wire,
        wires: a.wires + b.wires + left_wire + right_wire,
    })
}

/// The next of the pins that are left.
pub(crate) fn take_pin(pins: &mut slice::Iter<'_, Pin>) -> Pin
    requires some { 1 ≤ length (iter_rest pins.old) }
    ensures { iter_rest pins.old ≡ result ∷ iter_rest pins.new }
{
    let Some(pin) = pins.next() else {
        unreachable!()
    };
    *pin
}

/// A leaf over the sink that has this pin.
#[inline(always)]
pub fn leaf_balance(pin: Pin) -> NodeBalance
    ensures { (sink : Sink) → pin_of sink ≡ pin → IsLeafBalance sink result }
{
    let arrival = pin.doubled_offset();
    NodeBalance {
        greatest: arrival,
        least: arrival,
        load: pin.cap,
        left_wire: 0,
        right_wire: 0,
        wires: 0,
    }
}

/// Whether the limits that are asked of the root alone are met, with a wire of this length above it.
pub fn is_root_within(instance: &Instance, length: u64, root: &NodeBalance) -> bool
    requires root { IsInRange root.now }
    ensures { IsTrue result ↔ IsRootWithin instance.now length root.now }
{
    if length > MAX_LENGTH {
        return false;
    }
    let params = instance.params();
    let load = root.load + params.wire.c * length;
    if load > MAX_LOAD {
        return false;
    }
    let source_delay = 2 * instance.source_r() as u128 * load as u128;
    source_delay + delay_through(params, root, length) <= MAX_DELAY
}
