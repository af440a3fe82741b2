//! One step of the upward pass: a sink, and a pair of sides.

ghost use Rattle.std.specs.Prelude.{◌≡◌, ◌+◌, ◌-◌, ◌*◌, ◌^◌, ◌<◌, ◌≤◌, ◌+ℤ◌, ◌-ℤ◌, ◌↔◌};
ghost use Rattle.cts_geom.specs.Coordinate.{IsCoordinate};
ghost use Rattle.cts_geom.specs.declared.points.Spot.{Spot};
ghost use Rattle.cts_geom.specs.Regions.{ContainsSpot};
ghost use Rattle.cts_units.specs.Choice.{IsBufferChoice};
ghost use Rattle.cts_units.specs.Limits.{IsParams, IsWire, max_length, max_load};
ghost use Rattle.cts_merge.specs.Merge.{IsLeaf, IsMergePair, Merges};
ghost use Rattle.cts_merge.specs.Side.{IsMergeable, IsSideInRange};

use crate::lengths::{delay_through, least_pair};
use crate::side::{Beyond, Finished, Side};
use crate::steps::Steps;
use cts_geom::{Region, Spot, gap, meet, spot_of};
use cts_units::{MAX_DELAY, MAX_LOAD, Params, Sink, Wire, buffered, choose_buffer};
use std::sync::ledger::Ledger;

/// Twice an offset in 10^-27 s, as delays are doubled.
fn doubled(offset: u64) -> u128
    ensures value { result ≡ 2 * offset }
    ensures bound { result < 2 ^ 65 }
{
    2 * u128::from(offset)
}

/// The region of one spot.
fn point(at: Spot) -> Region
    ensures spots { (p : Spot) → ContainsSpot result p ↔ (p ≡ at) }
    ensures u1 { result.u1 ≡ at.u }
    ensures u2 { result.u2 ≡ at.u }
    ensures v1 { result.v1 ≡ at.v }
    ensures v2 { result.v2 ≡ at.v }
{
    Region {
        u1: at.u,
        u2: at.u,
        v1: at.v,
        v2: at.v,
    }
}

/// The node of a sink: twice its wanted offset as greatest delay in 10^-27 s, its capacitance in zF as load, and its
/// own point as region.
pub fn leaf(sink: &Sink) -> Finished
    requires x { IsCoordinate sink.now.x }
    requires y { IsCoordinate sink.now.y }
    requires cap { sink.now.cap ≤ max_load }
    ensures leaf { IsLeaf sink.now result }
    ensures in_range { IsSideInRange result.side }
    ensures u1 { result.side.region.u1 ≡ sink.now.x +ℤ sink.now.y }
    ensures u2 { result.side.region.u2 ≡ sink.now.x +ℤ sink.now.y }
    ensures v1 { result.side.region.v1 ≡ sink.now.x -ℤ sink.now.y }
    ensures v2 { result.side.region.v2 ≡ sink.now.x -ℤ sink.now.y }
{
    Finished {
        side: Side {
            greatest: doubled(sink.offset),
            load: sink.cap,
            region: point(spot_of(sink.x, sink.y)),
        },
        ea: 0,
        eb: 0,
        buffer: None,
    }
}

/// The capacitance of a wire of this length, in zF.
fn wire_load(wire: Wire, length: u64) -> u64
    requires wire { IsWire wire }
    requires length { length ≤ 2 ^ 32 }
    ensures value { result ≡ wire.c * length }
    ensures bound { result ≤ 2 ^ 52 }
{
    wire.c * length
}

/// The pair of two sides with wires of these lengths, its least pair.
fn join(params: &Params, a: &Side, ea: u64, b: &Side, eb: u64) -> Result<Finished, Beyond>
    requires params { IsParams params.now }
    requires a { IsMergeable a.now }
    requires b { IsMergeable b.now }
    requires least { IsMergePair params.now.wire a.now b.now ea eb }
    requires ea { ea ≤ max_length }
    requires eb { eb ≤ max_length }
    ensures { Merges params.now a.now b.now result }
{
    let load = a.load + b.load + wire_load(params.wire, ea + eb);
    if load > MAX_LOAD {
        return Err(Beyond);
    }
    let buffer = choose_buffer(params, load);
    let (added, seen) = buffered(params, buffer, load);
    let through_a = delay_through(params.wire, a, ea);
    let through_b = delay_through(params.wire, b, eb);
    let greatest = through_a.max(through_b) + added;
    if greatest > MAX_DELAY {
        return Err(Beyond);
    }
    Ok(Finished {
        side: Side {
            greatest,
            load: seen,
            region: meet(&a.region, ea, &b.region, eb),
        },
        ea: ea as u32,
        eb: eb as u32,
        buffer,
    })
}

/// The pair of two sides.
fn pair_of(params: &Params, a: &Side, b: &Side) -> Result<Finished, Beyond>
    requires params { IsParams params.now }
    requires a { IsMergeable a.now }
    requires b { IsMergeable b.now }
    ensures { Merges params.now a.now b.now result }
{
    let (ea, eb) = least_pair(params.wire, a, b, gap(&a.region, &b.region))?;
    join(params, a, ea, b, eb)
}

/// The pair of two sides: the least pair of lengths over the gap of their regions, the region in which
/// its node may stand, its buffer, and what is seen of it from above. It counts one merge.
///
/// `Beyond` exactly where a length is above 2^31 - 1 nm, the load before the buffer is above 2^56 zF, or
/// the greatest doubled delay after the buffer is above 2^104 of 10^-27 s.
pub fn merge<L: Ledger>(
    params: &Params,
    a: &Side,
    b: &Side,
    steps: &mut Steps<L>,
) -> Result<Finished, Beyond>
    requires params { IsParams params.now }
    requires a { IsMergeable a.now }
    requires b { IsMergeable b.now }
    ensures merges { Merges params.now a.now b.now result }
    ensures tick { steps.new ≡ steps.old + 1 }
{
    steps.tick();
    pair_of(params, a, b)
}
