//! Loads, delays and stages along the trunk: sums from the source to the root. Delays are doubled, in 10^-27 s.

ghost use Rattle.std.specs.Prelude.{◌≡◌, ◌⊎◌, ◌+◌, ◌*◌, ◌<◌, ◌≤◌, ◌∷◌, length, slice_index, slice_index_or, IfErr, IfOk};
ghost use Rattle.cts_units.specs.Delay.{wire_delay_of};
ghost use Rattle.cts_units.specs.Limits.{IsBuffer, IsWire, max_delay, max_length, max_load};
ghost use Rattle.cts_instance.specs.declared.parts.Parts.{Parts};
ghost use Rattle.cts_trunk.specs.Extended.{span};
ghost use Rattle.cts_trunk.specs.TrunkSums.{AreReaches, EndsSums, IsBefore, IsDriveInRange, IsDriveOf, IsReach, StandBefore, cuts_of, source_buffer, wires_of};

use crate::places::Stand;
use crate::trunk::TrunkEnd;
use cts_units::{Buffer, MAX_DELAY, Wire, buffer_delay, wire_delay};
use std::alloc::Global;

/// What drives the trunk, and what it drives.
#[derive(Clone, Copy)]
pub struct Drive {
    pub wire: Wire,
    /// The source's output resistance in µΩ.
    pub source_r: u64,
    pub repeater: Buffer,
    /// The load in zF that is seen at the root.
    pub root_seen: u64,
    /// The length in nm of the whole trunk.
    pub root_at: u64,
}

/// One wire of the trunk: its length in nm, and the load in zF that is seen at its lower end.
#[derive(Clone, Copy)]
struct Piece {
    length: u64,
    seen: u64,
}

/// The load in zF that is driven through a wire of the trunk, and the delay and the stage at its lower end.
#[derive(Clone, Copy)]
pub struct Reach {
    pub load: u64,
    pub delay: u128,
    pub stage: u128,
}

/// The length from the source to the upper end of the wire of this number.
fn upper_end(stands: &[Stand], number: usize) -> u64
    requires { number ≤ length stands.now }
    ensures { result ≡ slice_index (0 ∷ cuts_of stands.now) number }
{
    if number == 0 {
        0
    } else {
        stands[number - 1].length
    }
}

/// The wire of this number, from the source on. No length is below the one before, so that nothing is cut off.
fn piece_at(drive: &Drive, stands: &[Stand], number: usize) -> Piece
    requires { number ≤ length stands.now }
    ensures value { slice_index_or (wires_of drive.now stands.now) number (span 0 0) ≡ span result.length result.seen }
    ensures short { StandBefore drive.now.root_at stands.now → result.length ≤ drive.now.root_at }
    ensures seen { result.seen ≡ drive.now.repeater.cin ⊎ result.seen ≡ drive.now.root_seen }
{
    let above = upper_end(stands, number);
    if number < stands.len() {
        Piece {
            length: stands[number].length.saturating_sub(above),
            seen: drive.repeater.cin,
        }
    } else {
        Piece {
            length: drive.root_at.saturating_sub(above),
            seen: drive.root_seen,
        }
    }
}

/// What drives the wire of this number: the source, as a buffer without intrinsic delay, or a repeater.
fn driver_of(drive: &Drive, number: usize) -> Buffer
    requires { IsDriveInRange drive.now }
    ensures first { number ≡ 0 → result ≡ source_buffer drive.now.source_r }
    ensures later { 0 < number → result ≡ drive.now.repeater }
    ensures range { IsBuffer result }
{
    if number == 0 {
        Buffer {
            cin: 0,
            rout: drive.source_r,
            intrinsic: 0,
        }
    } else {
        drive.repeater
    }
}

/// What a wire comes to that this driver drives, below this delay.
#[tactic(auto, unfolding(cts_units::specs::Delay::buffer_delay_of))]
fn reach_through(wire: Wire, driver: Buffer, before: u128, piece: Piece) -> Reach
    requires wire { IsWire wire }
    requires driver { IsBuffer driver }
    requires before { before ≤ max_delay }
    requires length { piece.length ≤ max_length }
    requires load { piece.seen + wire.c * piece.length ≤ max_load }
    ensures load { result.load ≡ piece.seen + wire.c * piece.length }
    ensures stage { result.stage ≡ 2 * driver.rout * (piece.seen + wire.c * piece.length)
        + wire_delay_of wire.r wire.c piece.length piece.seen }
    ensures delay { result.delay ≡ before + 2 * driver.intrinsic + result.stage }
{
    let load = piece.seen + wire.c * piece.length;
    let output = buffer_delay(driver, load);
    let through = wire_delay(wire, piece.length, piece.seen);
    Reach {
        load,
        delay: before + output + through,
        stage: output - 2 * u128::from(driver.intrinsic) + through,
    }
}

/// What the wire of this number comes to, below this delay.
fn reach_at(drive: &Drive, stands: &[Stand], number: usize, before: u128) -> Reach
    requires drive { IsDriveInRange drive.now }
    requires stands { StandBefore drive.now.root_at stands.now }
    requires number { number ≤ length stands.now }
    requires before { before ≤ max_delay }
    ensures { (i : Parts) → IsDriveOf i drive.now → IsBefore i drive.now.repeater (wires_of drive.now stands.now) number before
        → IsReach i drive.now.repeater (wires_of drive.now stands.now) number result }
{
    let piece = piece_at(drive, stands, number);
    reach_through(drive.wire, driver_of(drive, number), before, piece)
}

/// What the wires of the trunk come to, from the source to the root, with repeaters that stand there. Answers `Beyond` where
/// a delay is over the limit, since delays only grow, and `NoMemory` where an allocation fails.
pub fn reaches_along(alloc: Global, drive: &Drive, stands: &[Stand]) -> Result<Vec<Reach>, TrunkEnd>
    requires drive { IsDriveInRange drive.now }
    requires stands { StandBefore drive.now.root_at stands.now }
    ensures reaches { IfOk result (λ reaches. (i : Parts) → IsDriveOf i drive.now
        → AreReaches i drive.now.repeater (wires_of drive.now stands.now) (length stands.now + 1) reaches.items) }
    ensures end { IfErr result (λ end. (i : Parts) → IsDriveOf i drive.now
        → EndsSums i drive.now.repeater (wires_of drive.now stands.now) (length stands.now) end) }
{
    let mut reaches = Vec::new(alloc);
    let mut delay = 0;
    for number in 0..stands.len() + 1 {
        let reach = reach_at(drive, stands, number, delay);
        if reach.delay > MAX_DELAY {
            return Err(TrunkEnd::Beyond);
        }
        delay = reach.delay;
        reaches.push(reach)?;
    }
    Ok(reaches)
}
