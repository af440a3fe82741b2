//! Doubled delays of wires and buffers, and the slew of a stage.

ghost use Rattle.std.specs.Prelude.{◌≡◌, ◌+◌, ◌*◌, ◌^◌, ◌<◌, ◌≤◌};
ghost use Rattle.cts_units.specs.Delay.{wire_delay_of, buffer_delay_of, slew_of};
ghost use Rattle.cts_units.specs.Limits.{IsWire, IsBuffer, max_load};

use crate::params::{Buffer, Wire};

/// The doubled Elmore delay, in 10^-27 s, of a wire of `length` nm into a load of `load` zF:
/// the wire's resistance into half of its own capacitance and all of the load, taken twice.
///
/// A length may be twice the limit of one wire, since two wires may span a gap.
#[tactic(auto, unfolding(crate::specs::Delay::wire_delay_of))]
#[inline(always)]
pub fn wire_delay(wire: Wire, length: u64, load: u64) -> u128
    requires wire { IsWire wire }
    requires length { length ≤ 2 ^ 32 }
    requires load { load ≤ max_load }
    ensures value { result ≡ wire_delay_of wire.r wire.c length load }
    ensures bound { result ≤ 2 ^ 110 }
{
    delay_into(per_length(wire.r, length), per_length(wire.c, length), load)
}

/// A wire's resistance or capacitance, from that of a unit of its length.
#[inline(always)]
fn per_length(unit: u64, length: u64) -> u64
    requires unit { unit ≤ 10 ^ 6 }
    requires length { length ≤ 2 ^ 32 }
    ensures value { result ≡ unit * length }
    ensures bound { result ≤ 10 ^ 6 * 2 ^ 32 }
{
    unit * length
}

/// The doubled delay of a wire of this resistance and capacitance: its factors have one word each.
#[inline(always)]
fn delay_into(resistance: u64, capacitance: u64, load: u64) -> u128
    requires resistance { resistance ≤ 10 ^ 6 * 2 ^ 32 }
    requires capacitance { capacitance ≤ 10 ^ 6 * 2 ^ 32 }
    requires load { load ≤ max_load }
    ensures value { result ≡ resistance * (capacitance + 2 * load) }
    ensures bound { result ≤ 2 ^ 110 }
{
    u128::from(resistance) * u128::from(capacitance + 2 * load)
}

/// The doubled delay, in 10^-27 s, of a linear buffer that drives a load of `load` zF: its intrinsic
/// delay, and its output resistance into the load, both taken twice.
#[tactic(auto, unfolding(crate::specs::Delay::buffer_delay_of))]
pub fn buffer_delay(buffer: Buffer, load: u64) -> u128
    requires buffer { IsBuffer buffer }
    requires load { load ≤ max_load }
    ensures value { result ≡ buffer_delay_of buffer load }
    ensures bound { result ≤ 2 ^ 118 }
{
    wide_buffer_delay(buffer.intrinsic as u128, buffer.rout as u128, load as u128)
}

#[tactic(auto, using(crate::proofs::BufferDelay::buffer_delay_le))]
fn wide_buffer_delay(intrinsic: u128, resistance: u128, load: u128) -> u128
    requires intrinsic { intrinsic < 10 ^ 18 }
    requires resistance { resistance < 10 ^ 18 }
    requires load { load ≤ max_load }
    ensures value { result ≡ 2 * intrinsic + 2 * resistance * load }
    ensures bound { result ≤ 2 ^ 118 }
{
    2 * intrinsic + 2 * resistance * load
}

/// The slew in 10^-28 s of a stage whose doubled delay is `stage`, in 10^-27 s: eleven tenths
/// of the doubled delay.
pub fn slew_tenths(stage: u128) -> u128
    requires { stage ≤ 2 ^ 120 }
    ensures { result ≡ slew_of stage }
{
    11 * stage
}
