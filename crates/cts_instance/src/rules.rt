//! The rules of the lines of an instance, as tests of one line each.

ghost use Rattle.std.specs.Prelude.{◌≡◌, not};
ghost use Rattle.std.specs.List.{list_all};
ghost use Rattle.cts_instance.specs.Tests.{is_between, is_strictly_between, is_side, is_die, is_in_die, is_inside, is_bounded, is_wire, is_limits, is_buffer, is_offset, is_sink, is_upright, is_block_in_die, has_room, is_empty, is_clear};

use crate::counts::BlockCounts;
use crate::version::Version;
use cts_block::{Block, Kind};
use cts_geom::Die;
use cts_units::{Buffer, MAX_CAPACITANCE, MAX_COORDINATE, MAX_ID, Sink, Wire};

/// Where numbers without a limit of their own end, in their unit.
const NUMBER_END: u64 = 1_000_000_000_000_000_000;

/// The greatest resistance in µΩ and capacitance in zF of one nm of wire.
const MAX_WIRE: u64 = 1_000_000;

/// The most blocks of kind `Buffer`.
pub const MAX_BUFFER_BLOCKS: u32 = 4_096;

/// The most blocks of kind `All`.
pub const MAX_ALL_BLOCKS: u32 = 64;

#[tactic(auto, unfolding(crate::specs::Tests::is_between))]
fn is_between(low: i64, high: i64, z: i64) -> bool
    ensures { result ≡ is_between low high z }
{
    low <= z && z <= high
}

#[tactic(auto, unfolding(crate::specs::Tests::is_strictly_between))]
fn is_strictly_between(low: i64, high: i64, z: i64) -> bool
    ensures { result ≡ is_strictly_between low high z }
{
    low < z && z < high
}

#[tactic(auto, unfolding(crate::specs::Tests::is_side))]
fn is_side(low: i64, high: i64) -> bool
    ensures { result ≡ is_side low high }
{
    is_between(0, high, low) && high <= MAX_COORDINATE
}

/// The sides of the die are from 0 to 10^8 nm, and their ends are in order.
#[tactic(auto, unfolding(crate::specs::Tests::is_die))]
pub fn is_die(die: &Die) -> bool
    ensures { result ≡ is_die die.now }
{
    is_side(die.x1, die.x2) && is_side(die.y1, die.y2)
}

/// The point (x, y) lies in the die or on its edges.
#[tactic(auto, unfolding(crate::specs::Tests::is_in_die))]
pub fn is_in_die(die: &Die, x: i64, y: i64) -> bool
    ensures { result ≡ is_in_die die.now x y }
{
    is_between(die.x1, die.x2, x) && is_between(die.y1, die.y2, y)
}

/// The point (x, y) lies in the block and off its edges.
#[tactic(auto, unfolding(crate::specs::Tests::is_inside))]
pub fn is_inside(block: &Block, x: i64, y: i64) -> bool
    ensures { result ≡ is_inside block.now x y }
{
    is_strictly_between(block.x1, block.x2, x) && is_strictly_between(block.y1, block.y2, y)
}

/// A number without a limit of its own is below 10^18 of its unit.
pub fn is_bounded(number: u64) -> bool
    ensures { result ≡ is_bounded number }
{
    number < NUMBER_END
}

/// The resistance in µΩ and the capacitance in zF of one nm of wire are from 1 to 10^6.
#[tactic(auto, unfolding(crate::specs::Tests::is_wire))]
pub fn is_wire(wire: Wire) -> bool
    ensures { result ≡ is_wire wire }
{
    1 <= wire.r && wire.r <= MAX_WIRE && 1 <= wire.c && wire.c <= MAX_WIRE
}

/// The insertion threshold, the load limit and the slew limit are below 10^18 of their units.
#[tactic(auto, unfolding(crate::specs::Tests::is_limits))]
pub fn is_limits(insert_at: u64, load: u64, slew: u64) -> bool
    ensures { result ≡ is_limits insert_at load slew }
{
    is_bounded(insert_at) && is_bounded(load) && is_bounded(slew)
}

/// The input capacitance is at most 10^12 zF; the resistance and the delay are below 10^18.
#[tactic(auto, unfolding(crate::specs::Tests::is_buffer))]
pub fn is_buffer(buffer: &Buffer) -> bool
    ensures { result ≡ is_buffer buffer.now }
{
    buffer.cin <= MAX_CAPACITANCE && is_bounded(buffer.rout) && is_bounded(buffer.intrinsic)
}

/// An offset, in 10^-27 s, is below 10^18, and 0 in version 1.
#[tactic(auto, unfolding(crate::specs::Tests::is_offset))]
fn is_offset(version: Version, offset: u64) -> bool
    ensures { result ≡ is_offset version offset }
{
    match version {
        Version::One => offset == 0,
        Version::Two => is_bounded(offset),
    }
}

/// The id is at most 999,999,999, the capacitance at most 10^12 zF, and the offset one of the version.
#[tactic(auto, unfolding(crate::specs::Tests::is_sink))]
pub fn is_sink(version: Version, sink: &Sink) -> bool
    ensures { result ≡ is_sink version sink.now }
{
    sink.id <= MAX_ID && sink.cap <= MAX_CAPACITANCE && is_offset(version, sink.offset)
}

/// The first corner is the lower left one and the second the upper right one, or they share a side.
#[tactic(auto, unfolding(crate::specs::Tests::is_upright))]
pub fn is_upright(block: &Block) -> bool
    ensures { result ≡ is_upright block.now }
{
    block.x1 <= block.x2 && block.y1 <= block.y2
}

/// Both corners of the block lie in the die.
#[tactic(auto, unfolding(crate::specs::Tests::is_block_in_die))]
pub fn is_block_in_die(die: &Die, block: &Block) -> bool
    ensures { result ≡ is_block_in_die die.now block.now }
{
    is_in_die(die, block.x1, block.y1) && is_in_die(die, block.x2, block.y2)
}

/// The blocks before this one leave room for another of its kind.
#[tactic(auto, unfolding(crate::specs::Tests::has_room))]
pub fn has_room(counts: BlockCounts, kind: Kind) -> bool
    ensures { result ≡ has_room counts kind }
{
    match kind {
        Kind::Buffer => counts.buffer < MAX_BUFFER_BLOCKS,
        Kind::All => counts.all < MAX_ALL_BLOCKS,
    }
}

fn has_no_sink_inside(block: &Block, sinks: &[Sink]) -> bool
    ensures { result ≡ list_all (λ sink. not (is_inside block.now sink.x sink.y)) sinks.now }
{
    sinks.iter().all(|sink| !is_inside(block, sink.x, sink.y))
}

#[tactic(auto, unfolding(crate::specs::Tests::is_empty))]
fn is_empty(block: &Block, x: i64, y: i64, sinks: &[Sink]) -> bool
    ensures { result ≡ is_empty x y sinks.now block.now }
{
    !is_inside(block, x, y) && has_no_sink_inside(block, sinks)
}

/// A block of kind `All` has neither the source nor a sink strictly inside.
#[tactic(auto, unfolding(crate::specs::Tests::is_clear))]
pub fn is_clear(block: &Block, x: i64, y: i64, sinks: &[Sink]) -> bool
    ensures { result ≡ is_clear x y sinks.now block.now }
{
    match block.kind {
        Kind::Buffer => true,
        Kind::All => is_empty(block, x, y, sinks),
    }
}
