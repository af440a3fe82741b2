//! Points that blocks leave free.

ghost use Rattle.std.specs.Prelude.{◌↔◌, ◌^◌, pos, ◌+ℤ◌, ◌*ℤ◌, ◌≤ℤ◌, All, IsTrue};
ghost use Rattle.cts_geom.specs.Points.{IsSpotInRange, point_of};
ghost use Rattle.cts_block.specs.FreePoints.{IsPointInRange, IsBetween, IsStrictlyBetween, IsHalfInDie, IsHalfInside, IsFreeForWire, IsFreeForBuffer, IsOpenToWires, IsOpenToBuffers};

use crate::blocks::Block;
use cts_geom::{Die, Half, Spot, halves};

/// Whole nm, of a number of half nm rounded down.
pub fn rounded_down(halves: i64) -> i64
    ensures low { (pos 2 *ℤ result) ≤ℤ halves }
    ensures high { halves ≤ℤ (pos 2 *ℤ result +ℤ pos 1) }
{
    halves.div_euclid(2)
}

/// Whole nm, of a number of half nm rounded up.
pub fn rounded_up(halves: i64) -> i64
    requires { halves ≤ℤ pos (2 ^ 41) }
    ensures low { (pos 2 *ℤ result) ≤ℤ (halves +ℤ pos 1) }
    ensures high { halves ≤ℤ (pos 2 *ℤ result) }
{
    (halves + 1).div_euclid(2)
}

// The bounds are rounded and not doubled, since they may be any numbers.
fn is_between(low: i64, high: i64, halves: i64) -> bool
    requires { halves ≤ℤ pos (2 ^ 41) }
    ensures { IsTrue result ↔ IsBetween low high halves }
{
    low <= rounded_down(halves) && rounded_up(halves) <= high
}

fn is_strictly_between(low: i64, high: i64, halves: i64) -> bool
    requires { halves ≤ℤ pos (2 ^ 41) }
    ensures { IsTrue result ↔ IsStrictlyBetween low high halves }
{
    low < rounded_up(halves) && rounded_down(halves) < high
}

/// Whether the point lies in the closed die.
pub fn is_half_in_die(die: &Die, point: Half) -> bool
    requires { IsPointInRange point }
    ensures { IsTrue result ↔ IsHalfInDie die.now point }
{
    is_between(die.x1, die.x2, point.x) && is_between(die.y1, die.y2, point.y)
}

/// Whether a point in half nm lies in the inside of a block.
pub fn is_half_inside(block: &Block, point: Half) -> bool
    requires { IsPointInRange point }
    ensures { IsTrue result ↔ IsHalfInside block.now point }
{
    is_strictly_between(block.x1, block.x2, point.x)
        && is_strictly_between(block.y1, block.y2, point.y)
}

fn is_open_to_wires(block: &Block, point: Half) -> bool
    requires { IsPointInRange point }
    ensures { IsTrue result ↔ IsOpenToWires point block.now }
{
    !block.kind.stops_wires() || !is_half_inside(block, point)
}

fn is_open_to_buffers(block: &Block, point: Half) -> bool
    requires { IsPointInRange point }
    ensures { IsTrue result ↔ IsOpenToBuffers point block.now }
{
    !is_half_inside(block, point)
}

/// Whether all of the blocks let a wire through the point.
fn are_open_to_wires(blocks: &[Block], point: Half) -> bool
    requires { IsPointInRange point }
    ensures { IsTrue result ↔ All (IsOpenToWires point) blocks.now }
{
    blocks.iter().all(|block| is_open_to_wires(block, point))
}

/// Whether none of the blocks keeps a buffer from the point.
fn are_open_to_buffers(blocks: &[Block], point: Half) -> bool
    requires { IsPointInRange point }
    ensures { IsTrue result ↔ All (IsOpenToBuffers point) blocks.now }
{
    blocks.iter().all(|block| is_open_to_buffers(block, point))
}

/// Whether a wire may run through this point.
///
/// It may where the point lies in the closed die and strictly inside no block of kind `All`.
pub fn free_for_wire(blocks: &[Block], die: &Die, at: Spot) -> bool
    requires { IsSpotInRange at }
    ensures { IsTrue result ↔ IsFreeForWire blocks.now die.now (point_of at) }
{
    let point = halves(at);
    is_half_in_die(die, point) && are_open_to_wires(blocks, point)
}

/// Whether a buffer may stand at this point.
///
/// It may where the point lies in the closed die and strictly inside no block of either kind.
pub fn free_for_buffer(blocks: &[Block], die: &Die, at: Spot) -> bool
    requires { IsSpotInRange at }
    ensures { IsTrue result ↔ IsFreeForBuffer blocks.now die.now (point_of at) }
{
    let point = halves(at);
    is_half_in_die(die, point) && are_open_to_buffers(blocks, point)
}
