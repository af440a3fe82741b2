//! Both ways to the nearest free point, on worked places and beside a scan of a whole die.

ghost use Rattle.std.specs.Prelude.{◌^◌, ◌≤ℤ◌, pos, All, IsTrue};
ghost use Rattle.cts_geom.specs.Points.{IsSpotInRange};
ghost use Rattle.cts_block.specs.NearestFree.{IsDieInRange, LiesIn};

use crate::blocks::block;
use cts_block::{Block, FreeMap, Kind, free_for_buffer, free_for_wire, nearest_free};
use cts_geom::{Die, Spot, distance, spot_of};
use std::alloc::Global;
use std::process::Abort;
use std::test::Fail;

const SIDE: u8 = 8;

fn lies_in(die: &Die, block: &Block) -> bool
    ensures { IsTrue result → LiesIn die.now block.now }
{
    if block.x1 < die.x1 {
        return false;
    }
    if die.x2 < block.x1 {
        return false;
    }
    if block.y1 < die.y1 {
        return false;
    }
    if die.y2 < block.y1 {
        return false;
    }
    if block.x2 < die.x1 {
        return false;
    }
    if die.x2 < block.x2 {
        return false;
    }
    if block.y2 < die.y1 {
        return false;
    }
    if die.y2 < block.y2 {
        return false;
    }
    true
}

fn all_lie_in(die: &Die, blocks: &[Block]) -> bool
    ensures { IsTrue result → All (LiesIn die.now) blocks.now }
{
    blocks.iter().all(|block| lies_in(die, block))
}

/// A die from (0, 0) on.
fn die_up_to(side: u8) -> Die
    ensures { IsDieInRange result }
{
    Die {
        x1: 0,
        y1: 0,
        x2: i64::from(side),
        y2: i64::from(side),
    }
}

fn free_at(blocks: &[Block], die: &Die, at: Spot, buffered: bool) -> bool
    requires { IsSpotInRange at }
{
    if buffered {
        free_for_buffer(blocks, die, at)
    } else {
        free_for_wire(blocks, die, at)
    }
}

/// The place itself where it is free, else the first free point that a scan meets at the least
/// distance.
fn scanned(blocks: &[Block], die: &Die, at: Spot, buffered: bool) -> Spot
    requires { IsSpotInRange at }
{
    if free_at(blocks, die, at, buffered) {
        return at;
    }
    let mut first = at;
    let mut least = u64::MAX;
    for x in 0..=SIDE {
        for y in 0..=SIDE {
            let spot = spot_of(i64::from(x), i64::from(y));
            if free_at(blocks, die, spot, buffered) && distance(at, spot) < least {
                first = spot;
                least = distance(at, spot);
            }
        }
    }
    first
}

/// Where both ways move a place, which stays exactly where it is free.
fn moves(
    rt: &impl Abort,
    map: &FreeMap,
    blocks: &[Block],
    die: &Die,
    from: Spot,
    buffered: bool,
    to: Spot,
)
    requires die { IsDieInRange die.now }
    requires blocks { All (LiesIn die.now) blocks.now }
    requires from { IsSpotInRange from }
{
    let found = (
        nearest_free(blocks, die, from, buffered),
        map.nearest_free(from, buffered),
        map.is_free(from, buffered),
    );
    assert_eq!(rt; (from, found), (from, (to, to, from == to)));
}

/// A spot from its u and v.
fn spot(at: (i8, i8)) -> Spot
    ensures { IsSpotInRange result }
{
    let (u, v) = at;
    Spot {
        u: i64::from(u),
        v: i64::from(v),
    }
}

/// What moves on a die among blocks: a place, as (u, v), for a buffer or for wires alone, to another place.
type Move = ((i8, i8), bool, (i8, i8));

/// Compares where both ways move places.
fn compare_moves(
    rt: &impl Abort,
    alloc: Global,
    side: u8,
    blocks: &[Block],
    rows: &[Move],
) -> Result<(), Fail> {
    let die = die_up_to(side);
    assert!(rt; all_lie_in(&die, blocks));
    let map = FreeMap::of(alloc, blocks, &die)?;
    for (from, buffered, to) in rows {
        moves(rt, &map, blocks, &die, spot(*from), *buffered, spot(*to));
    }
    Ok(())
}

#[test]
fn move_worked_places(rt: HostRuntime) -> Result<(), Fail> {
    let square = [block(Kind::All, 1, 1, 4, 4)];
    // The centre moves to (1, 2); a corner of the block is free.
    let (centre, edge, corner) = ((5, 0), (3, -1), (5, -3));
    let rows = [
        (centre, true, edge),
        (centre, false, edge),
        (corner, true, corner),
        (corner, false, corner),
    ];
    compare_moves(&rt, rt.alloc(), 5, &square, &rows)
}

#[test]
fn move_a_buffer_out_of_its_block(rt: HostRuntime) -> Result<(), Fail> {
    let blocks = [block(Kind::Buffer, 2, 2, 8, 9)];
    // (2, 5), (5, 2) and (8, 5) are all 3 away from (5, 5).
    let (middle, west) = ((10, 0), (7, -3));
    let rows = [
        (middle, true, west),
        (middle, false, middle),
        (west, true, west),
    ];
    compare_moves(&rt, rt.alloc(), 20, &blocks, &rows)
}

/// The point (x, y), or half a nm beyond it in x and y.
fn place(x: u8, y: u8, half: u8) -> Spot
    ensures { IsSpotInRange result }
{
    Spot {
        u: i64::from(x) + i64::from(y) + i64::from(half),
        v: i64::from(x) - i64::from(y),
    }
}

/// Compares both ways with a scan from one place.
fn compare_at(rt: &impl Abort, map: &FreeMap, blocks: &[Block], die: &Die, at: Spot, buffered: bool)
    requires die { IsDieInRange die.now }
    requires blocks { All (LiesIn die.now) blocks.now }
    requires at { IsSpotInRange at }
{
    let to = scanned(blocks, die, at, buffered);
    let found = (
        nearest_free(blocks, die, at, buffered),
        map.nearest_free(at, buffered),
    );
    assert_eq!(rt; (at, found), (at, (to, to)));
}

/// Compares both ways with a scan from each point of the die and from those half a nm beyond.
fn compare_with_scan(rt: &impl Abort, map: &FreeMap, blocks: &[Block], die: &Die, buffered: bool)
    requires die { IsDieInRange die.now }
    requires blocks { All (LiesIn die.now) blocks.now }
{
    for x in 0..=SIDE {
        for y in 0..=SIDE {
            compare_at(rt, map, blocks, die, place(x, y, 0), buffered);
            compare_at(rt, map, blocks, die, place(x, y, 1), buffered);
        }
    }
}

/// Compares both ways with scans, for a buffer and for wires alone.
fn compare_with_scans(rt: &impl Abort, alloc: Global, blocks: &[Block]) -> Result<(), Fail> {
    let die = die_up_to(SIDE);
    assert!(rt; all_lie_in(&die, blocks));
    let map = FreeMap::of(alloc, blocks, &die)?;
    compare_with_scan(rt, &map, blocks, &die, false);
    compare_with_scan(rt, &map, blocks, &die, true);
    Ok(())
}

#[test]
fn agree_with_scans_of_a_die(rt: HostRuntime) -> Result<(), Fail> {
    let nested = [
        block(Kind::Buffer, 0, 0, 8, 8),
        block(Kind::All, 2, 3, 7, 5),
        block(Kind::All, 0, 3, 0, 5),
    ];
    let crossing = [
        block(Kind::All, 1, 1, 5, 6),
        block(Kind::Buffer, 3, 2, 8, 7),
        block(Kind::All, 4, 0, 6, 8),
    ];
    let touching = [
        block(Kind::Buffer, 0, 0, 4, 8),
        block(Kind::Buffer, 4, 0, 8, 8),
        block(Kind::All, 7, 1, 2, 7),
    ];
    compare_with_scans(&rt, rt.alloc(), &nested)?;
    compare_with_scans(&rt, rt.alloc(), &crossing)?;
    compare_with_scans(&rt, rt.alloc(), &touching)
}
