//! Routes around blocks and with one bend, and a pocket that no route leads into.

ghost use Rattle.cts_geom.specs.Points.{IsSpotInRange};

use crate::instances::{Given, instance, sink};
use cts_block::{Block, Kind};
use cts_geom::{Half, Spot};
use cts_instance::Instance;
use cts_route::{Grid, RouteEnd, route};
use cts_tree::Route;
use std::alloc::Global;
use std::process::Abort;
use std::test::Fail;

/// A wall, in um.
pub(crate) fn wall(x1: u8, y1: u8, x2: u8, y2: u8) -> Block {
    Block {
        kind: Kind::All,
        x1: i64::from(x1) * 1_000,
        y1: i64::from(y1) * 1_000,
        x2: i64::from(x2) * 1_000,
        y2: i64::from(y2) * 1_000,
    }
}

/// These walls on a die of 20 um by 20 um.
fn walled(alloc: Global, walls: &[Block]) -> Result<Instance, Fail> {
    let sinks = [sink(1, 0, 0, 1)];
    let given = Given {
        blocks: walls,
        ..Given::of(20_000, 1, &sinks)
    };
    instance(alloc, &given)
}

/// The place (u, v).
fn spot(at: (i32, i32)) -> Spot
    ensures { IsSpotInRange result }
{
    let (u, v) = at;
    Spot {
        u: i64::from(u),
        v: i64::from(v),
    }
}

/// The place of a point in um, as (u, v).
fn um(x: i16, y: i16) -> (i32, i32) {
    let (x, y) = (i32::from(x) * 1_000, i32::from(y) * 1_000);
    (x + y, x - y)
}

/// A corner in half nm.
fn half(x: i64, y: i64) -> Half {
    Half { x, y }
}

/// The route between two places among walls.
fn route_among(
    alloc: Global,
    walls: &[Block],
    from: (i32, i32),
    to: (i32, i32),
) -> Result<Route, Fail> {
    let walled = walled(alloc, walls)?;
    let die = walled.die();
    Ok(route(alloc, walled.blocks(), &die, spot(from), spot(to))?)
}

/// Compares the route between two places among walls: its length and its corners.
fn compare(
    rt: &impl Abort,
    alloc: Global,
    walls: &[Block],
    ends: ((i32, i32), (i32, i32)),
    length: u64,
    corners: &[Half],
) -> Result<(), Fail> {
    let found = route_among(alloc, walls, ends.0, ends.1)?;
    assert_eq!(rt; (found.length, found.corners.items()), (length, corners));
    Ok(())
}

#[test]
fn goes_round_a_block(rt: HostRuntime) -> Result<(), Fail> {
    // From (0, 5) to (10, 5) um by (4, 5), (4, 2) and (10, 2), 16 um in all. The second list has a
    // block below, whose edge y = 2 is free.
    let ends = (um(0, 5), um(10, 5));
    let corners = [half(8_000, 10_000), half(8_000, 4_000), half(20_000, 4_000)];
    let one = [wall(4, 2, 6, 9)];
    compare(&rt, rt.alloc(), &one, ends, 16_000, &corners)?;
    let two = [wall(4, 2, 6, 9), wall(4, 0, 6, 2)];
    compare(&rt, rt.alloc(), &two, ends, 16_000, &corners)
}

#[test]
fn looks_past_the_first_windows(rt: HostRuntime) -> Result<(), Fail> {
    // Between two walls, of which one leaves a gap at the top and one at the bottom: along the die's edge.
    let two = [wall(4, 0, 5, 18), wall(8, 2, 9, 20)];
    let corners = [half(8_000, 10_000), half(8_000, 0), half(24_000, 0)];
    compare(
        &rt,
        rt.alloc(),
        &two,
        (um(2, 5), um(12, 5)),
        20_000,
        &corners,
    )?;
    // Both ways round the first wall are as long, and the one to the north is preferred. It has more
    // lines on its side.
    let lines = [
        wall(4, 1, 6, 15),
        wall(12, 9, 13, 10),
        wall(12, 11, 13, 12),
        wall(12, 13, 13, 14),
    ];
    let corners = [
        half(8_000, 16_000),
        half(8_000, 30_000),
        half(20_000, 30_000),
    ];
    compare(
        &rt,
        rt.alloc(),
        &lines,
        (um(0, 8), um(10, 8)),
        24_000,
        &corners,
    )
}

/// Why a grid of the walls has no route from one place to another one.
fn end_on_grid(
    alloc: Global,
    walls: &[Block],
    from: (i32, i32),
    to: (i32, i32),
) -> Result<Option<RouteEnd>, Fail> {
    let walled = walled(alloc, walls)?;
    let grid = Grid::of(alloc, walled.blocks(), &walled.die())?;
    Ok(grid.route(alloc, spot(from), spot(to)).err())
}

#[test]
fn finds_no_way_into_a_pocket(rt: HostRuntime) -> Result<(), Fail> {
    let pocket = [
        wall(7, 7, 9, 13),
        wall(11, 7, 13, 13),
        wall(7, 7, 13, 9),
        wall(7, 11, 13, 13),
    ];
    let end = end_on_grid(rt.alloc(), &pocket, um(0, 5), um(10, 10))?;
    assert_eq!(rt; end, Some(RouteEnd::Cut));
    Ok(())
}

#[test]
fn bends_once_where_it_is_clear(rt: HostRuntime) -> Result<(), Fail> {
    compare(
        &rt,
        rt.alloc(),
        &[],
        (um(0, 0), um(3, 4)),
        7_000,
        &[half(6_000, 0)],
    )?;
    // Equal ends, and ends at half nm: (0.5, 1.5) and (2.5, 0.5).
    compare(&rt, rt.alloc(), &[], ((5, 6), (5, 6)), 0, &[])?;
    compare(&rt, rt.alloc(), &[], ((2, -1), (3, 2)), 3, &[half(5, 3)])
}
