//! Merges worked by hand.

ghost use Rattle.std.specs.Prelude.{◌≡◌, ◌<◌, IfOk};
ghost use Rattle.cts_units.specs.Limits.{IsParams};
ghost use Rattle.cts_merge.specs.Side.{IsMergeable};

use crate::instances::{Metal, sink, with_metal};
use cts_geom::Region;
use cts_merge::{Beyond, Finished, Side, Steps, leaf, merge};
use cts_units::{Buffer, MAX_DELAY, MAX_LOAD, Params, Sink};
use std::alloc::Global;
use std::marker::Brand;
use std::process::Abort;
use std::sync::ledger::{Blank, Ledger};
use std::test::Fail;

/// A side of one point: its greatest doubled delay and its load, which are within the limits, and its place in nm.
type Point = (u128, u64, (u16, u16));

fn side(point: Point) -> Side
    ensures { IsMergeable result }
{
    let (greatest, load, (x, y)) = point;
    let (u, v) = (i64::from(x) + i64::from(y), i64::from(x) - i64::from(y));
    Side {
        greatest: greatest.min(MAX_DELAY),
        load: load.min(MAX_LOAD),
        region: Region {
            u1: u,
            u2: u,
            v1: v,
            v2: v,
        },
    }
}

fn counted<L: Ledger>(blank: Blank, params: &Params, a: &Side, b: &Side) -> Result<Finished, Beyond>
    requires name { blank.name ≡ L.name }
    requires parts { blank.parts ≡ L.parts }
    requires some { 0 < L.parts }
    requires params { IsParams params.now }
    requires a { IsMergeable a.now }
    requires b { IsMergeable b.now }
{
    let mut steps = Steps::<L>::open(blank);
    merge(params, a, b, &mut steps)
}

/// The pair of two sides in an instance with these parameters, whose merge nobody counts.
fn pair(
    alloc: Global,
    metal: &Metal<'_>,
    a: &Side,
    b: &Side,
) -> Result<Result<Finished, Beyond>, Fail>
    requires a { IsMergeable a.now }
    requires b { IsMergeable b.now }
{
    let instance = with_metal(alloc, metal)?;
    Ok(counted::<Brand>(Blank::new(1), instance.params(), a, b))
}

/// Compares the pair of two points with its lengths, its load and its greatest delay,
/// or with `None` for beyond.
fn compare(
    rt: &impl Abort,
    alloc: Global,
    metal: &Metal<'_>,
    a: Point,
    b: Point,
    want: Option<((u32, u32), u64, u128)>,
) -> Result<(), Fail> {
    let got = match pair(alloc, metal, &side(a), &side(b))? {
        Ok(pair) => Some(((pair.ea, pair.eb), pair.side.load, pair.side.greatest)),
        Err(Beyond) => None,
    };
    assert_eq!(rt; got, want);
    Ok(())
}

/// A wire of 1 µΩ and 1 zF per nm.
const UNIT: Metal<'static> = Metal {
    wire: (1, 1),
    buffers: &[],
    insert_at: 0,
};

/// A wire of 1 ohm and 1 fF per um.
const METAL: Metal<'static> = Metal {
    wire: (1000, 1000),
    buffers: &[],
    insert_at: 0,
};

#[test]
fn least_pairs_of_worked_merges(rt: HostRuntime) -> Result<(), Fail> {
    // In nm, zF and 10^-27 s.
    let (alloc, here, east) = (rt.alloc(), (0, 0), (10, 0));
    // The second wire snakes: 27·37 = 999 leaves 1, and 28·38 = 1064 leaves 64.
    let want = Some(((0, 27), 37, 1000));
    compare(&rt, alloc, &UNIT, (1000, 5, here), (0, 5, east), want)?;
    let want = Some(((27, 0), 37, 1000));
    compare(&rt, alloc, &UNIT, (0, 5, here), (1000, 5, east), want)?;
    // (5, 5) gives 75 and 85, (6, 4) would give 96 and 64.
    let want = Some(((5, 5), 21, 85));
    compare(&rt, alloc, &UNIT, (0, 5, here), (0, 6, east), want)?;
    // (2, 3) and (3, 2) leave 15 both.
    let want = Some(((2, 3), 15, 39));
    compare(&rt, alloc, &UNIT, (0, 5, here), (0, 5, (5, 0)), want)
}

#[test]
fn least_pairs_in_um(rt: HostRuntime) -> Result<(), Fail> {
    // 6 um and 4 um, with 96 fs doubled on both sides.
    let (a, b) = ((0, 5_000_000, (0, 0)), (0, 10_000_000, (10_000, 0)));
    let want = Some(((6000, 4000), 25_000_000, 96_000_000_000_000));
    compare(&rt, rt.alloc(), &METAL, a, b, want)?;
    // Two sinks at one place.
    let place = (3000, 4000);
    let (a, b) = ((0, 5_000_000, place), (0, 9_000_000, place));
    compare(&rt, rt.alloc(), &METAL, a, b, Some(((0, 0), 14_000_000, 0)))
}

#[test]
fn pairs_at_the_limits(rt: HostRuntime) -> Result<(), Fail> {
    // A snake into no load has the delay r·L²: (2^31 - 1)² is within the limit, 2^62 is not.
    let (alloc, place) = (rt.alloc(), (0, 0));
    let none = (0, 0, place);
    let near = 4_611_686_014_132_420_609;
    let snake = Some(((0, 2_147_483_647), 2_147_483_647, near));
    compare(&rt, alloc, &UNIT, (near, 0, place), none, snake)?;
    compare(&rt, alloc, &UNIT, (1 << 62, 0, place), none, None)?;
    compare(&rt, alloc, &UNIT, none, (1 << 62, 0, place), None)?;
    compare(&rt, alloc, &UNIT, (1 << 103, 5, place), (0, 5, place), None)
}

#[test]
fn loads_and_delays_at_the_limits(rt: HostRuntime) -> Result<(), Fail> {
    // A load of 2^56 and a delay of 2^104 are within the limits.
    let (alloc, place) = (rt.alloc(), (0, 0));
    let (half, more) = ((0, 1 << 55, place), (0, 36_028_797_018_963_969, place));
    compare(&rt, alloc, &UNIT, half, half, Some(((0, 0), 1 << 56, 0)))?;
    compare(&rt, alloc, &UNIT, half, more, None)?;
    let slow = (1 << 104, 5, place);
    compare(&rt, alloc, &UNIT, slow, slow, Some(((0, 0), 10, 1 << 104)))?;
    compare(&rt, alloc, &UNIT, slow, (1 << 104, 5, (2, 0)), None)
}

#[test]
fn snakes_at_the_limit(rt: HostRuntime) -> Result<(), Fail> {
    // Halfway between 2·(2^31 - 1)² and 2^63 the shorter snake decides, and is within the limit.
    let (double, place) = (Metal::bare(2, 1), (0, 0));
    let halfway = 9_223_372_032_559_808_513;
    let (a, b) = ((halfway, 0, place), (0, 0, place));
    let want = Some(((0, 2_147_483_647), 2_147_483_647, halfway));
    compare(&rt, rt.alloc(), &double, a, b, want)?;
    let more = (9_223_372_032_559_808_514, 0, place);
    compare(&rt, rt.alloc(), &double, more, b, None)
}

/// Compares the region of a pair with its ends in u and v.
fn compare_region(rt: &impl Abort, node: &Finished, ends: (i64, i64, i64, i64)) {
    let region = node.side.region;
    assert_eq!(rt; (region.u1, region.u2, region.v1, region.v2), ends);
}

/// Compares a node with its lengths, its buffer, its load and its greatest delay.
fn compare_node(
    rt: &impl Abort,
    node: &Finished,
    lengths: (u32, u32),
    buffer: Option<u16>,
    load: u64,
    greatest: u128,
) {
    let found = (
        (node.ea, node.eb),
        node.buffer,
        node.side.load,
        node.side.greatest,
    );
    assert_eq!(rt; found, (lengths, buffer, load, greatest));
}

#[test]
fn merging_region_of_a_worked_pair(rt: HostRuntime) -> Result<(), Fail> {
    // (0, 0) and (6, 4) in um with 5 fF each: the segment from (1, 4) to (5, 0).
    let a = side((0, 5_000_000, (0, 0)));
    let b = side((0, 5_000_000, (6000, 4000)));
    let node = pair(rt.alloc(), &METAL, &a, &b)??;
    let greatest = 75_000_000_000_000;
    compare_node(&rt, &node, (5000, 5000), None, 20_000_000, greatest);
    compare_region(&rt, &node, (5000, 5000, -3000, 5000));
    Ok(())
}

/// The leaf of a sink of 5 fF on the x axis.
fn leaf_at(id: u32, x: u16) -> Finished
    ensures { IsMergeable result.side }
{
    leaf(&sink(id, i64::from(x), 0, 5_000_000))
}

/// Compares the pair of two sinks of 5 fF, 10 um apart, with a buffer of 3 fF and 1 ohm above a load.
fn compare_buffered(
    rt: &impl Abort,
    alloc: Global,
    insert_at: u64,
    buffer: Option<u16>,
    load: u64,
    greatest: u128,
) -> Result<(), Fail> {
    let strong = Buffer {
        cin: 3_000_000,
        rout: 1_000_000,
        intrinsic: 0,
    };
    let metal = Metal {
        buffers: &[strong],
        insert_at,
        ..METAL
    };
    let (a, b) = (leaf_at(1, 0), leaf_at(2, 10_000));
    let node = pair(alloc, &metal, &a.side, &b.side)??;
    compare_node(rt, &node, (5000, 5000), buffer, load, greatest);
    Ok(())
}

#[test]
fn leaves_and_buffers_of_worked_pairs(rt: HostRuntime) -> Result<(), Fail> {
    let alloc = rt.alloc();
    compare_node(&rt, &leaf_at(1, 0), (0, 0), None, 5_000_000, 0);
    compare_node(&rt, &leaf_at(2, 10_000), (0, 0), None, 5_000_000, 0);
    // A threshold below the load of 20 fF, and at it.
    let slow = 115_000_000_000_000;
    compare_buffered(&rt, alloc, 15_000_000, Some(0), 3_000_000, slow)?;
    let fast = 75_000_000_000_000;
    compare_buffered(&rt, alloc, 20_000_000, None, 20_000_000, fast)
}

/// The leaf of a sink of 5 zF on the x axis, with the offset that it wants in 10^-27 s.
fn early_leaf_at(x: u16, offset: u64) -> Finished
    ensures { IsMergeable result.side }
{
    leaf(&Sink {
        offset,
        ..sink(1, i64::from(x), 0, 5)
    })
}

#[test]
fn offsets_come_to_the_delays_of_leaves(rt: HostRuntime) -> Result<(), Fail> {
    // In nm, zF and 10^-27 s: 2·40 + 3·(3 + 10) = 119, and 7·(7 + 10) = 119.
    let (early, plain) = (early_leaf_at(0, 40), early_leaf_at(10, 0));
    compare_node(&rt, &early, (0, 0), None, 5, 80);
    compare_node(&rt, &plain, (0, 0), None, 5, 0);
    let node = pair(rt.alloc(), &UNIT, &early.side, &plain.side)??;
    compare_node(&rt, &node, (3, 7), None, 20, 119);
    Ok(())
}

#[test]
fn slow_buffer_puts_the_next_pair_beyond(rt: HostRuntime) -> Result<(), Fail> {
    // 1,000,000 ohm into 20.001 fF: the third sink would need a snake of some 6.3·10^9 nm.
    let buffer = Buffer {
        cin: 1_000_000,
        rout: 1_000_000_000_000,
        intrinsic: 0,
    };
    let slow = Metal {
        buffers: &[buffer],
        insert_at: 15_000_000,
        ..UNIT
    };
    let first = side((0, 10_000_000, (0, 0)));
    let second = side((0, 10_000_000, (1000, 0)));
    let node = pair(rt.alloc(), &slow, &first, &second)??;
    let greatest = 40_002_000_010_000_250_000;
    compare_node(&rt, &node, (500, 500), Some(0), 1_000_000, greatest);
    compare_region(&rt, &node, (500, 500, 500, 500));
    let below = (40_002_000_010_000_250_000, 1_000_000, (500, 0));
    compare(
        &rt,
        rt.alloc(),
        &slow,
        below,
        (0, 5_000_000, (5000, 0)),
        None,
    )
}
