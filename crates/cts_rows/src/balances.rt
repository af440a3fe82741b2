//! Balances worked by hand.

ghost use Rattle.cts_merge.specs.Side.{IsSideInRange};

use crate::instances::{Metal, with_metal};
use cts_geom::Region;
use cts_merge::{Side, choose};
use std::alloc::Global;
use std::process::Abort;
use std::test::Fail;

/// A side by its greatest doubled delay and its load. Its region has no part in a balance or a length.
pub(crate) fn side(greatest: u16, load: u32) -> Side
    ensures { IsSideInRange result }
{
    Side {
        greatest: u128::from(greatest),
        load: u64::from(load),
        region: Region {
            u1: 0,
            u2: 0,
            v1: 0,
            v2: 0,
        },
    }
}

/// A side by its greatest doubled delay and its load, and the length of the route to it.
type Arm = ((u16, u32), u64);

/// Compares the lengths that balance two sides, by what a nm of wire has, or `None` for beyond.
fn balances(
    rt: &impl Abort,
    alloc: Global,
    unit: u64,
    a: Arm,
    b: Arm,
    lengths: Option<(u64, u64)>,
) -> Result<(), Fail> {
    let instance = with_metal(alloc, &Metal::bare(unit, unit))?;
    let (first, second) = (side(a.0.0, a.0.1), side(b.0.0, b.0.1));
    let found = choose(instance.params(), &first, a.1, &second, b.1).ok();
    assert_eq!(rt; found, lengths);
    Ok(())
}

#[test]
fn lengths_of_worked_pairs(rt: HostRuntime) -> Result<(), Fail> {
    let (alloc, light) = (rt.alloc(), (0, 5));
    // (3, 3) has 39 on both sides, where (2, 3) has 24 and 39.
    balances(&rt, alloc, 1, (light, 2), (light, 3), Some((3, 3)))?;
    balances(&rt, alloc, 1, (light, 3), (light, 2), Some((3, 3)))?;
    // (5, 5) leaves 10, and (6, 5) would leave 11.
    balances(&rt, alloc, 1, (light, 5), ((0, 6), 5), Some((5, 5)))?;
    // The first side waits for 1000: 27·37 = 999.
    balances(&rt, alloc, 1, (light, 10), ((1000, 5), 0), Some((27, 0)))?;
    // Routes of 2 um and 8 um, with 1 ohm and 1 fF per um.
    let (near, far) = (((0, 5_000_000), 2000), ((0, 5_000_000), 8000));
    balances(&rt, alloc, 1000, near, far, Some((8000, 8000)))
}

#[test]
fn lengths_at_the_limit_of_a_wire(rt: HostRuntime) -> Result<(), Fail> {
    let (alloc, light, limit) = (rt.alloc(), (0, 5), 2_147_483_647);
    let longest = Some((limit, limit));
    balances(&rt, alloc, 1, (light, limit), (light, limit), longest)?;
    balances(&rt, alloc, 1, (light, 2_147_483_648), (light, 0), None)?;
    balances(&rt, alloc, 1, (light, 0), (light, u64::MAX), None)?;
    balances(&rt, alloc, 1, (light, limit), ((0, 4), limit), None)
}
