//! Plans of a few sinks.

ghost use Rattle.std.specs.Prelude.{◌≡◌, ◌<◌, length, IfOk};
ghost use Rattle.cts_up.specs.Plan.{IsPlan};
ghost use Rattle.cts_topo.specs.Shape.{IsShapeOver};

use crate::instances::{Given, instance, sink};
use cts_instance::Instance;
use cts_merge::{Finished, Steps};
use cts_topo::{Shape, topology};
use cts_units::Buffer;
use cts_up::{UpEnd, up};
use std::alloc::Global;
use std::marker::Brand;
use std::process::Abort;
use std::sync::ledger::{Blank, Ledger};
use std::test::Fail;

fn counted<L: Ledger>(
    alloc: Global,
    blank: Blank,
    instance: &Instance,
    shape: &Shape,
) -> Result<Vec<Finished>, UpEnd>
    requires name { blank.name ≡ L.name }
    requires parts { blank.parts ≡ L.parts }
    requires some { 0 < L.parts }
    requires shape { IsShapeOver (length instance.now.sinks) shape.now }
    ensures { IfOk result (λ plan. IsPlan instance.now.params instance.now.sinks shape.now plan.items) }
{
    let mut steps = Steps::<L>::open(blank);
    up(
        alloc,
        instance.params(),
        instance.sinks(),
        shape,
        &mut steps,
    )
}

/// The plan of an instance over a shape, whose merges nobody counts.
pub(crate) fn plan_of(
    alloc: Global,
    instance: &Instance,
    shape: &Shape,
) -> Result<Vec<Finished>, UpEnd>
    requires { IsShapeOver (length instance.now.sinks) shape.now }
    ensures { IfOk result (λ plan. IsPlan instance.now.params instance.now.sinks shape.now plan.items) }
{
    counted::<Brand>(alloc, Blank::new(1), instance, shape)
}

/// The plan over the topology of an instance, or why there is none.
fn planned(alloc: Global, given: &Given<'_>) -> Result<Result<Vec<Finished>, UpEnd>, Fail> {
    let instance = instance(alloc, given)?;
    let shape = topology(alloc, instance.sinks())?;
    Ok(plan_of(alloc, &instance, &shape))
}

/// What a row says of a node: its greatest doubled delay and its load, the lengths of its wires, its buffer, and the
/// ends of its region in u and v.
type Row = ((u128, u64), (u32, u32), Option<u16>, (i64, i64, i64, i64));

fn compare(rt: &impl Abort, node: &Finished, row: Row) {
    let (side, region) = (node.side, node.side.region);
    let found = (
        (side.greatest, side.load),
        (node.ea, node.eb),
        node.buffer,
        (region.u1, region.u2, region.v1, region.v2),
    );
    assert_eq!(rt; found, row);
}

/// Compares all nodes of the plan of an instance.
fn compare_all(
    rt: &impl Abort,
    alloc: Global,
    given: &Given<'_>,
    rows: &[Row],
) -> Result<(), Fail> {
    let plan = planned(alloc, given)??;
    assert_eq!(rt; plan.len(), rows.len());
    for (node, row) in plan.iter().zip(rows) {
        compare(rt, node, *row);
    }
    Ok(())
}

#[test]
fn plan_of_two_sinks(rt: HostRuntime) -> Result<(), Fail> {
    // 6 um and 4 um, with 96 fs doubled on both sides.
    let sinks = [sink(1, 0, 0, 5_000_000), sink(2, 10_000, 0, 10_000_000)];
    let given = Given::of(20_000, 1000, &sinks);
    let (first, second) = ((0, 5_000_000), (0, 10_000_000));
    let (both, east) = ((96_000_000_000_000, 25_000_000), 10_000);
    let rows = [
        (first, (0, 0), None, (0, 0, 0, 0)),
        (second, (0, 0), None, (east, east, east, east)),
        (both, (6000, 4000), None, (6000, 6000, 6000, 6000)),
    ];
    compare_all(&rt, rt.alloc(), &given, &rows)
}

#[test]
fn plan_with_a_buffer(rt: HostRuntime) -> Result<(), Fail> {
    // 5 um on both sides: the load of 20 fF is above 15 fF, and the buffer adds 40 fs doubled to 75.
    let sinks = [sink(1, 0, 0, 5_000_000), sink(2, 10_000, 0, 5_000_000)];
    let buffer = Buffer {
        cin: 3_000_000,
        rout: 1_000_000,
        intrinsic: 0,
    };
    let given = Given {
        buffers: &[buffer],
        insert_at: 15_000_000,
        ..Given::of(20_000, 1000, &sinks)
    };
    let (leaf, east) = ((0, 5_000_000), 10_000);
    let pair = (115_000_000_000_000, 3_000_000);
    let rows = [
        (leaf, (0, 0), None, (0, 0, 0, 0)),
        (leaf, (0, 0), None, (east, east, east, east)),
        (pair, (5000, 5000), Some(0), (5000, 5000, 5000, 5000)),
    ];
    compare_all(&rt, rt.alloc(), &given, &rows)
}

#[test]
fn slow_buffer_puts_the_root_beyond(rt: HostRuntime) -> Result<(), Fail> {
    // 1,000,000 ohm into 20.001 fF: the third sink would need a snake of some 6.3·10^9 nm.
    let sinks = [
        sink(1, 0, 0, 10_000_000),
        sink(2, 1000, 0, 10_000_000),
        sink(3, 5000, 0, 5_000_000),
    ];
    let buffer = Buffer {
        cin: 1_000_000,
        rout: 1_000_000_000_000,
        intrinsic: 0,
    };
    let given = Given {
        buffers: &[buffer],
        insert_at: 15_000_000,
        ..Given::of(20_000, 1, &sinks)
    };
    let end = planned(rt.alloc(), &given)?.err();
    assert_eq!(rt; end, Some(UpEnd::Beyond { node: 4 }));
    Ok(())
}

#[test]
fn plan_of_sinks_at_one_place(rt: HostRuntime) -> Result<(), Fail> {
    // The ids decide, so that the last sink of the list is the first leaf.
    let sinks = [
        sink(4, 0, 0, 8000),
        sink(3, 0, 0, 4000),
        sink(2, 0, 0, 2000),
        sink(1, 0, 0, 1000),
    ];
    let given = Given::of(20_000, 1000, &sinks);
    let rows = [1000, 2000, 3000, 4000, 8000, 12_000, 15_000].map(|load| (
        (0, load),
        (0, 0),
        None,
        (0, 0, 0, 0),
    ));
    compare_all(&rt, rt.alloc(), &given, &rows)
}
