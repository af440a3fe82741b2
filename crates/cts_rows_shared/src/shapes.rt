//! The shape by workers is that of one thread, and so is that of sinks that come again. Ample memory is enough for both.

ghost use Rattle.std.specs.Prelude.{◌^◌, ◌<◌, ◌≤◌};

use crate::compare::same;
use cts_script::make_instance;
use cts_shape_workers::topology_by;
use cts_topo::{Order, topology, topology_again};
use std::alloc::Global;
use std::test::Fail;
use std::thread::Threads;

/// Whether workers make the shape of a made instance that one thread makes.
fn agree<R: Threads + Sync>(rt: &R, alloc: Global, count: u32, workers: u32) -> Result<bool, Fail>
    requires some { 1 ≤ count }
    requires few { count ≤ 65536 }
{
    let made = make_instance(alloc, 14, count)?;
    let alone = topology(alloc, made.sinks())?;
    let shape = topology_by(rt, alloc, made.sinks(), workers)?;
    Ok(shape.nodes() == alone.nodes())
}

#[test]
fn two_workers_make_the_shape(rt: HostRuntime) -> Result<(), Fail> {
    let alloc = rt.alloc();
    same(&rt, "5,001 sinks", agree(&rt, alloc, 5001, 2)?, true);
    same(&rt, "few sinks", agree(&rt, alloc, 64, 2)?, true);
    Ok(())
}

#[test]
fn four_workers_make_the_shape(rt: HostRuntime) -> Result<(), Fail> {
    let alloc = rt.alloc();
    same(&rt, "16,385 sinks", agree(&rt, alloc, 16385, 4)?, true);
    Ok(())
}

/// Whether the shape by the order of other sinks, made instances of these seeds and counts, is that without one; twice,
/// so that the second shape is by the order of the same sinks.
fn agree_again(alloc: Global, order: &mut Order, seed: u32, count: u32) -> Result<bool, Fail>
    requires seed { seed < 2 ^ 31 }
    requires some { 1 ≤ count }
    requires few { count ≤ 65536 }
{
    let made = make_instance(alloc, seed, count)?;
    let plain = topology(alloc, made.sinks())?;
    let first = topology_again(alloc, made.sinks(), order)?;
    let second = topology_again(alloc, made.sinks(), order)?;
    Ok(first.nodes() == plain.nodes() && second.nodes() == plain.nodes())
}

#[test]
fn an_order_makes_no_other_shape(rt: HostRuntime) -> Result<(), Fail> {
    let alloc = rt.alloc();
    let mut order = Order::none(alloc);
    same(&rt, "none", agree_again(alloc, &mut order, 14, 500)?, true);
    same(&rt, "more", agree_again(alloc, &mut order, 14, 520)?, true);
    same(&rt, "fewer", agree_again(alloc, &mut order, 14, 490)?, true);
    same(
        &rt,
        "others",
        agree_again(alloc, &mut order, 15, 490)?,
        true,
    );
    same(&rt, "one", agree_again(alloc, &mut order, 15, 1)?, true);
    Ok(())
}
