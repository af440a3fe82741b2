//! Worked trees, from the sinks to the balanced wires.

ghost use Rattle.std.specs.Prelude.{IfOk};
ghost use Rattle.cts_embed.specs.Fitting.{Fits};

use crate::instances::{Given, instance, sink};
use crate::plans::plan_of;
use crate::routes::wall;
use cts_block::{Block, Kind};
use cts_embed::{BalanceEnd, EmbedEnd, balance, embed};
use cts_geom::{Half, Spot};
use cts_instance::Instance;
use cts_topo::topology;
use cts_tree::{NodeKind, Placed, Tree, TreeNode};
use cts_units::Buffer;
use std::alloc::Global;
use std::process::Abort;
use std::test::Fail;

/// What a row says of a node: its place as (u, v), the lengths of its wire and of its route, and the corners.
type Row<'a> = ((i64, i64), u64, u64, &'a [Half]);

/// The placed tree over the topology of an instance, or why there is none.
fn placed_of(alloc: Global, instance: &Instance) -> Result<Result<Placed, EmbedEnd>, Fail>
    ensures { IfOk result (λ placed. IfOk placed (Fits instance.now)) }
{
    let shape = topology(alloc, instance.sinks())?;
    let plan = plan_of(alloc, instance, &shape)?;
    Ok(embed(alloc, instance, &shape, plan.as_slice()))
}

/// The balanced tree over the topology of an instance, or why there is none.
fn tree_of(alloc: Global, given: &Given<'_>) -> Result<Result<Tree, BalanceEnd>, Fail> {
    let instance = instance(alloc, given)?;
    let placed = placed_of(alloc, &instance)??;
    Ok(balance(alloc, &instance, placed))
}

/// Why the plan of an instance is not embedded, if it is not.
fn cut_of(alloc: Global, given: &Given<'_>) -> Result<Option<EmbedEnd>, Fail> {
    let instance = instance(alloc, given)?;
    Ok(placed_of(alloc, &instance)?.err())
}

fn compare(rt: &impl Abort, node: &TreeNode, row: &Row<'_>) {
    let ((u, v), wire, length, corners) = *row;
    let route = (node.route.length, node.route.corners.items());
    assert_eq!(rt;
        (node.place, node.wire, route),
        (Spot { u, v }, wire, (length, corners))
    );
}

fn compare_nodes(rt: &impl Abort, nodes: &[TreeNode], rows: &[Row<'_>]) {
    assert_eq!(rt; nodes.len(), rows.len());
    for (node, row) in nodes.iter().zip(rows) {
        compare(rt, node, row);
    }
}

/// Compares all nodes of the balanced tree of an instance.
fn compare_all(
    rt: &impl Abort,
    alloc: Global,
    given: &Given<'_>,
    rows: &[Row<'_>],
) -> Result<(), Fail> {
    let tree = tree_of(alloc, given)??;
    compare_nodes(rt, tree.nodes(), rows);
    Ok(())
}

#[test]
fn two_sinks_in_um(rt: HostRuntime) -> Result<(), Fail> {
    // Wires of 6 um and 4 um to sinks of 5 fF and 10 fF, 10 um apart.
    let sinks = [sink(1, 0, 0, 5_000_000), sink(2, 10_000, 0, 10_000_000)];
    let rows: [Row<'_>; 3] = [
        ((0, 0), 6000, 6000, &[]),
        ((10_000, 10_000), 4000, 4000, &[]),
        ((6000, 6000), 6000, 6000, &[]),
    ];
    compare_all(&rt, rt.alloc(), &Given::of(20_000, 1000, &sinks), &rows)?;
    // Both at (3, 4): the pair stands there too, and the route to it turns at (3, 0).
    let sinks = [
        sink(1, 3000, 4000, 5_000_000),
        sink(2, 3000, 4000, 9_000_000),
    ];
    let corners = [Half { x: 6000, y: 0 }];
    let rows: [Row<'_>; 3] = [
        ((7000, -1000), 0, 0, &[]),
        ((7000, -1000), 0, 0, &[]),
        ((7000, -1000), 7000, 7000, &corners),
    ];
    compare_all(&rt, rt.alloc(), &Given::of(20_000, 1000, &sinks), &rows)?;
    // At (0, 0) and (6, 4): of the segment from (1, 4) to (5, 0) all is 5 um away, and (1, 4) has the least v.
    let sinks = [sink(1, 0, 0, 5_000_000), sink(2, 6000, 4000, 5_000_000)];
    let (first, last) = ([Half { x: 0, y: 8000 }], [Half { x: 2000, y: 0 }]);
    let rows: [Row<'_>; 3] = [
        ((0, 0), 5000, 5000, &first),
        ((10_000, 2000), 5000, 5000, &[]),
        ((5000, -3000), 5000, 5000, &last),
    ];
    compare_all(&rt, rt.alloc(), &Given::of(20_000, 1000, &sinks), &rows)
}

#[test]
fn two_sinks_in_nm(rt: HostRuntime) -> Result<(), Fail> {
    // 10 nm apart with 5 zF and 6 zF: the pair keeps 5 nm and 5 nm, since 6 nm and 5 nm differ by more.
    let sinks = [sink(1, 0, 0, 5), sink(2, 10, 0, 6)];
    let rows: [Row<'_>; 3] = [
        ((0, 0), 5, 5, &[]),
        ((10, 10), 5, 5, &[]),
        ((5, 5), 5, 5, &[]),
    ];
    compare_all(&rt, rt.alloc(), &Given::of(20, 1, &sinks), &rows)?;
    // 5 nm apart with 5 zF each: the tap at 2 nm is balanced by a snake, 3 nm over a route of 2 nm.
    let sinks = [sink(1, 0, 0, 5), sink(2, 5, 0, 5)];
    let rows: [Row<'_>; 3] = [
        ((0, 0), 3, 2, &[]),
        ((5, 5), 3, 3, &[]),
        ((2, 2), 2, 2, &[]),
    ];
    compare_all(&rt, rt.alloc(), &Given::of(20, 1, &sinks), &rows)
}

/// Compares a node with a pair of two leaves that has the first buffer.
fn has_the_first_buffer(rt: &impl Abort, node: &TreeNode) {
    let kind = NodeKind::Pair {
        left: 0,
        right: 1,
        buffer: Some(0),
    };
    assert_eq!(rt; node.kind, kind);
}

/// Compares the tree of two sinks of 5 fF on a line at y, whose root has a buffer of 3 fF and 1 ohm, since its load is
/// above 15 fF.
fn compare_buffered(
    rt: &impl Abort,
    alloc: Global,
    y: i64,
    blocks: &[Block],
    rows: &[Row<'_>],
) -> Result<(), Fail> {
    let buffer = Buffer {
        cin: 3_000_000,
        rout: 1_000_000,
        intrinsic: 0,
    };
    let sinks = [sink(1, 0, y, 5_000_000), sink(2, 10_000, y, 5_000_000)];
    let given = Given {
        buffers: &[buffer],
        insert_at: 15_000_000,
        blocks,
        ..Given::of(20_000, 1000, &sinks)
    };
    let tree = tree_of(alloc, &given)??;
    compare_nodes(rt, tree.nodes(), rows);
    has_the_first_buffer(rt, tree.nodes().last().ok_or("no root")?);
    Ok(())
}

#[test]
fn pairs_with_a_buffer(rt: HostRuntime) -> Result<(), Fail> {
    let rows: [Row<'_>; 3] = [
        ((0, 0), 5000, 5000, &[]),
        ((10_000, 10_000), 5000, 5000, &[]),
        ((5000, 5000), 5000, 5000, &[]),
    ];
    compare_buffered(&rt, rt.alloc(), 0, &[], &rows)?;
    // The place (5, 5) lies in the block; (2, 5), (5, 2) and (8, 5) are equally near, and x decides.
    let block = Block {
        kind: Kind::Buffer,
        x1: 2000,
        y1: 2000,
        x2: 8000,
        y2: 9000,
    };
    let corners = [Half { x: 4000, y: 0 }];
    let rows: [Row<'_>; 3] = [
        ((5000, -5000), 8000, 2000, &[]),
        ((15_000, 5000), 8000, 8000, &[]),
        ((7000, -3000), 7000, 7000, &corners),
    ];
    compare_buffered(&rt, rt.alloc(), 5000, &[block], &rows)
}

#[test]
fn root_with_a_slow_source_is_beyond(rt: HostRuntime) -> Result<(), Fail> {
    // 999,999,999,999 ohm into 20,000,005,000,000 zF: twice the product is above 2^104.
    let sinks = [sink(1, 20_000_000, 0, 5_000_000)];
    let given = Given {
        wire: (1, 1_000_000),
        source_r: 999_999_999_999_000_000,
        ..Given::of(20_000_000, 1, &sinks)
    };
    let end = tree_of(rt.alloc(), &given)?.err();
    assert_eq!(rt; end, Some(BalanceEnd::Beyond { node: 0 }));
    Ok(())
}

#[test]
fn routes_among_blocks(rt: HostRuntime) -> Result<(), Fail> {
    // Round the block by (4, 5), (4, 2) and (10, 2): 16 um where the distance is 10.
    let sinks = [sink(1, 10_000, 5000, 5_000_000)];
    let given = Given {
        source_y: 5000,
        blocks: &[wall(4, 2, 6, 9)],
        ..Given::of(20_000, 1000, &sinks)
    };
    let corners = [
        Half { x: 8000, y: 10_000 },
        Half { x: 8000, y: 4000 },
        Half { x: 20_000, y: 4000 },
    ];
    let rows: [Row<'_>; 1] = [((15_000, 5000), 16_000, 16_000, &corners)];
    compare_all(&rt, rt.alloc(), &given, &rows)
}

#[test]
fn a_sink_in_a_pocket_is_cut(rt: HostRuntime) -> Result<(), Fail> {
    let sinks = [sink(1, 10_000, 10_000, 5_000_000)];
    let pocket = [
        wall(7, 7, 9, 13),
        wall(11, 7, 13, 13),
        wall(7, 7, 13, 9),
        wall(7, 11, 13, 13),
    ];
    let given = Given {
        source_y: 5000,
        blocks: &pocket,
        ..Given::of(20_000, 1000, &sinks)
    };
    let end = cut_of(rt.alloc(), &given)?;
    assert_eq!(rt; end, Some(EmbedEnd::Cut { node: 0 }));
    Ok(())
}
