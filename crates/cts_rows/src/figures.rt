//! Worked pairs of two sinks: their figures are worked by hand, at 1 µΩ and 1 zF per nm.

ghost use Rattle.std.specs.Prelude.{◌≡◌};

use crate::instances::{Given, instance, sink};
use cts_elmore::{Figures, NodeFigure, measure, within};
use cts_geom::Spot;
use cts_instance::Instance;
use cts_tree::{Corners, NodeKind, Route, Tree, TreeNode};
use cts_units::{Buffer, MAX_LENGTH, Sink};
use std::alloc::Global;
use std::process::Abort;
use std::test::Fail;

/// A node with a wire of this length. Its place and its route don't matter to the figures.
fn node(kind: NodeKind, wire: u64) -> TreeNode
    ensures kind { result.kind ≡ kind }
    ensures wire { result.wire ≡ wire }
{
    TreeNode {
        kind,
        place: Spot { u: 0, v: 0 },
        wire,
        route: Route {
            corners: Corners::none(),
            length: 0,
        },
    }
}

/// The two sinks of a pair, with these capacitances.
fn sinks(first: u64, second: u64) -> [Sink; 2] {
    [sink(7, 0, 0, first), sink(8, 10, 0, second)]
}

/// The figures of the pair of an instance's two sinks under wires of these lengths, the last one the
/// root's, with the first buffer of the library if there is one; `None` where it is over the limits.
fn measured(
    rt: &impl Abort,
    alloc: Global,
    instance: &Instance,
    lengths: (u64, u64, u64),
) -> Result<Option<Figures>, Fail> {
    let sinks = instance.sinks();
    assert!(rt; sinks.len() == 2);
    let buffer = if instance.params().library.items().is_empty() {
        None
    } else {
        Some(0)
    };
    let nodes = vec![in alloc;
        node(
            NodeKind::Leaf {
                id: sinks[0].id,
                sink: 0
            },
            lengths.0
        ),
        node(
            NodeKind::Leaf {
                id: sinks[1].id,
                sink: 1
            },
            lengths.1
        ),
        node(
            NodeKind::Pair {
                left: 0,
                right: 1,
                buffer
            },
            lengths.2
        ),
    ]?;
    let tree = Tree::of(nodes);
    match within(alloc, instance, &tree)? {
        Some(_) => Ok(None),
        None => Ok(Some(measure(alloc, instance, &tree)?)),
    }
}

/// The same for what the instance is made of.
fn figures_of(
    rt: &impl Abort,
    alloc: Global,
    given: &Given<'_>,
    lengths: (u64, u64, u64),
) -> Result<Option<Figures>, Fail> {
    let instance = instance(alloc, given)?;
    measured(rt, alloc, &instance, lengths)
}

/// The load, residue, delay and stage of a node.
type NodeRow = (u64, u128, u128, u128);

/// The load of the source and the length of all wires, greatest and least delay, skew and bound.
type Totals = ((u64, u64), (u128, u128), (u128, u128));

fn compare_node(rt: &impl Abort, figure: &NodeFigure, row: NodeRow) {
    let found = (figure.below, figure.residue, figure.delay, figure.stage);
    assert_eq!(rt; found, row);
}

/// Compares the figures of the two leaves and the pair.
fn compare_nodes(rt: &impl Abort, figures: &Figures, rows: &[NodeRow]) {
    let found = figures.nodes.items();
    assert_eq!(rt; found.len(), rows.len());
    for (figure, row) in found.iter().zip(rows) {
        compare_node(rt, figure, *row);
    }
}

fn compare_totals(rt: &impl Abort, figures: &Figures, totals: Totals) {
    let lengths = (figures.source_load, figures.wire_total);
    let delays = (figures.greatest, figures.least);
    let skew = (figures.skew, figures.bound);
    assert_eq!(rt; (lengths, delays, skew), totals);
}

/// Compares all figures of the pair of an instance under wires of these lengths.
fn compare(
    rt: &impl Abort,
    alloc: Global,
    given: &Given<'_>,
    lengths: (u64, u64, u64),
    rows: &[NodeRow],
    totals: Totals,
) -> Result<(), Fail> {
    let figures = figures_of(rt, alloc, given, lengths)?;
    assert!(rt; figures.is_some());
    if let Some(figures) = &figures {
        compare_nodes(rt, figures, rows);
        compare_totals(rt, figures, totals);
    }
    Ok(())
}

/// Compares all figures of a pair without a buffer.
fn compare_bare(
    rt: &impl Abort,
    alloc: Global,
    sinks: &[Sink],
    lengths: (u64, u64, u64),
    rows: &[NodeRow],
    totals: Totals,
) -> Result<(), Fail> {
    compare(rt, alloc, &Given::of(20, 1, sinks), lengths, rows, totals)
}

#[test]
fn pairs_without_a_buffer(rt: HostRuntime) -> Result<(), Fail> {
    // 6·16 and 4·24 below the pair, and 6·56 above it.
    let nodes = [(5, 0, 432, 432), (10, 0, 432, 432), (25, 0, 336, 336)];
    let totals = ((31, 16), (432, 432), (0, 0));
    compare_bare(&rt, rt.alloc(), &sinks(5, 10), (6, 4, 6), &nodes, totals)?;
    // 75 and 85 below the pair, and 5·47 above it.
    let nodes = [(5, 0, 310, 310), (6, 0, 320, 320), (21, 10, 235, 235)];
    let totals = ((26, 15), (320, 310), (10, 10));
    compare_bare(&rt, rt.alloc(), &sinks(5, 6), (5, 5, 5), &nodes, totals)?;
    // No wire but the root's, 7·35.
    let nodes = [(5, 0, 245, 245), (9, 0, 245, 245), (14, 0, 245, 245)];
    let totals = ((21, 7), (245, 245), (0, 0));
    compare_bare(&rt, rt.alloc(), &sinks(5, 9), (0, 0, 7), &nodes, totals)
}

#[test]
fn pairs_that_slant_and_snake(rt: HostRuntime) -> Result<(), Fail> {
    // 75 below the pair, whose region slants, and 5·45 above it.
    let nodes = [(5, 0, 300, 300), (5, 0, 300, 300), (20, 0, 225, 225)];
    let totals = ((25, 15), (300, 300), (0, 0));
    compare_bare(&rt, rt.alloc(), &sinks(5, 5), (5, 5, 5), &nodes, totals)?;
    // 39 below the pair, by snaking, and 2·34 above it.
    let nodes = [(5, 0, 107, 107), (5, 0, 107, 107), (16, 0, 68, 68)];
    let totals = ((18, 8), (107, 107), (0, 0));
    compare_bare(&rt, rt.alloc(), &sinks(5, 5), (3, 3, 2), &nodes, totals)
}

/// A buffer of 3 zF and 1 µΩ, whose intrinsic delay is 4.
const BUFFER: Buffer = Buffer {
    cin: 3,
    rout: 1,
    intrinsic: 4,
};

/// A pair with a buffer and with a source of 2 µΩ, with these limits of load and slew.
fn buffered<'a>(buffers: &'a [Buffer], sinks: &'a [Sink], limits: (u64, u64)) -> Given<'a> {
    Given {
        source_r: 2,
        buffers,
        insert_at: 15,
        limits,
        ..Given::of(20, 1, sinks)
    }
}

/// Compares whether a pair with a buffer meets the limits of load and slew.
fn meets(
    rt: &impl Abort,
    alloc: Global,
    limits: (u64, u64),
    are_met: (bool, bool),
) -> Result<(), Fail> {
    let (buffers, sinks) = ([BUFFER], sinks(5, 5));
    let given = buffered(&buffers, &sinks, limits);
    let found = match &figures_of(rt, alloc, &given, (5, 5, 5))? {
        Some(figures) => Some((figures.load_met, figures.slew_met)),
        None => None,
    };
    assert_eq!(rt; found, Some(are_met));
    Ok(())
}

#[test]
fn pair_with_a_buffer(rt: HostRuntime) -> Result<(), Fail> {
    // 75 below the buffer, its 2·4 and 2·1·20 = 40 into 20 zF, the root's wire 5·11 into its 3 zF,
    // and 2·2·8 of the source.
    let (buffers, sinks) = ([BUFFER], sinks(5, 5));
    let given = buffered(&buffers, &sinks, (20, 127));
    let leaf = (5, 0, 210, 115);
    let nodes = [leaf, leaf, (20, 0, 87, 87)];
    let totals = ((8, 15), (210, 210), (0, 0));
    compare(&rt, rt.alloc(), &given, (5, 5, 5), &nodes, totals)?;
    meets(&rt, rt.alloc(), (20, 127), (true, true))
}

#[test]
fn limits_that_a_buffered_pair_does_not_meet(rt: HostRuntime) -> Result<(), Fail> {
    meets(&rt, rt.alloc(), (19, 127), (false, true))?;
    meets(&rt, rt.alloc(), (20, 126), (true, false))
}

/// Compares whether a pair of sinks of 5 zF under wires of these lengths is within the limits.
fn is_within(
    rt: &impl Abort,
    alloc: Global,
    unit: u64,
    lengths: (u64, u64, u64),
    is_within: bool,
) -> Result<(), Fail> {
    let sinks = sinks(5, 5);
    let figures = figures_of(rt, alloc, &Given::of(20, unit, &sinks), lengths)?;
    assert_eq!(rt; (lengths, figures.is_some()), (lengths, is_within));
    Ok(())
}

#[test]
fn wires_of_any_length(rt: HostRuntime) -> Result<(), Fail> {
    // Two of the longest wires are within the limits; a third takes the delay of the root over them.
    for (unit, lengths, within) in [
        (1, (MAX_LENGTH, MAX_LENGTH, MAX_LENGTH), true),
        (1, (MAX_LENGTH + 1, 0, 0), false),
        (1, (0, u64::MAX, 0), false),
        (1, (0, 0, u64::MAX), false),
        (1_000_000, (MAX_LENGTH, MAX_LENGTH, 0), true),
        (1_000_000, (MAX_LENGTH, MAX_LENGTH, MAX_LENGTH), false),
    ] {
        is_within(&rt, rt.alloc(), unit, lengths, within)?;
    }
    Ok(())
}
