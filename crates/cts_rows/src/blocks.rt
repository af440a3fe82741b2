//! Free points round a few blocks.

use cts_block::{Block, Kind, free_for_buffer, free_for_wire};
use cts_geom::{Die, Spot};
use std::process::Abort;

/// A block in nm.
pub(crate) fn block(kind: Kind, x1: i64, y1: i64, x2: i64, y2: i64) -> Block {
    Block {
        kind,
        x1,
        y1,
        x2,
        y2,
    }
}

fn square_die(side: i64) -> Die {
    Die {
        x1: 0,
        y1: 0,
        x2: side,
        y2: side,
    }
}

/// Whether a wire may stand at the spot (u, v) in a square in a square.
fn holds_a_wire(u: i8, v: i8) -> bool {
    let blocks = [
        block(Kind::All, 1, 1, 4, 4),
        block(Kind::Buffer, 0, 0, 5, 5),
        block(Kind::All, 0, 0, 0, 5),
        block(Kind::All, 2, 5, 5, 4),
    ];
    let at = Spot {
        u: i64::from(u),
        v: i64::from(v),
    };
    free_for_wire(&blocks, &square_die(5), at)
}

/// Compares whether a wire may stand at each of these spots.
fn hold_wires(rt: &impl Abort, spots: &[(i8, i8)], are_free: bool) {
    for (u, v) in spots {
        assert_eq!(rt; (*u, *v, holds_a_wire(*u, *v)), (*u, *v, are_free));
    }
}

#[test]
fn leaves_edges_free_for_wires(rt: HostRuntime) {
    // (2.5, 2.5), the centre, (2, 2) and (1.5, 3.5).
    hold_wires(&rt, &[(5, 0), (4, 0), (5, -2)], false);
    // (1, 2), on the west edge, and (4, 4), a corner.
    hold_wires(&rt, &[(3, -1), (8, 0)], true);
    // (0.5, 0.5) and (4.5, 2.5).
    hold_wires(&rt, &[(1, 0), (7, 2)], true);
}

#[test]
fn leaves_the_edge_of_the_die_free_and_nothing_outside(rt: HostRuntime) {
    // (5, 5), a corner of the die, and (0, 3), on its west edge.
    hold_wires(&rt, &[(10, 0), (3, -3)], true);
    // (5.5, 2.5), (2, 6), (-0.5, 0.5) and (3, -1), to the east, north, west and south of it.
    hold_wires(&rt, &[(8, 3), (8, -4), (0, -1), (2, 4)], false);
}

/// Whether a buffer may stand at the spot (u, v) beside a block of each kind.
fn holds_a_buffer(u: i8, v: i8) -> bool {
    let blocks = [
        block(Kind::Buffer, 2, 2, 8, 9),
        block(Kind::All, 10, 10, 12, 12),
    ];
    let at = Spot {
        u: i64::from(u),
        v: i64::from(v),
    };
    free_for_buffer(&blocks, &square_die(20), at)
}

#[test]
fn keeps_buffers_off_blocks_of_both_kinds(rt: HostRuntime) {
    for (u, v, is_free) in [
        // (5, 5), inside a block for buffers, and (2, 5), (5, 2) and (8, 5), on its edges.
        (10, 0, false),
        (7, -3, true),
        (7, 3, true),
        (13, 3, true),
        // (11, 11), inside a block for all, (10, 11), on its west edge, and (21, 20), outside the die.
        (22, 0, false),
        (21, -1, true),
        (41, 1, false),
    ] {
        assert_eq!(rt; (u, v, holds_a_buffer(u, v)), (u, v, is_free));
    }
}
