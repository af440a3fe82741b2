//! Greatest lengths worked by hand.

use crate::balances::side;
use cts_merge::{snake, tap};
use cts_units::Wire;
use std::process::Abort;

/// A wire of 1 µΩ and 1 zF per nm.
const UNIT: Wire = Wire { r: 1, c: 1 };

#[test]
fn snakes_within_worked_delays(rt: HostRuntime) {
    // 27·37 = 999, and 28·38 = 1064; a length of 1 has the delay 11.
    for (delta, length) in [(1000, 27), (0, 0), (10, 0), (11, 1)] {
        assert_eq!(rt; (delta, snake(UNIT, 5, delta)), (delta, length));
    }
    // A wire without a load: r·c·L² is at most 2^105 up to 6,369,051,672,525,772.
    assert_eq!(rt; snake(UNIT, 0, 1 << 105), 6_369_051_672_525_772);
}

/// Compares the tap of two sides, each with its greatest doubled delay and its load, so far apart.
fn taps(rt: &impl Abort, a: (u16, u32), b: (u16, u32), apart: u16, length: u64) {
    let (a, b) = (side(a.0, a.1), side(b.0, b.1));
    assert_eq!(rt; tap(UNIT, &a, &b, u64::from(apart)), length);
}

#[test]
fn taps_of_worked_distances(rt: HostRuntime) {
    // (5, 5) has 75 and 85, and (6, 4) would have 96 and 64.
    taps(&rt, (0, 5), (0, 6), 10, 5);
    // The first side is the slower one for every length, or the faster one even with all of the distance.
    taps(&rt, (1000, 5), (0, 6), 10, 0);
    taps(&rt, (0, 5), (1000, 6), 10, 10);
    taps(&rt, (0, 0), (0, 0), 0, 0);
}
