//! Roots and quotients worked by hand.

use cts_num::{floor_div, isqrt};

#[test]
fn worked_roots(rt: HostRuntime) {
    for (n, root) in [
        (0, 0),
        (1, 1),
        (3, 1),
        (4, 2),
        (1025, 32),
        (u128::MAX, 18_446_744_073_709_551_615),
    ] {
        assert_eq!(rt; (n, isqrt(n)), (n, root));
    }
}

#[test]
fn worked_quotients(rt: HostRuntime) {
    let halves = [floor_div(7, 2), floor_div(-7, 2), floor_div(-8, 2)];
    assert_eq!(rt; halves, [3, -4, -4]);
    let greatest = floor_div(-i128::MAX, i128::MAX);
    assert_eq!(rt; [floor_div(0, 3), greatest], [0, -1]);
}
