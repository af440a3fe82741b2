//! Delays and slews worked by hand.

use cts_units::{Buffer, Wire, buffer_delay, slew_tenths, wire_delay};

#[test]
fn delays_of_worked_wires(rt: HostRuntime) {
    // A wire of 7 nm into 10 zF and so on, at 1 µΩ and 1 zF per nm: worked by hand.
    let unit = Wire { r: 1, c: 1 };
    for (length, load, want) in [
        (7, 5, 119),
        (6, 5, 96),
        (4, 10, 96),
        (5, 6, 85),
        (27, 5, 999),
        (0, 9, 0),
    ] {
        let delay = wire_delay(unit, length, load);
        assert_eq!(rt; (length, load, delay), (length, load, want));
    }
    // 1,500 µm of 0.1 ohm and 0.2 fF per µm into 35 fF: 27.75 ps, doubled.
    let metal = Wire { r: 100, c: 200 };
    assert_eq!(rt;
        wire_delay(metal, 1_500_000, 35_000_000),
        55_500_000_000_000_000
    );
}

#[test]
fn delays_of_worked_buffers(rt: HostRuntime) {
    // 1 µΩ into 20 zF: worked by hand.
    let unit = Buffer {
        cin: 3,
        rout: 1,
        intrinsic: 0,
    };
    assert_eq!(rt; buffer_delay(unit, 20), 40);
    // 24.5 ps and 61.2 ohm into 670 fF: 65.504 ps, doubled.
    let real = Buffer {
        cin: 35_000_000,
        rout: 61_200_000,
        intrinsic: 24_500_000_000_000_000,
    };
    assert_eq!(rt; buffer_delay(real, 670_000_000), 131_008_000_000_000_000);
}

#[test]
fn slews_of_worked_stages(rt: HostRuntime) {
    // A doubled stage delay of 119 slews over 130.9, and of 167 over 183.7.
    assert_eq!(rt; [slew_tenths(119), slew_tenths(167)], [1309, 1837]);
}
