//! A chip with two sinks. Lengths are in nm, capacitances in zF, resistances in µΩ and times in 10^-27 s.

use cts_geom::Die;
use cts_instance::{Blocks, Parts, Sinks, Version};
use cts_num::NoMemory;
use cts_units::{Library, Params, Sink, Wire};
use std::alloc::Global;

/// The sinks, of 5 and 10 fF, at (0, 4) and (10, 4) µm.
const SINKS: [Sink; 2] = [
    Sink {
        id: 1,
        x: 0,
        y: 4_000,
        cap: 5_000_000,
        offset: 0,
    },
    Sink {
        id: 2,
        x: 10_000,
        y: 4_000,
        cap: 10_000_000,
        offset: 0,
    },
];

/// The parts of the chip, which has no buffers and no blocks.
pub(crate) fn parts(alloc: Global) -> Result<Parts, NoMemory> {
    let sinks = SINKS.to_vec(alloc)?;
    Ok(Parts {
        version: Version::One,
        die: Die {
            x1: 0,
            y1: 0,
            x2: 20_000,
            y2: 20_000,
        },
        // At (0, 0), without resistance.
        source_x: 0,
        source_y: 0,
        source_r: 0,
        params: Params {
            // 1 ohm and 1 fF per µm.
            wire: Wire { r: 1_000, c: 1_000 },
            library: Library::of(Vec::new(alloc)),
            insert_at: 0,
        },
        // 100 fF and 100 ps.
        load_limit: 100_000_000,
        slew_limit: 100_000_000_000_000_000,
        sinks: Sinks::of(sinks),
        blocks: Blocks::of(Vec::new(alloc)),
    })
}
