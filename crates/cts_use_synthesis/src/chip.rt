//! The parts of small chips, made in code. Lengths are in nm, capacitances in zF, resistances in µΩ and times in
//! 10^-27 s.

use cts_block::{Block, Kind};
use cts_geom::Die;
use cts_instance::{Blocks, Parts, Sinks, Version};
use cts_num::NoMemory;
use cts_units::{Buffer, Library, Params, Sink, Wire};
use std::alloc::Global;

/// The one buffer of the library: 35 fF at its input, 61.2 ohm at its output, and 24.5 ps.
const BUFFER: Buffer = Buffer {
    cin: 35_000_000,
    rout: 61_200_000,
    intrinsic: 24_500_000_000_000_000,
};

/// The parts of a chip of 10,000 by 10,000 µm with these sinks and blocks.
pub(crate) fn parts_with(
    alloc: Global,
    sinks: &[Sink],
    blocks: &[Block],
) -> Result<Parts, NoMemory> {
    let library = vec![in alloc; BUFFER]?;
    Ok(Parts {
        version: Version::One,
        die: Die {
            x1: 0,
            y1: 0,
            x2: 10_000_000,
            y2: 10_000_000,
        },
        // At (2000, 0) µm, with 61.2 ohm.
        source_x: 2_000_000,
        source_y: 0,
        source_r: 61_200_000,
        params: Params {
            // 0.1 ohm and 0.2 fF per µm.
            wire: Wire { r: 100, c: 200 },
            library: Library::of(library),
            // A pair that drives more than 500 fF takes a buffer.
            insert_at: 500_000_000,
        },
        // 800 fF and 200 ps.
        load_limit: 800_000_000,
        slew_limit: 200_000_000_000_000_000,
        sinks: Sinks::of(sinks.to_vec(alloc)?),
        blocks: Blocks::of(blocks.to_vec(alloc)?),
    })
}

/// A sink of 10 fF that wants no offset.
pub(crate) fn sink(id: u32, x: i64, y: i64) -> Sink {
    Sink {
        id,
        x,
        y,
        cap: 10_000_000,
        offset: 0,
    }
}

/// Two clusters of two sinks each, about (1000, 1000) and (3000, 2000) µm.
pub(crate) fn clusters() -> [Sink; 4] {
    [
        sink(1, 900_000, 1_000_000),
        sink(2, 1_100_000, 1_000_000),
        sink(3, 2_900_000, 2_000_000),
        sink(4, 3_100_000, 2_000_000),
    ]
}

/// A macro over which wires run, and in which no buffer stands.
pub(crate) fn hard_macro() -> Block {
    Block {
        kind: Kind::Buffer,
        x1: 1_200_000,
        y1: 1_200_000,
        x2: 1_800_000,
        y2: 1_800_000,
    }
}

/// A block that stops wires too.
fn wall(x1: i64, y1: i64, x2: i64, y2: i64) -> Block {
    Block {
        kind: Kind::All,
        x1,
        y1,
        x2,
        y2,
    }
}

/// Four walls round the point (10, 10) µm.
pub(crate) fn pocket() -> [Block; 4] {
    [
        wall(7_000, 7_000, 9_000, 13_000),
        wall(11_000, 7_000, 13_000, 13_000),
        wall(7_000, 7_000, 13_000, 9_000),
        wall(7_000, 11_000, 13_000, 13_000),
    ]
}
