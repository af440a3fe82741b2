//! Instances that are made from a seed and a number of sinks.

ghost use Rattle.std.specs.Prelude.{◌≡◌, ℕ, ◌+◌, ◌*◌, ◌^◌, ◌<◌, ◌≤◌, IfOk};
ghost use Rattle.cts_script.specs.Generator.{made_parts, made_sink, made_sinks, parts_with, state_after};

use crate::generator::Generator;
use cts_block::{Block, Kind};
use cts_geom::Die;
use cts_instance::{Blocks, Instance, Parts, Sinks, Version};
use cts_num::NoMemory;
use cts_units::{Buffer, Library, Params, Sink, Wire};
use std::alloc::Global;

/// One more than the side of the die, in nm.
const SIDE_END: u64 = 10_000_001;
/// The least capacitance of a sink, in fF.
const LEAST_CAPACITANCE: u64 = 20;
/// How many capacitances there are, a fF apart.
const CAPACITANCES: u64 = 31;
/// A fF, in zF.
const FEMTOFARAD: u64 = 1_000_000;

/// The instance of this seed with so many sinks: they are spread over a die of 10 mm by 10 mm, with two
/// buffers and a block in the middle that keeps out buffers.
pub fn make_instance(alloc: Global, seed: u32, sinks: u32) -> Result<Instance, NoMemory>
    requires seed { seed < 2 ^ 31 }
    requires some { 1 ≤ sinks }
    requires sinks { sinks ≤ 65536 }
    ensures { IfOk result (λ instance. instance ≡ made_parts seed sinks) }
{
    let sinks = make_sinks(alloc, seed, sinks)?;
    let parts = parts_with(alloc, Sinks::of(sinks))?;
    Ok(Instance::of(parts))
}

fn make_sinks(alloc: Global, seed: u32, count: u32) -> Result<Vec<Sink>, NoMemory>
    requires seed { seed < 2 ^ 31 }
    requires count { count ≤ 65536 }
    ensures { IfOk result (λ sinks. sinks.items ≡ made_sinks seed count) }
{
    let mut generator = Generator::from_seed(seed);
    let mut sinks = Vec::with_capacity(alloc, count as usize)?;
    for number in 0..count {
        sinks.push(make_sink(&mut generator, number))?;
    }
    Ok(sinks)
}

/// The sink of this number, drawn from a generator that is right before its draws.
fn make_sink(generator: &mut Generator, number: u32) -> Sink
    requires { number < 65536 }
    ensures sink { (seed : ℕ) → generator.old.state ≡ state_after seed (3 * number)
        → result ≡ made_sink seed number }
    ensures state { (seed : ℕ) → generator.old.state ≡ state_after seed (3 * number)
        → generator.new.state ≡ state_after seed (3 * (number + 1)) }
{
    let x = generator.draw(SIDE_END);
    let y = generator.draw(SIDE_END);
    let capacitance = LEAST_CAPACITANCE + generator.draw(CAPACITANCES);
    Sink {
        id: number + 1,
        x: x as i64,
        y: y as i64,
        cap: capacitance * FEMTOFARAD,
        offset: 0,
    }
}

/// The parts with these sinks; all others are the same for every seed.
fn parts_with(alloc: Global, sinks: Sinks) -> Result<Parts, NoMemory>
    ensures { IfOk result (λ parts. parts ≡ parts_with sinks) }
{
    let library = vec![in alloc;
        Buffer {
            cin: 35_000_000,
            rout: 61_200_000,
            intrinsic: 24_500_000_000_000_000,
        },
        Buffer {
            cin: 80_000_000,
            rout: 30_000_000,
            intrinsic: 20_000_000_000_000_000,
        },
    ]?;
    let blocks = vec![in alloc;
        Block {
            kind: Kind::Buffer,
            x1: 4_000_000,
            y1: 4_000_000,
            x2: 6_000_000,
            y2: 6_000_000,
        },
    ]?;
    Ok(Parts {
        version: Version::One,
        die: Die {
            x1: 0,
            y1: 0,
            x2: 10_000_000,
            y2: 10_000_000,
        },
        source_x: 0,
        source_y: 0,
        source_r: 61_200_000,
        params: Params {
            wire: Wire { r: 100, c: 200 },
            library: Library::of(library),
            insert_at: 500_000_000,
        },
        load_limit: 800_000_000,
        slew_limit: 200_000_000_000_000_000,
        sinks,
        blocks: Blocks::of(blocks),
    })
}
