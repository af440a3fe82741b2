//! Sinks and instances that the rows of several layers are about.

ghost use Rattle.std.specs.Prelude.{◌≡◌};

use cts_block::Block;
use cts_geom::Die;
use cts_instance::{Blocks, Instance, Parts, Sinks, Version, check_instance};
use cts_units::{Buffer, Library, Params, Sink, Wire};
use std::alloc::Global;
use std::test::Fail;

/// A sink in nm and zF, which wants no offset.
pub(crate) fn sink(id: u32, x: i64, y: i64, cap: u64) -> Sink
    ensures x { result.x ≡ x }
    ensures y { result.y ≡ y }
    ensures cap { result.cap ≡ cap }
    ensures offset { result.offset ≡ 0 }
{
    Sink {
        id,
        x,
        y,
        cap,
        offset: 0,
    }
}

/// What an instance is made of.
#[derive(Clone, Copy)]
pub(crate) struct Given<'a> {
    /// The sides of the die, whose lower left corner is (0, 0), in nm.
    pub(crate) side: i64,
    /// Where the source stands on the west edge of the die, in nm.
    pub(crate) source_y: i64,
    /// The resistance of the source, in µΩ.
    pub(crate) source_r: u64,
    /// What a nm of wire has, in µΩ and zF.
    pub(crate) wire: (u64, u64),
    pub(crate) buffers: &'a [Buffer],
    /// The load above which a buffer is put in, in zF.
    pub(crate) insert_at: u64,
    /// The limits on a load, in zF, and on a slew, in 10^-27 s.
    pub(crate) limits: (u64, u64),
    pub(crate) sinks: &'a [Sink],
    pub(crate) blocks: &'a [Block],
}

impl<'a> Given<'a> {
    /// Sinks on a die with these sides, with a wire of `unit` µΩ and zF per nm and no buffer, and no block. The source
    /// stands at (0, 0) and has no resistance, and the limits are wide.
    pub(crate) const fn of(side: i64, unit: u64, sinks: &'a [Sink]) -> Given<'a> {
        Given {
            side,
            source_y: 0,
            source_r: 0,
            wire: (unit, unit),
            buffers: &[],
            insert_at: 0,
            limits: (100_000_000, 1_000_000_000),
            sinks,
            blocks: &[],
        }
    }
}

fn params(alloc: Global, given: &Given<'_>) -> Result<Params, Fail> {
    let (r, c) = given.wire;
    Ok(Params {
        wire: Wire { r, c },
        library: Library::of(given.buffers.to_vec(alloc)?),
        insert_at: given.insert_at,
    })
}

fn parts(alloc: Global, given: &Given<'_>) -> Result<Parts, Fail> {
    let params = params(alloc, given)?;
    let sinks = given.sinks.to_vec(alloc)?;
    Ok(Parts {
        version: Version::One,
        die: Die {
            x1: 0,
            y1: 0,
            x2: given.side,
            y2: given.side,
        },
        source_x: 0,
        source_y: given.source_y,
        source_r: given.source_r,
        params,
        load_limit: given.limits.0,
        slew_limit: given.limits.1,
        sinks: Sinks::of(sinks),
        blocks: Blocks::of(given.blocks.to_vec(alloc)?),
    })
}

/// The instance that is made of these.
pub(crate) fn instance(alloc: Global, given: &Given<'_>) -> Result<Instance, Fail> {
    Ok(check_instance(alloc, parts(alloc, given)?)?)
}

/// What the parameters of an instance are made of, for rows that are about its wire and its buffers alone.
#[derive(Clone, Copy)]
pub(crate) struct Metal<'a> {
    pub(crate) wire: (u64, u64),
    pub(crate) buffers: &'a [Buffer],
    pub(crate) insert_at: u64,
}

impl Metal<'_> {
    /// A wire of so many µΩ and zF per nm and no buffer.
    pub(crate) const fn bare(r: u64, c: u64) -> Metal<'static> {
        Metal {
            wire: (r, c),
            buffers: &[],
            insert_at: 0,
        }
    }
}

/// An instance of one sink at (0, 0) with these parameters.
pub(crate) fn with_metal(alloc: Global, metal: &Metal<'_>) -> Result<Instance, Fail> {
    let sinks = [sink(1, 0, 0, 1)];
    let given = Given {
        wire: metal.wire,
        buffers: metal.buffers,
        insert_at: metal.insert_at,
        ..Given::of(0, 1, &sinks)
    };
    instance(alloc, &given)
}
