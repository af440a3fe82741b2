//! Small instances, on a die of 20 nm by 20 nm with the source at (0, 0), a wire of 1 µΩ and 1 zF per nm and no
//! buffer.

ghost use Rattle.std.specs.Prelude.{◌≡◌};

use cts_block::{Block, Kind};
use cts_geom::Die;
use cts_instance::{Blocks, Instance, Parts, Sinks, Version, check_instance};
use cts_units::{Library, Params, Sink, Wire};
use std::alloc::Global;
use std::test::Fail;

/// A sink in nm and zF, which wants no offset.
pub(crate) const fn sink(id: u32, x: i64, y: i64, cap: u64) -> Sink
    ensures { result ≡ record { id = id; x = x; y = y; cap = cap; offset = 0 } }
{
    Sink {
        id,
        x,
        y,
        cap,
        offset: 0,
    }
}

/// A block that no wire crosses, in nm.
pub(crate) const fn wall(x1: i64, y1: i64, x2: i64, y2: i64) -> Block {
    Block {
        kind: Kind::All,
        x1,
        y1,
        x2,
        y2,
    }
}

/// The parts of an instance of these sinks and blocks.
fn parts(alloc: Global, sinks: Sinks, blocks: Blocks) -> Parts {
    Parts {
        version: Version::One,
        die: Die {
            x1: 0,
            y1: 0,
            x2: 20,
            y2: 20,
        },
        source_x: 0,
        source_y: 0,
        source_r: 0,
        params: Params {
            wire: Wire { r: 1, c: 1 },
            library: Library::of(Vec::new(alloc)),
            insert_at: 100,
        },
        load_limit: 100,
        slew_limit: 100,
        sinks,
        blocks,
    }
}

/// The instance of these sinks and blocks.
pub(crate) fn instance(alloc: Global, sinks: &[Sink], blocks: &[Block]) -> Result<Instance, Fail> {
    let sinks = Sinks::of(sinks.to_vec(alloc)?);
    let blocks = Blocks::of(blocks.to_vec(alloc)?);
    Ok(check_instance(alloc, parts(alloc, sinks, blocks))?)
}
