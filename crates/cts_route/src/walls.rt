//! The blocks of an instance that stop wires, prepared for many segments.

ghost use Rattle.std.specs.Prelude.{◌↔◌, All, List, IfOk, IsTrue};
ghost use Rattle.cts_block.specs.declared.blocks.Block.{Block};
ghost use Rattle.cts_route.specs.Grid.{IsClear};
ghost use Rattle.cts_route.specs.Limits.{IsBlockInRange};
ghost use Rattle.cts_route.specs.Walls.{KeepsOut};

use crate::clear::{is_clear, walls_of};
use crate::wall::Wall;
use cts_block::Block;
use cts_geom::Half;
use cts_num::NoMemory;
use std::alloc::Global;

/// What keeps wires out of some blocks, prepared for many segments.
#[derive(Drop)]
pub struct Walls {
    walls: Vec<Wall>,
}

impl Walls {
    /// Prepares these blocks, whose coordinates are at most 2^40 nm in size.
    ///
    /// Answers `NoMemory` where an allocation fails.
    pub fn of(alloc: Global, blocks: &[Block]) -> Result<Walls, NoMemory>
        requires { All IsBlockInRange blocks.now }
        ensures { IfOk result (KeepsOut blocks.now) }
    {
        Ok(Walls {
            walls: walls_of(alloc, blocks)?,
        })
    }

    /// Whether no point of the segment from `p` to `q`, which runs along an axis, lies strictly inside
    /// a block that stops wires.
    pub fn is_clear(&self, p: Half, q: Half) -> bool
        ensures { (blocks : List Block) → KeepsOut blocks self.now → IsTrue result ↔ IsClear blocks p q }
    {
        is_clear(self.walls.as_slice(), p, q)
    }
}
