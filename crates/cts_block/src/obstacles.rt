//! Sets of blocks of which one that covers a point can be found.
ghost use Rattle.std.specs.Prelude.{◌≡◌, IfSome, IfNone};
ghost use Rattle.cts_geom.specs.declared.points.Half.{Half};
ghost use Rattle.cts_block.specs.declared.blocks.Block.{Block};
ghost use Rattle.cts_block.specs.FreePoints.{IsPointInRange, IsHalfInside};

use crate::blocks::Block;
use cts_geom::Half;

/// Blocks of which one that covers a point can be found.
pub trait Obstacles {
    ghost counts: { Self → Block → Type 0 };

    /// A block of these in which the point lies strictly inside, if there is one.
    fn covering(&self, point: Half) -> Option<Block>
        requires { IsPointInRange point }
        ensures found { IfSome result (λ block. counts self.now block × IsHalfInside block point) }
        ensures none { IfNone result ((block : Block) → counts self.now block → ¬ IsHalfInside block point) };
}
