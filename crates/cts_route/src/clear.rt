//! Which segments are clear of the blocks that stop wires.

ghost use Rattle.std.specs.Prelude.{◌↔◌, All, IsTrue, IfSome, IfNone, IfOk, OnOk};
ghost use Rattle.cts_route.specs.Limits.{IsBlockInRange};
ghost use Rattle.cts_route.specs.Walls.{MissesWalls, IsWallOf, IsNoWall, AreWallsBetween, AreWallsOf, Overlaps, Crosses, IsSpan};

use crate::wall::Wall;
use cts_block::{Block, Kind};
use cts_geom::Half;
use std::alloc::{AllocError, Global};

/// Whether the interval from `low` up to `high` has a point strictly between `from` and `to`, which
/// are some way apart.
fn overlaps(low: i64, high: i64, from: i64, to: i64) -> bool
    ensures { IsTrue result ↔ Overlaps low high from to }
{
    low < to && from < high
}

/// Whether the segment from `low` up to `high` has a point strictly inside the wall.
fn crosses(wall: &Wall, low: Half, high: Half) -> bool
    ensures { IsTrue result ↔ Crosses wall.now low high }
{
    overlaps(low.x, high.x, wall.x1, wall.x2) && overlaps(low.y, high.y, wall.y1, wall.y2)
}

/// The wall of a block, if it has an inside that stops wires.
fn wall_of(block: &Block) -> Option<Wall>
    requires { IsBlockInRange block.now }
    ensures wall { IfSome result (IsWallOf block.now) }
    ensures none { IfNone result (IsNoWall block.now) }
{
    match block.kind {
        Kind::Buffer => return None,
        Kind::All => {}
    }
    if block.x1 >= block.x2 || block.y1 >= block.y2 {
        return None;
    }
    Some(Wall {
        x1: 2 * block.x1,
        y1: 2 * block.y1,
        x2: 2 * block.x2,
        y2: 2 * block.y2,
    })
}

/// The walls of these blocks.
pub fn walls_of(alloc: Global, blocks: &[Block]) -> Result<Vec<Wall>, AllocError>
    requires { All IsBlockInRange blocks.now }
    ensures { IfOk result (λ walls. AreWallsOf blocks.now walls.items) }
{
    let mut walls = Vec::new(alloc);
    for block in blocks {
        if let Some(wall) = wall_of(block) {
            walls.push(wall)?;
        }
    }
    Ok(walls)
}

/// Whether the inside of the wall reaches into a span in x.
fn reaches_between(wall: &Wall, span: (i64, i64)) -> bool
    ensures { IsTrue result ↔ Overlaps span.0 span.1 wall.now.x1 wall.now.x2 }
{
    overlaps(span.0, span.1, wall.x1, wall.x2)
}

/// Puts those walls into `near` that reach into a span in x.
pub fn gather_between(
    near: &mut Vec<Wall>,
    walls: &[Wall],
    span: (i64, i64),
) -> Result<(), AllocError>
    ensures { OnOk result (AreWallsBetween walls.now span.0 span.1 near.new.items) }
{
    near.clear();
    for wall in walls {
        if reaches_between(wall, span) {
            near.push(*wall)?;
        }
    }
    Ok(())
}

/// The corners of the box of a segment.
pub fn span(p: Half, q: Half) -> (Half, Half)
    ensures { IsSpan p q result.0 result.1 }
{
    let low = Half {
        x: p.x.min(q.x),
        y: p.y.min(q.y),
    };
    let high = Half {
        x: p.x.max(q.x),
        y: p.y.max(q.y),
    };
    (low, high)
}

/// Whether no point of the segment lies strictly inside a wall.
pub fn is_clear(walls: &[Wall], p: Half, q: Half) -> bool
    ensures { IsTrue result ↔ MissesWalls walls.now p q }
{
    let (low, high) = span(p, q);
    for wall in walls {
        if crosses(wall, low, high) {
            return false;
        }
    }
    true
}
