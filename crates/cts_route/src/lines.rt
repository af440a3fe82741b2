//! The lines of the grid along one axis, in ascending order, in half nm.

ghost use Rattle.std.specs.Prelude.{◌≡◌, ◌+◌, ◌<◌, ◌≤◌, pos, ◌*ℤ◌, ◌≤ℤ◌, ℤ, List, [], ◌∷◌, ◌++◌, length, All, Contains, OnOk, IfOk, IfSome, IfNone};
ghost use Rattle.cts_geom.specs.Coordinate.{IsCoordinate};
ghost use Rattle.cts_route.specs.Grid.{edges_of, fixed_xs as spec_fixed_xs, fixed_ys as spec_fixed_ys};
ghost use Rattle.cts_block.specs.NearestFree.{IsDieInRange};
ghost use Rattle.cts_route.specs.Limits.{IsBlockInRange};
ghost use Rattle.cts_route.specs.LineLists.{IsAscending, IsRoom, IsInserted, Adds, AreLinesOf, AreLinesBetween};

use cts_block::{Block, Kind};
use cts_geom::Die;
use std::alloc::{AllocError, Global};

/// Where a line goes, unless it is there.
fn room_for(lines: &[i64], line: i64) -> Option<usize>
    requires { IsAscending lines.now }
    ensures room { IfSome result (IsRoom lines.now line) }
    ensures there { IfNone result (Contains lines.now line) }
{
    for after in (0..lines.len()).rev() {
        if lines[after] == line {
            return None;
        }
        if lines[after] < line {
            return Some(after + 1);
        }
    }
    Some(0)
}

/// Adds a line, unless it is there.
fn insert_line(lines: &mut Vec<i64>, line: i64) -> Result<(), AllocError>
    requires { IsAscending lines.old.items }
    ensures { OnOk result (IsInserted lines.old.items lines.new.items line) }
{
    if let Some(place) = room_for(lines.as_slice(), line) {
        lines.insert(place, line)?;
    }
    Ok(())
}

/// Adds the two edges of an interval in nm.
fn insert_edges(lines: &mut Vec<i64>, low: i64, high: i64) -> Result<(), AllocError>
    requires low { IsCoordinate low }
    requires high { IsCoordinate high }
    requires ascending { IsAscending lines.old.items }
    ensures { OnOk result (Adds lines.old.items lines.new.items ((pos 2 *ℤ low) ∷ (pos 2 *ℤ high) ∷ [])) }
{
    insert_line(lines, 2 * low)?;
    insert_line(lines, 2 * high)?;
    Ok(())
}

/// Adds the x lines of a block.
fn insert_xs(lines: &mut Vec<i64>, block: &Block) -> Result<(), AllocError>
    requires block { IsBlockInRange block.now }
    requires ascending { IsAscending lines.old.items }
    ensures { OnOk result (Adds lines.old.items lines.new.items (edges_of block.now.kind block.now.x1 block.now.x2)) }
{
    match block.kind {
        Kind::Buffer => Ok(()),
        Kind::All => insert_edges(lines, block.x1, block.x2),
    }
}

/// Adds the y lines of a block.
fn insert_ys(lines: &mut Vec<i64>, block: &Block) -> Result<(), AllocError>
    requires block { IsBlockInRange block.now }
    requires ascending { IsAscending lines.old.items }
    ensures { OnOk result (Adds lines.old.items lines.new.items (edges_of block.now.kind block.now.y1 block.now.y2)) }
{
    match block.kind {
        Kind::Buffer => Ok(()),
        Kind::All => insert_edges(lines, block.y1, block.y2),
    }
}

/// The x lines that a die and its blocks give to every grid.
pub fn fixed_xs(alloc: Global, blocks: &[Block], die: &Die) -> Result<Vec<i64>, AllocError>
    requires blocks { All IsBlockInRange blocks.now }
    requires die { IsDieInRange die.now }
    ensures { IfOk result (λ lines. AreLinesOf (spec_fixed_xs blocks.now die.now) lines.items) }
{
    let mut lines = Vec::new(alloc);
    insert_edges(&mut lines, die.x1, die.x2)?;
    for block in blocks {
        insert_xs(&mut lines, block)?;
    }
    Ok(lines)
}

/// The y lines that a die and its blocks give to every grid.
pub fn fixed_ys(alloc: Global, blocks: &[Block], die: &Die) -> Result<Vec<i64>, AllocError>
    requires blocks { All IsBlockInRange blocks.now }
    requires die { IsDieInRange die.now }
    ensures { IfOk result (λ lines. AreLinesOf (spec_fixed_ys blocks.now die.now) lines.items) }
{
    let mut lines = Vec::new(alloc);
    insert_edges(&mut lines, die.y1, die.y2)?;
    for block in blocks {
        insert_ys(&mut lines, block)?;
    }
    Ok(lines)
}

/// Adds a line that lies in a span, unless it is there.
fn insert_between(lines: &mut Vec<i64>, line: i64, span: (i64, i64)) -> Result<(), AllocError>
    requires { IsAscending lines.old.items }
    ensures { (wanted : List ℤ) → AreLinesBetween wanted span.0 span.1 lines.old.items
        → OnOk result (AreLinesBetween (wanted ++ line ∷ []) span.0 span.1 lines.new.items) }
{
    if line < span.0 || span.1 < line {
        return Ok(());
    }
    insert_line(lines, line)
}

/// The lines of the grid of two ends that lie in a span, as the ends do.
pub fn lines_between(
    alloc: Global,
    fixed: &[i64],
    ends: (i64, i64),
    span: (i64, i64),
) -> Result<Vec<i64>, AllocError>
    requires first { (span.0 ≤ℤ ends.0) × (ends.0 ≤ℤ span.1) }
    requires second { (span.0 ≤ℤ ends.1) × (ends.1 ≤ℤ span.1) }
    ensures { IfOk result (λ lines. AreLinesBetween (ends.0 ∷ ends.1 ∷ fixed.now) span.0 span.1 lines.items) }
{
    let mut lines = Vec::with_capacity(alloc, 8)?;
    insert_line(&mut lines, ends.0)?;
    insert_line(&mut lines, ends.1)?;
    for line in fixed {
        insert_between(&mut lines, *line, span)?;
    }
    Ok(lines)
}
