//! A raster over a die, which finds a block around a point without a look at all blocks.
ghost use Rattle.std.specs.Prelude.{◌≡◌, ◌<◌, ◌≤◌, ℤ, All, Contains, List, IfOk, IfSome, IfNone, IsTrue};
ghost use Rattle.cts_geom.specs.declared.points.Half.{Half};
ghost use Rattle.cts_block.specs.declared.blocks.Block.{Block};
ghost use Rattle.cts_block.specs.FreePoints.{IsHalfInside, IsStrictlyBetween, IsPointInRange};
ghost use Rattle.cts_block.specs.NearestFree.{IsDieInRange, LiesIn};
ghost use Rattle.cts_block.specs.Raster.{IsHalfIn, IsCellOf, AreCells, AreColumns, band_of};

use crate::banding::{band_with, bands_over, numbers_of};
use crate::bands::Bands;
use crate::blocks::Block;
use crate::free::{is_half_inside, rounded_down};
use crate::obstacles::Obstacles;
use crate::whole::Range;
use cts_geom::{Die, Half};
use cts_list::Items;
use cts_num::NoMemory;
use std::alloc::Global;
use std::marker::Model;

/// Blocks, and for each cell of a raster over the die the blocks that reach into it. Contracts see
/// the list of all blocks.
#[derive(Drop)]
pub struct Raster {
    blocks: Items<Block>,
    columns: Bands,
    rows: Bands,
    cells: Items<Items<Items<Block>>>,
}

impl Model for Raster {
    ghost use Rattle.std.specs.Prelude.{List};
    ghost use Rattle.cts_block.specs.declared.blocks.Block.{Block};
    ghost use Rattle.cts_block.specs.Raster.{IsRaster};

    ghost Value = { List Block };

    ghost view = { λ raster. raster.blocks };

    ghost invariant = { λ raster. IsRaster raster.blocks raster.columns raster.rows raster.cells };
}

impl Obstacles for Raster {
    ghost use Rattle.std.specs.Prelude.{Contains};

    ghost counts = { λ raster. Contains raster };

    fn covering(&self, point: Half) -> Option<Block> {
        let column = band_with(&self.columns, rounded_down(point.x))?;
        let row = band_with(&self.rows, rounded_down(point.y))?;
        let cell = self.cells.items()[column].items()[row].items();
        around(cell, point)
    }
}

impl Raster {
    ghost use Rattle.std.specs.Prelude.{◌≡◌, All, IfOk};
    ghost use Rattle.cts_block.specs.NearestFree.{IsDieInRange, LiesIn};

    /// A raster over a die in which all blocks lie.
    pub fn of(alloc: Global, blocks: Vec<Block>, die: &Die) -> Result<Raster, NoMemory>
        requires die { IsDieInRange die.now }
        requires blocks { All (LiesIn die.now) blocks.items }
        ensures { IfOk result (λ raster. raster ≡ blocks.items) }
    {
        let side = side_for(blocks.len());
        let x = Range {
            low: die.x1,
            high: die.x2,
        };
        let y = Range {
            low: die.y1,
            high: die.y2,
        };
        let columns = bands_over(x, side);
        let rows = bands_over(y, side);
        let cells = cells_of(alloc, blocks.as_slice(), &columns, &rows)?;
        Ok(Raster {
            blocks: Items::of(blocks),
            columns,
            rows,
            cells,
        })
    }

    /// All blocks.
    pub fn blocks(&self) -> &[Block]
        ensures { result.now ≡ self.now }
    {
        self.blocks.items()
    }
}

/// A block of these in which the point lies strictly inside, if there is one.
fn around(blocks: &[Block], point: Half) -> Option<Block>
    requires { IsPointInRange point }
    ensures found { IfSome result (λ block. Contains blocks.now block × IsHalfInside block point) }
    ensures none { IfNone result (All (λ block. ¬ IsHalfInside block point) blocks.now) }
{
    blocks
        .iter()
        .find(|block| is_half_inside(block, point))
        .copied()
}

/// How many columns and rows a raster has for so many blocks: about as many cells as blocks.
fn side_for(blocks: usize) -> usize
    ensures some { 0 < result }
    ensures few { result ≤ 64 }
{
    let mut side = 1;
    while side < 64 && side * side < blocks {
        side += 1;
    }
    side
}

/// Whether the x of all points of a column lie strictly between the edges of the block.
fn spans_column(block: &Block, column: Range) -> bool
    ensures { IsTrue result → (halves : ℤ) → IsHalfIn column halves
        → IsStrictlyBetween block.now.x1 block.now.x2 halves }
{
    block.x1 < column.low && column.high < block.x2
}

/// Whether the y of all points of a row lie strictly between the edges of the block.
fn spans_row(block: &Block, row: Range) -> bool
    ensures { IsTrue result → (halves : ℤ) → IsHalfIn row halves
        → IsStrictlyBetween block.now.y1 block.now.y2 halves }
{
    block.y1 < row.low && row.high < block.y2
}

/// Whether the block reaches into a column.
fn reaches_column(block: &Block, column: Range) -> bool
    ensures { (halves : ℤ) → IsHalfIn column halves
        → IsStrictlyBetween block.now.x1 block.now.x2 halves → IsTrue result }
{
    block.x1 <= column.high && column.low < block.x2
}

/// Whether the block reaches into a row.
fn reaches_row(block: &Block, row: Range) -> bool
    ensures { (halves : ℤ) → IsHalfIn row halves
        → IsStrictlyBetween block.now.y1 block.now.y2 halves → IsTrue result }
{
    block.y1 <= row.high && row.low < block.y2
}

/// Whether all points of a cell lie strictly inside the block.
fn fills(block: &Block, column: Range, row: Range) -> bool
    ensures { IsTrue result → (at : Half) → IsHalfIn column at.x → IsHalfIn row at.y → IsHalfInside block.now at }
{
    spans_column(block, column) && spans_row(block, row)
}

/// Whether the block reaches into a cell.
fn meets(block: &Block, column: Range, row: Range) -> bool
    ensures { (at : Half) → IsHalfIn column at.x → IsHalfIn row at.y → IsHalfInside block.now at → IsTrue result }
{
    reaches_column(block, column) && reaches_row(block, row)
}

/// The blocks that reach into a cell, or one that fills it.
fn cell_of(
    alloc: Global,
    blocks: &[Block],
    column: Range,
    row: Range,
) -> Result<Vec<Block>, NoMemory>
    ensures { IfOk result (λ cell. IsCellOf blocks.now column row cell.items) }
{
    let mut cell = Vec::new(alloc);
    for block in blocks {
        if fills(block, column, row) {
            let mut filled = Vec::new(alloc);
            filled.push(*block)?;
            return Ok(filled);
        }
        if meets(block, column, row) {
            cell.push(*block)?;
        }
    }
    Ok(cell)
}

/// The cells of a column, from row to row.
fn column_of(
    alloc: Global,
    blocks: &[Block],
    column: Range,
    rows: &Bands,
) -> Result<Items<Items<Block>>, NoMemory>
    ensures { IfOk result (AreCells blocks.now column rows.now) }
{
    let mut cells = Vec::with_capacity(alloc, rows.count)?;
    for row in 0..rows.count {
        let cell = cell_of(alloc, blocks, column, numbers_of(rows, row))?;
        cells.push(Items::of(cell))?;
    }
    Ok(Items::of(cells))
}

/// The cells of all columns.
fn cells_of(
    alloc: Global,
    blocks: &[Block],
    columns: &Bands,
    rows: &Bands,
) -> Result<Items<Items<Items<Block>>>, NoMemory>
    ensures { IfOk result (AreColumns blocks.now columns.now rows.now) }
{
    let mut cells = Vec::with_capacity(alloc, columns.count)?;
    for index in 0..columns.count {
        let column = numbers_of(columns, index);
        let near = beside(alloc, blocks, column)?;
        cells.push(column_of(alloc, near.as_slice(), column, rows)?)?;
    }
    Ok(Items::of(cells))
}

/// The blocks that reach into a column.
fn beside(alloc: Global, blocks: &[Block], column: Range) -> Result<Vec<Block>, NoMemory>
    ensures sound { IfOk result (λ near. (block : Block) → Contains near.items block → Contains blocks.now block) }
    ensures complete { IfOk result (λ near. (block : Block) → Contains blocks.now block → (at : Half)
        → IsHalfIn column at.x → IsHalfInside block at → Contains near.items block) }
{
    let mut near = Vec::new(alloc);
    for block in blocks {
        if reaches_column(block, column) {
            near.push(*block)?;
        }
    }
    Ok(near)
}
