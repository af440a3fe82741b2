//! Lines and lists of lines, taken from the text one after another.

ghost use Rattle.std.specs.Prelude.{◌≡◌, ℕ, ◌+◌, ◌++◌, ◌∷◌, [], None, ◌^◌, ◌<◌, ◌≤◌, List, map, length, IfOk};
ghost use Rattle.cts_units.specs.declared.params.Sink.{Sink};
ghost use Rattle.cts_block.specs.declared.blocks.Block.{Block};
ghost use Rattle.cts_instance.specs.FirstFault.{block_count_fault, block_line, blocks_fault, buffer_count_fault, buffer_line, buffers_fault, counts_of, sink_count_fault, sink_line, sinks_fault};
ghost use Rattle.cts_read.specs.Grammar.{AtLine, Gives, item_at, left_of};
ghost use Rattle.cts_read.specs.Items.{block_of, buffer_of, list_at, sink_of};

use crate::cursor::{Cursor, next_line};
use crate::fields::refuse;
use crate::header::Source;
use crate::items::{block_numbers, buffer_numbers, sink_numbers};
use crate::stop::{Cause, ReadStop};
use cts_block::Block;
use cts_geom::Die;
use cts_instance::lines::{block_fault, buffer_fault, sink_fault};
use cts_instance::{BlockCounts, SinkIds, Version};
use cts_units::{Buffer, Sink};
use std::alloc::Global;

/// What was found in a line, or its cause with the number of the line.
pub fn at_line<T>(line: u32, found: Result<T, Cause>) -> Result<T, ReadStop>
    ensures { AtLine line found result }
{
    match found {
        Ok(item) => Ok(item),
        Err(cause) => Err(ReadStop::Refused { line, cause }),
    }
}

/// The next buffer, after those before it.
#[tactic(auto, unfolding(crate::specs::Grammar::item_at, crate::specs::Items::buffer_of, cts_instance::specs::FirstFault::buffer_line))]
fn read_buffer(lines: &mut Cursor<'_>, before: &[Buffer]) -> Result<Buffer, ReadStop>
    requires { length before.now < 2 ^ 32 }
    ensures read { Gives (λ x. x) result (left_of lines.new) (item_at (buffer_of before.now) (left_of lines.old)) }
    ensures sound { IfOk result (λ buffer. buffer_line before.now buffer ≡ None) }
    ensures text { lines.new.text ≡ lines.old.text }
{
    let (number, line) = next_line(lines)?;
    let buffer = at_line(number, buffer_numbers(line))?;
    at_line(number, refuse(buffer_fault(before.len() as u32, &buffer)))?;
    Ok(buffer)
}

/// The next sink, after those whose ids are `ids`.
#[tactic(auto, unfolding(crate::specs::Grammar::item_at, crate::specs::Items::sink_of, cts_instance::specs::FirstFault::sink_line))]
fn read_sink(
    lines: &mut Cursor<'_>,
    version: Version,
    die: &Die,
    ids: &mut SinkIds,
) -> Result<Sink, ReadStop>
    requires { length ids.old < 2 ^ 32 }
    ensures read { (before : List Sink) → ids.old ≡ map (λ sink. sink.id) before
        → Gives (λ x. x) result (left_of lines.new) (item_at (sink_of version die.now before) (left_of lines.old)) }
    ensures sound { (before : List Sink) → ids.old ≡ map (λ sink. sink.id) before
        → IfOk result (λ sink. sink_line version die.now before sink ≡ None) }
    ensures added { IfOk result (λ sink. ids.new ≡ ids.old ++ sink.id ∷ []) }
    ensures text { lines.new.text ≡ lines.old.text }
{
    let (number, line) = next_line(lines)?;
    let sink = at_line(number, sink_numbers(version, line))?;
    at_line(number, refuse(sink_fault(version, die, ids, &sink)?))?;
    Ok(sink)
}

/// The next block, after those that `counts` counts.
#[tactic(auto, unfolding(crate::specs::Grammar::item_at, crate::specs::Items::block_of, cts_instance::specs::FirstFault::block_line))]
fn read_block(
    lines: &mut Cursor<'_>,
    die: &Die,
    source: &Source,
    sinks: &[Sink],
    counts: BlockCounts,
) -> Result<Block, ReadStop>
    requires { counts.buffer + counts.all < 2 ^ 32 }
    ensures read { (before : List Block) → counts ≡ counts_of before
        → Gives (λ x. x) result (left_of lines.new)
        (item_at (block_of die.now source.now.x source.now.y sinks.now before) (left_of lines.old)) }
    ensures sound { (before : List Block) → counts ≡ counts_of before
        → IfOk result (λ block. block_line die.now source.now.x source.now.y sinks.now before block ≡ None) }
    ensures text { lines.new.text ≡ lines.old.text }
{
    let (number, line) = next_line(lines)?;
    let block = at_line(number, block_numbers(line))?;
    at_line(
        number,
        refuse(block_fault(die, source.x, source.y, sinks, counts, &block)),
    )?;
    Ok(block)
}

/// So many buffers.
pub fn read_buffers(
    alloc: Global,
    lines: &mut Cursor<'_>,
    count: usize,
) -> Result<Vec<Buffer>, ReadStop>
    requires count { count < 2 ^ 32 }
    requires announced { buffer_count_fault count ≡ None }
    ensures read { Gives (λ v. v.items) result (left_of lines.new) (list_at buffer_of count [] (left_of lines.old)) }
    ensures many { IfOk result (λ v. length v.items ≡ count) }
    ensures sound { IfOk result (λ v. buffers_fault v.items ≡ None) }
    ensures text { lines.new.text ≡ lines.old.text }
{
    let mut buffers = Vec::new(alloc);
    for _ in 0..count {
        let buffer = read_buffer(lines, &buffers)?;
        buffers.push(buffer)?;
    }
    Ok(buffers)
}

/// So many sinks.
pub fn read_sinks(
    alloc: Global,
    lines: &mut Cursor<'_>,
    version: Version,
    die: &Die,
    count: usize,
) -> Result<Vec<Sink>, ReadStop>
    requires count { count < 2 ^ 32 }
    requires announced { sink_count_fault count ≡ None }
    ensures read { Gives (λ v. v.items) result (left_of lines.new) (list_at (sink_of version die.now) count [] (left_of lines.old)) }
    ensures many { IfOk result (λ v. length v.items ≡ count) }
    ensures sound { IfOk result (λ v. sinks_fault version die.now v.items ≡ None) }
    ensures text { lines.new.text ≡ lines.old.text }
{
    let mut sinks = Vec::with_capacity(alloc, count)?;
    let mut ids = SinkIds::with_capacity(alloc, count)?;
    for _ in 0..count {
        let sink = read_sink(lines, version, die, &mut ids)?;
        sinks.push(sink)?;
    }
    Ok(sinks)
}

/// So many blocks.
pub fn read_blocks(
    alloc: Global,
    lines: &mut Cursor<'_>,
    die: &Die,
    source: &Source,
    sinks: &[Sink],
    count: usize,
) -> Result<Vec<Block>, ReadStop>
    requires count { count < 2 ^ 32 }
    requires announced { block_count_fault count ≡ None }
    ensures read { Gives (λ v. v.items) result (left_of lines.new)
        (list_at (block_of die.now source.now.x source.now.y sinks.now) count [] (left_of lines.old)) }
    ensures many { IfOk result (λ v. length v.items ≡ count) }
    ensures sound { IfOk result (λ v. blocks_fault die.now source.now.x source.now.y sinks.now v.items ≡ None) }
    ensures text { lines.new.text ≡ lines.old.text }
{
    let mut blocks = Vec::new(alloc);
    let mut counts = BlockCounts::none();
    for _ in 0..count {
        let block = read_block(lines, die, source, sinks, counts)?;
        blocks.push(block)?;
        counts = counts.with(block.kind);
    }
    Ok(blocks)
}
