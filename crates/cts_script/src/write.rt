//! Instances written to a sink.

ghost use Rattle.std.specs.Prelude.{ℕ, ◌++◌, map, codes};
ghost use Rattle.std.specs.List.{concat, flat_map};
ghost use Rattle.cts_io.specs.Text.{Puts, Writes};
ghost use Rattle.cts_script.specs.Text.{after_space, block_line, buffer_line, count_line, die_line, end_line, head_lines, instance_text, kind_word, limits_line, list_lines, offset_words, sink_line, source_line, version_line, version_word, wire_line};

use crate::words::{put_coordinate, put_number, put_word};
use cts_block::{Block, Kind};
use cts_geom::Die;
use cts_instance::{Instance, Version};
use cts_io::{ByteSink, SinkBuffer, WriteEnd};
use cts_units::{Buffer, Sink, Wire};

/// Writes the canonical text of an instance: its lines in order, one space between two words, each
/// number in its canonical form at its places, and a line feed after each line. It takes no memory.
///
/// - `Ok`: the sink has taken the whole text.
/// - `WriteFault`: only where the sink's count of faults rose in this call; the sink has taken exactly
///   the front of the text that the answer tells.
pub fn write_instance<K: ByteSink>(sink: &mut K, instance: &Instance) -> Result<(), WriteEnd>
    ensures { Writes K.held K.faults sink.old sink.new (instance_text instance.now) result }
{
    let mut out = SinkBuffer::new();
    put_head(&mut out, sink, instance);
    put_buffers(&mut out, sink, instance.params().library.items());
    put_sinks(&mut out, sink, instance.version(), instance.sinks());
    put_blocks(&mut out, sink, instance.blocks());
    out.put(sink, b"end\n");
    out.finish(sink)
}

/// The lines before the lists.
fn put_head<K: ByteSink>(out: &mut SinkBuffer, sink: &mut K, instance: &Instance)
    ensures { Puts K.ByteSink (sink.old, out.old) (sink.new, out.new) (concat (head_lines instance.now)) }
{
    put_version(out, sink, instance.version());
    put_die(out, sink, instance.die());
    put_source(
        out,
        sink,
        instance.source_x(),
        instance.source_y(),
        instance.source_r(),
    );
    put_wire(out, sink, instance.params().wire);
    put_limits(
        out,
        sink,
        instance.params().insert_at,
        instance.load_limit(),
        instance.slew_limit(),
    );
}

fn put_version<K: ByteSink>(out: &mut SinkBuffer, sink: &mut K, version: Version)
    ensures { Puts K.ByteSink (sink.old, out.old) (sink.new, out.new) (version_line version) }
{
    out.put(sink, b"cts");
    put_version_word(out, sink, version);
    out.put(sink, b"\n");
}

fn put_version_word<K: ByteSink>(out: &mut SinkBuffer, sink: &mut K, version: Version)
    ensures { Puts K.ByteSink (sink.old, out.old) (sink.new, out.new) (after_space (version_word version)) }
{
    match version {
        Version::One => put_word(out, sink, b"1"),
        Version::Two => put_word(out, sink, b"2"),
    }
}

fn put_die<K: ByteSink>(out: &mut SinkBuffer, sink: &mut K, die: Die)
    ensures { Puts K.ByteSink (sink.old, out.old) (sink.new, out.new) (die_line die) }
{
    out.put(sink, b"die");
    put_coordinate(out, sink, die.x1);
    put_coordinate(out, sink, die.y1);
    put_coordinate(out, sink, die.x2);
    put_coordinate(out, sink, die.y2);
    out.put(sink, b"\n");
}

fn put_source<K: ByteSink>(out: &mut SinkBuffer, sink: &mut K, x: i64, y: i64, r: u64)
    ensures { Puts K.ByteSink (sink.old, out.old) (sink.new, out.new) (source_line x y r) }
{
    out.put(sink, b"source");
    put_coordinate(out, sink, x);
    put_coordinate(out, sink, y);
    put_number(out, sink, 6, r);
    out.put(sink, b"\n");
}

fn put_wire<K: ByteSink>(out: &mut SinkBuffer, sink: &mut K, wire: Wire)
    ensures { Puts K.ByteSink (sink.old, out.old) (sink.new, out.new) (wire_line wire) }
{
    out.put(sink, b"wire");
    put_number(out, sink, 3, wire.r);
    put_number(out, sink, 3, wire.c);
    out.put(sink, b"\n");
}

fn put_limits<K: ByteSink>(out: &mut SinkBuffer, sink: &mut K, insert_at: u64, load: u64, slew: u64)
    ensures { Puts K.ByteSink (sink.old, out.old) (sink.new, out.new) (limits_line insert_at load slew) }
{
    out.put(sink, b"limits");
    put_number(out, sink, 6, insert_at);
    put_number(out, sink, 6, load);
    put_number(out, sink, 15, slew);
    out.put(sink, b"\n");
}

/// The line that says how many lines of a list follow.
fn put_count<K: ByteSink>(out: &mut SinkBuffer, sink: &mut K, key: &[u8], count: usize)
    ensures { Puts K.ByteSink (sink.old, out.old) (sink.new, out.new) (count_line key.now count) }
{
    out.put(sink, key);
    put_number(out, sink, 0, count as u64);
    out.put(sink, b"\n");
}

fn put_buffers<K: ByteSink>(out: &mut SinkBuffer, sink: &mut K, buffers: &[Buffer])
    ensures { Puts K.ByteSink (sink.old, out.old) (sink.new, out.new)
        (concat (list_lines (codes "buffers") buffer_line buffers.now)) }
{
    put_count(out, sink, b"buffers", buffers.len());
    for buffer in buffers {
        put_buffer(out, sink, buffer);
    }
}

fn put_buffer<K: ByteSink>(out: &mut SinkBuffer, sink: &mut K, buffer: &Buffer)
    ensures { Puts K.ByteSink (sink.old, out.old) (sink.new, out.new) (buffer_line buffer.now) }
{
    out.put(sink, b"buffer");
    put_number(out, sink, 6, buffer.cin);
    put_number(out, sink, 6, buffer.rout);
    put_number(out, sink, 15, buffer.intrinsic);
    out.put(sink, b"\n");
}

fn put_sinks<K: ByteSink>(out: &mut SinkBuffer, sink: &mut K, version: Version, sinks: &[Sink])
    ensures { Puts K.ByteSink (sink.old, out.old) (sink.new, out.new)
        (concat (list_lines (codes "sinks") (sink_line version) sinks.now)) }
{
    put_count(out, sink, b"sinks", sinks.len());
    for item in sinks {
        put_sink(out, sink, version, item);
    }
}

fn put_sink<K: ByteSink>(out: &mut SinkBuffer, sink: &mut K, version: Version, item: &Sink)
    ensures { Puts K.ByteSink (sink.old, out.old) (sink.new, out.new) (sink_line version item.now) }
{
    out.put(sink, b"sink");
    put_number(out, sink, 0, u64::from(item.id));
    put_coordinate(out, sink, item.x);
    put_coordinate(out, sink, item.y);
    put_number(out, sink, 6, item.cap);
    put_offset(out, sink, version, item.offset);
    out.put(sink, b"\n");
}

/// The offset of a sink, which version 2 alone spells.
fn put_offset<K: ByteSink>(out: &mut SinkBuffer, sink: &mut K, version: Version, offset: u64)
    ensures { Puts K.ByteSink (sink.old, out.old) (sink.new, out.new)
        (flat_map after_space (offset_words version offset)) }
{
    match version {
        Version::One => {}
        Version::Two => put_number(out, sink, 15, offset),
    }
}

fn put_blocks<K: ByteSink>(out: &mut SinkBuffer, sink: &mut K, blocks: &[Block])
    ensures { Puts K.ByteSink (sink.old, out.old) (sink.new, out.new)
        (concat (list_lines (codes "blocks") block_line blocks.now)) }
{
    put_count(out, sink, b"blocks", blocks.len());
    for block in blocks {
        put_block(out, sink, block);
    }
}

fn put_block<K: ByteSink>(out: &mut SinkBuffer, sink: &mut K, block: &Block)
    ensures { Puts K.ByteSink (sink.old, out.old) (sink.new, out.new) (block_line block.now) }
{
    out.put(sink, b"block");
    put_kind(out, sink, block.kind);
    put_coordinate(out, sink, block.x1);
    put_coordinate(out, sink, block.y1);
    put_coordinate(out, sink, block.x2);
    put_coordinate(out, sink, block.y2);
    out.put(sink, b"\n");
}

fn put_kind<K: ByteSink>(out: &mut SinkBuffer, sink: &mut K, kind: Kind)
    ensures { Puts K.ByteSink (sink.old, out.old) (sink.new, out.new) (after_space (kind_word kind)) }
{
    match kind {
        Kind::Buffer => put_word(out, sink, b"buffer"),
        Kind::All => put_word(out, sink, b"all"),
    }
}
