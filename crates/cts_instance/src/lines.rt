//! The first fault of each line of an instance, given what the lines before it say.
//!
//! A reader asks these calls line by line. Where each answers `None`, the parts are valid.

ghost use Rattle.std.specs.Prelude.{◌≡◌, ◌+◌, ◌^◌, ◌<◌, ◌++◌, ◌∷◌, [], None, length, IfOk};
ghost use Rattle.cts_instance.specs.FirstFault.{die_fault, source_fault, wire_fault, limits_fault, buffer_count_fault, buffer_fault, sink_count_fault, sink_fault, block_count_fault, block_fault};

use crate::counts::BlockCounts;
use crate::fault::{Fault, Item};
use crate::ids::SinkIds;
use crate::rules::{
    has_room, is_block_in_die, is_bounded, is_buffer, is_clear, is_die, is_in_die, is_limits,
    is_sink, is_upright, is_wire,
};
use crate::version::Version;
use cts_block::Block;
use cts_geom::Die;
use cts_num::NoMemory;
use cts_units::{Buffer, MAX_BUFFERS, MAX_SINKS, Sink, Wire};

/// The most blocks of both kinds.
pub const MAX_BLOCKS: usize = 4_160;

/// `Range{Die}` where a coordinate is below 0 or above 10^8 nm, or the corners are in the wrong
/// order.
#[tactic(auto, unfolding(crate::specs::FirstFault::die_fault))]
pub fn die_fault(die: &Die) -> Option<Fault>
    ensures { result ≡ die_fault die.now }
{
    if is_die(die) {
        None
    } else {
        Some(Fault::Range { item: Item::Die })
    }
}

/// `Range{Source}` where the resistance `r` is 10^18 µΩ or more, then `Outside{Source}` where the
/// place, in nm, is not in the closed die.
#[tactic(auto, unfolding(crate::specs::FirstFault::source_fault))]
pub fn source_fault(die: &Die, x: i64, y: i64, r: u64) -> Option<Fault>
    ensures { result ≡ source_fault die.now x y r }
{
    let item = Item::Source;
    if !is_bounded(r) {
        Some(Fault::Range { item })
    } else if !is_in_die(die, x, y) {
        Some(Fault::Outside { item })
    } else {
        None
    }
}

/// `Range{Wire}` where a number is not from 1 to 10^6.
#[tactic(auto, unfolding(crate::specs::FirstFault::wire_fault))]
pub fn wire_fault(wire: Wire) -> Option<Fault>
    ensures { result ≡ wire_fault wire }
{
    if is_wire(wire) {
        None
    } else {
        Some(Fault::Range { item: Item::Wire })
    }
}

/// `Range{Limits}` where one of the insertion threshold and the load limit, in zF, and the slew
/// limit, in 10^-27 s, is 10^18 or more.
#[tactic(auto, unfolding(crate::specs::FirstFault::limits_fault))]
pub fn limits_fault(insert_at: u64, load: u64, slew: u64) -> Option<Fault>
    ensures { result ≡ limits_fault insert_at load slew }
{
    if is_limits(insert_at, load, slew) {
        None
    } else {
        Some(Fault::Range { item: Item::Limits })
    }
}

/// `TooMany{Buffers}` where there are more than 16.
#[tactic(auto, unfolding(crate::specs::FirstFault::buffer_count_fault))]
pub fn buffer_count_fault(count: usize) -> Option<Fault>
    ensures { result ≡ buffer_count_fault count }
{
    if count <= MAX_BUFFERS {
        None
    } else {
        Some(Fault::TooMany {
            item: Item::Buffers,
        })
    }
}

/// `Range{Buffer(number)}` where the input capacitance is above 10^12 zF, or the resistance or the
/// delay is 10^18 of its unit or more.
#[tactic(auto, unfolding(crate::specs::FirstFault::buffer_fault))]
pub fn buffer_fault(number: u32, buffer: &Buffer) -> Option<Fault>
    ensures { result ≡ buffer_fault number buffer.now }
{
    if is_buffer(buffer) {
        None
    } else {
        Some(Fault::Range {
            item: Item::Buffer(number),
        })
    }
}

/// `NoSink` where there is none, `TooMany{Sinks}` where there are more than 65,536.
#[tactic(auto, unfolding(crate::specs::FirstFault::sink_count_fault))]
pub fn sink_count_fault(count: usize) -> Option<Fault>
    ensures { result ≡ sink_count_fault count }
{
    if count == 0 {
        Some(Fault::NoSink)
    } else if count > MAX_SINKS {
        Some(Fault::TooMany { item: Item::Sinks })
    } else {
        None
    }
}

/// `Range{Sink(k)}` where the id is above 999,999,999, the capacitance above 10^12 zF or the offset
/// 10^18 of 10^-27 s or more, or where the offset is not 0 in version 1, then
/// `TwiceSink{id}` where an earlier sink has the id, then `Outside{Sink(k)}` where the place, in nm,
/// is not in the closed die. The k earlier sinks have the ids `ids`, to which the call adds this
/// sink's id where it has no fault. After a fault it may have added it too.
#[tactic(auto, unfolding(crate::specs::FirstFault::sink_fault))]
pub fn sink_fault(
    version: Version,
    die: &Die,
    ids: &mut SinkIds,
    sink: &Sink,
) -> Result<Option<Fault>, NoMemory>
    requires { length ids.old < 2 ^ 32 }
    ensures fault { IfOk result (λ fault. fault ≡ sink_fault version die.now ids.old sink.now) }
    ensures added { IfOk result (λ fault. fault ≡ None → ids.new ≡ ids.old ++ sink.now.id ∷ []) }
{
    let item = Item::Sink(ids.len() as u32);
    if !is_sink(version, sink) {
        return Ok(Some(Fault::Range { item }));
    }
    if !ids.insert(sink.id)? {
        return Ok(Some(Fault::TwiceSink { id: sink.id }));
    }
    if !is_in_die(die, sink.x, sink.y) {
        return Ok(Some(Fault::Outside { item }));
    }
    Ok(None)
}

/// `TooMany{Blocks}` where there are more than 4,160.
#[tactic(auto, unfolding(crate::specs::FirstFault::block_count_fault))]
pub fn block_count_fault(count: usize) -> Option<Fault>
    ensures { result ≡ block_count_fault count }
{
    if count <= MAX_BLOCKS {
        None
    } else {
        Some(Fault::TooMany { item: Item::Blocks })
    }
}

/// `Range{Block(k)}` where the corners are in the wrong order, then `Outside{Block(k)}` where the
/// block is not wholly in the closed die, then `TooMany{Block(k)}` where it is the 4,097th of kind
/// `Buffer` or the 65th of kind `All`, then `InBlock{Block(k)}` where it is of kind `All` and the
/// source, at (x, y) in nm, or a sink is strictly inside. The k earlier blocks are counted in
/// `counts`.
#[tactic(auto, unfolding(crate::specs::FirstFault::block_fault))]
pub fn block_fault(
    die: &Die,
    x: i64,
    y: i64,
    sinks: &[Sink],
    counts: BlockCounts,
    block: &Block,
) -> Option<Fault>
    requires { counts.buffer + counts.all < 2 ^ 32 }
    ensures { result ≡ block_fault die.now x y sinks.now counts block.now }
{
    let item = Item::Block(counts.buffer + counts.all);
    if !is_upright(block) {
        Some(Fault::Range { item })
    } else if !is_block_in_die(die, block) {
        Some(Fault::Outside { item })
    } else if !has_room(counts, block.kind) {
        Some(Fault::TooMany { item })
    } else if !is_clear(block, x, y, sinks) {
        Some(Fault::InBlock { item })
    } else {
        None
    }
}
