//! The first fault of the parts of an instance.

ghost use Rattle.std.specs.Prelude.{◌≡◌, ◌≤◌, [], None, length, IfOk, IfErr, OnOk};
ghost use Rattle.cts_instance.specs.FirstFault.{◌or◌, first_of, buffer_line, sink_line, block_line, buffers_fault, sinks_fault, blocks_fault, die_fault, source_fault, wire_fault, limits_fault, first_fault, Ends};
ghost use Rattle.cts_units.specs.Limits.{max_buffers, max_sinks};
ghost use Rattle.cts_instance.specs.Tests.{max_blocks};
ghost use Rattle.cts_instance.specs.Validity.{IsValid};

use crate::counts::BlockCounts;
use crate::fault::{CheckEnd, Fault};
use crate::ids::SinkIds;
use crate::instance::Instance;
use crate::lines::{
    block_count_fault, block_fault, buffer_count_fault, buffer_fault, die_fault, limits_fault,
    sink_count_fault, sink_fault, source_fault, wire_fault,
};
use crate::parts::Parts;
use crate::version::Version;
use cts_block::Block;
use cts_geom::Die;
use cts_num::NoMemory;
use cts_units::{Buffer, Sink};
use std::alloc::Global;

fn faulty_buffer(buffers: &[Buffer]) -> Option<Fault>
    requires { length buffers.now ≤ max_buffers }
    ensures { result ≡ first_of buffer_line [] buffers.now }
{
    for (number, buffer) in buffers.iter().enumerate() {
        if let Some(fault) = buffer_fault(number as u32, buffer) {
            return Some(fault);
        }
    }
    None
}

fn faulty_sink(
    alloc: Global,
    version: Version,
    die: &Die,
    sinks: &[Sink],
) -> Result<Option<Fault>, NoMemory>
    requires { length sinks.now ≤ max_sinks }
    ensures { IfOk result (λ fault. fault ≡ first_of (sink_line version die.now) [] sinks.now) }
{
    let mut ids = SinkIds::with_capacity(alloc, sinks.len())?;
    for sink in sinks {
        if let Some(fault) = sink_fault(version, die, &mut ids, sink)? {
            return Ok(Some(fault));
        }
    }
    Ok(None)
}

fn faulty_block(die: &Die, x: i64, y: i64, sinks: &[Sink], blocks: &[Block]) -> Option<Fault>
    requires { length blocks.now ≤ max_blocks }
    ensures { result ≡ first_of (block_line die.now x y sinks.now) [] blocks.now }
{
    let mut counts = BlockCounts::none();
    for block in blocks {
        if let Some(fault) = block_fault(die, x, y, sinks, counts, block) {
            return Some(fault);
        }
        counts = counts.with(block.kind);
    }
    None
}

#[tactic(auto, using(crate::proofs::ValidityLemmas::buffer_count), unfolding(crate::specs::FirstFault::buffers_fault))]
fn buffers_fault(buffers: &[Buffer]) -> Option<Fault>
    ensures { result ≡ buffers_fault buffers.now }
{
    match buffer_count_fault(buffers.len()) {
        Some(fault) => Some(fault),
        None => faulty_buffer(buffers),
    }
}

#[tactic(auto, using(crate::proofs::ValidityLemmas::sink_count), unfolding(crate::specs::FirstFault::sinks_fault))]
fn sinks_fault(
    alloc: Global,
    version: Version,
    die: &Die,
    sinks: &[Sink],
) -> Result<Option<Fault>, NoMemory>
    ensures { IfOk result (λ fault. fault ≡ sinks_fault version die.now sinks.now) }
{
    match sink_count_fault(sinks.len()) {
        Some(fault) => Ok(Some(fault)),
        None => faulty_sink(alloc, version, die, sinks),
    }
}

#[tactic(auto, using(crate::proofs::ValidityLemmas::block_count), unfolding(crate::specs::FirstFault::blocks_fault))]
fn blocks_fault(die: &Die, x: i64, y: i64, sinks: &[Sink], blocks: &[Block]) -> Option<Fault>
    ensures { result ≡ blocks_fault die.now x y sinks.now blocks.now }
{
    match block_count_fault(blocks.len()) {
        Some(fault) => Some(fault),
        None => faulty_block(die, x, y, sinks, blocks),
    }
}

fn head_fault(parts: &Parts) -> Option<Fault>
    ensures { let p = parts.now in result
        ≡ (die_fault p.die
        or source_fault p.die p.source_x p.source_y p.source_r
        or wire_fault p.params.wire
        or limits_fault p.params.insert_at p.load_limit p.slew_limit
        or buffers_fault p.params.library) }
{
    let die = &parts.die;
    let params = &parts.params;
    die_fault(die)
        .or(source_fault(die, parts.source_x, parts.source_y, parts.source_r))
        .or(wire_fault(params.wire))
        .or(limits_fault(params.insert_at, parts.load_limit, parts.slew_limit))
        .or(buffers_fault(params.library.items()))
}

#[tactic(auto, unfolding(crate::specs::FirstFault::first_fault))]
fn first_fault(alloc: Global, parts: &Parts) -> Result<Option<Fault>, NoMemory>
    ensures { IfOk result (λ fault. fault ≡ first_fault parts.now) }
{
    if let Some(fault) = head_fault(parts) {
        return Ok(Some(fault));
    }
    let die = &parts.die;
    let sinks = parts.sinks.items();
    if let Some(fault) = sinks_fault(alloc, parts.version, die, sinks)? {
        return Ok(Some(fault));
    }
    Ok(blocks_fault(
        die,
        parts.source_x,
        parts.source_y,
        sinks,
        parts.blocks.items(),
    ))
}

/// The instance of these parts, or their first fault: `Ok` exactly where the parts are valid, unless
/// memory runs out.
///
/// The faults stand in the order of the lines of an instance's text: the die, the source, the wire,
/// the limits, the number of buffers, each buffer, the number of sinks, each sink, the number of
/// blocks, each block. The parts are dropped on a refusal.
#[tactic(auto, using(crate::proofs::ValidityLemmas::valid_from_no_fault))]
pub fn check_instance(alloc: Global, parts: Parts) -> Result<Instance, CheckEnd>
    ensures same { IfOk result (λ instance. instance ≡ parts) }
    ensures no_fault { OnOk result (first_fault parts ≡ None) }
    ensures valid { OnOk result (IsValid parts) }
    ensures first_fault { IfErr result (Ends (first_fault parts)) }
    ensures accepted { IsValid parts → IfErr result (λ end. end ≡ CheckEnd.NoMemory) }
{
    match first_fault(alloc, &parts)? {
        Some(fault) => Err(CheckEnd::Fault(fault)),
        None => Ok(Instance::of(parts)),
    }
}
