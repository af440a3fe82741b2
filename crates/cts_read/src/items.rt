//! The lines of the lists: buffers, sinks and blocks.

ghost use Rattle.std.specs.Prelude.{◌≡◌, ◌-◌, ◌^◌, ◌<◌, None, IfOk};
ghost use Rattle.cts_instance.specs.FirstFault.{block_count_fault, buffer_count_fault, sink_count_fault};
ghost use Rattle.cts_read.specs.Grammar.{Finds};
ghost use Rattle.cts_read.specs.Items.{block_count_of, block_numbers, buffer_count_of, buffer_numbers, count_of, end_of, kind_of, offset_of, sink_count_of, sink_numbers, sink_word_count};
ghost use Rattle.cts_read.specs.Lines.{words_of};

use crate::fields::{fields, number, refuse};
use crate::plain::plain_sink;
use crate::stop::Cause;
use crate::words::word_at;
use cts_block::{Block, Kind};
use cts_instance::Version;
use cts_instance::lines::{block_count_fault, buffer_count_fault, sink_count_fault};
use cts_units::{Buffer, Sink};

/// A line that says how many lines of a list follow.
#[tactic(auto, unfolding(crate::specs::Items::count_of))]
fn count_of(key: &[u8], line: &[u8]) -> Result<usize, Cause>
    ensures { result ≡ count_of key.now line.now }
{
    let rest = fields(key, 1, line)?;
    let (count, _) = number(0, rest)?;
    Ok(count as usize)
}

/// The line that says how many buffers follow, at most 16.
#[tactic(auto, unfolding(crate::specs::Items::buffer_count_of), using(crate::proofs::Counts::buffer_count_small))]
pub fn buffer_count_of(line: &[u8]) -> Result<usize, Cause>
    ensures read { result ≡ buffer_count_of line.now }
    ensures sound { IfOk result (λ count. buffer_count_fault count ≡ None) }
    ensures bound { IfOk result (λ count. count < 2 ^ 32) }
{
    let count = count_of(b"buffers", line)?;
    refuse(buffer_count_fault(count))?;
    Ok(count)
}

/// The line that says how many sinks follow, from 1 to 65,536.
#[tactic(auto, unfolding(crate::specs::Items::sink_count_of), using(crate::proofs::Counts::sink_count_small))]
pub fn sink_count_of(line: &[u8]) -> Result<usize, Cause>
    ensures read { result ≡ sink_count_of line.now }
    ensures sound { IfOk result (λ count. sink_count_fault count ≡ None) }
    ensures bound { IfOk result (λ count. count < 2 ^ 32) }
{
    let count = count_of(b"sinks", line)?;
    refuse(sink_count_fault(count))?;
    Ok(count)
}

/// The line that says how many blocks follow, at most 4,160.
#[tactic(auto, unfolding(crate::specs::Items::block_count_of), using(crate::proofs::Counts::block_count_small))]
pub fn block_count_of(line: &[u8]) -> Result<usize, Cause>
    ensures read { result ≡ block_count_of line.now }
    ensures sound { IfOk result (λ count. block_count_fault count ≡ None) }
    ensures bound { IfOk result (λ count. count < 2 ^ 32) }
{
    let count = count_of(b"blocks", line)?;
    refuse(block_count_fault(count))?;
    Ok(count)
}

/// A buffer: its input capacitance in zF, its resistance in µΩ and its delay in 10^-27 s.
#[tactic(auto, unfolding(crate::specs::Items::buffer_numbers))]
pub fn buffer_numbers(line: &[u8]) -> Result<Buffer, Cause>
    ensures { result ≡ buffer_numbers line.now }
{
    let rest = fields(b"buffer", 3, line)?;
    let (cin, rest) = number(6, rest)?;
    let (rout, rest) = number(6, rest)?;
    let (intrinsic, _) = number(15, rest)?;
    Ok(Buffer {
        cin,
        rout,
        intrinsic,
    })
}

/// A sink: its id, its place in nm, its capacitance in zF, and in version 2 its offset in 10^-27 s.
pub fn sink_numbers(version: Version, line: &[u8]) -> Result<Sink, Cause>
    ensures { result ≡ sink_numbers version line.now }
{
    match plain_sink(version, line) {
        Some(sink) => Ok(sink),
        None => any_sink(version, line),
    }
}

/// As [`sink_numbers`], word by word.
#[tactic(auto, unfolding(crate::specs::Items::sink_numbers))]
fn any_sink(version: Version, line: &[u8]) -> Result<Sink, Cause>
    ensures { result ≡ sink_numbers version line.now }
{
    let rest = fields(b"sink", sink_word_count(version), line)?;
    let (id, rest) = number(0, rest)?;
    let (x, rest) = number(3, rest)?;
    let (y, rest) = number(3, rest)?;
    let (cap, rest) = number(6, rest)?;
    let (offset, _) = offset_of(version, rest)?;
    Ok(Sink {
        id: id.min(u64::from(u32::MAX)) as u32,
        x: x as i64,
        y: y as i64,
        cap,
        offset,
    })
}

/// How many words follow the first one of a sink's line.
fn sink_word_count(version: Version) -> usize
    ensures { result ≡ sink_word_count version }
{
    match version {
        Version::One => 4,
        Version::Two => 5,
    }
}

/// The offset of a sink, a word of version 2 alone, and what comes after it.
#[tactic(auto, unfolding(crate::specs::Items::offset_of))]
fn offset_of(version: Version, words: &[u8]) -> Result<(u64, &[u8]), Cause>
    ensures { Finds (λ x. (x.0, words_of x.1.now)) result (offset_of version (words_of words.now)) }
{
    match version {
        Version::One => Ok((0, words)),
        Version::Two => number(15, words),
    }
}

/// The kind of a block, and what comes after it.
#[tactic(auto, unfolding(crate::specs::Items::kind_of))]
fn kind_of(words: &[u8]) -> Result<(Kind, &[u8]), Cause>
    ensures { Finds (λ x. (x.0, words_of x.1.now)) result (kind_of (words_of words.now)) }
{
    match word_at(words) {
        Some((word, rest)) if word == b"buffer".as_slice() => Ok((Kind::Buffer, rest)),
        Some((word, rest)) if word == b"all".as_slice() => Ok((Kind::All, rest)),
        _ => Err(Cause::Word),
    }
}

/// A block: its kind, and its lower left and its upper right corner in nm.
#[tactic(auto, unfolding(crate::specs::Items::block_numbers))]
pub fn block_numbers(line: &[u8]) -> Result<Block, Cause>
    ensures { result ≡ block_numbers line.now }
{
    let rest = fields(b"block", 5, line)?;
    let (kind, rest) = kind_of(rest)?;
    let (x1, rest) = number(3, rest)?;
    let (y1, rest) = number(3, rest)?;
    let (x2, rest) = number(3, rest)?;
    let (y2, _) = number(3, rest)?;
    Ok(Block {
        kind,
        x1: x1 as i64,
        y1: y1 as i64,
        x2: x2 as i64,
        y2: y2 as i64,
    })
}

/// The line that ends an instance.
#[tactic(auto, unfolding(crate::specs::Items::end_of))]
pub fn end_of(line: &[u8]) -> Result<(), Cause>
    ensures { result ≡ end_of line.now }
{
    fields(b"end", 0, line)?;
    Ok(())
}
