//! A whole instance, and what may follow it.

ghost use Rattle.std.specs.Prelude.{◌≡◌, ℕ, List, Result, ◌<◌, ◌≤◌, ◌^◌, None, Ok, IfOk, IfErr, length, drop};
ghost use Rattle.std.specs.Borrow.{Bor};
ghost use Rattle.cts_read.specs.Place.{IsAfterLine};
ghost use Rattle.cts_io.specs.Lines.{lines_of};
ghost use Rattle.cts_instance.specs.FirstFault.{block_count_fault, buffer_count_fault, die_fault, first_fault, limits_fault, sink_count_fault, source_fault, wire_fault};
ghost use Rattle.cts_read.specs.Grammar.{Gives, Refuses, content, item_at, left_of};
ghost use Rattle.cts_read.specs.Header.{die_of, limits_of, source_of, version_of, wire_of};
ghost use Rattle.cts_read.specs.Items.{block_count_of, buffer_count_of, sink_count_of};
ghost use Rattle.cts_read.specs.Whole.{IsSoundHead, IsSoundLists, Rests, end_at, head_at, instance_of, lists_at, parts_of, place_at, rest_of};

use crate::cursor::{Cursor, next_line};
use crate::header::{Limits, Source, die_of, limits_of, source_of, version_of, wire_of};
use crate::items::{block_count_of, buffer_count_of, end_of, sink_count_of};
use crate::left::none_left;
use crate::lists::{at_line, read_blocks, read_buffers, read_sinks};
use crate::stop::{Cause, ReadStop};
use cts_geom::Die;
use cts_instance::{Blocks, Instance, Parts, Sinks, Version};
use cts_io::Lines;
use cts_units::{Library, Params, Wire};
use std::alloc::Global;

/// What comes before the lists.
#[derive(Drop)]
struct Head {
    version: Version,
    die: Die,
    source: Source,
    wire: Wire,
    limits: Limits,
}

/// The next line, read by one of the calls for its kind.
#[tactic(auto, unfolding(crate::specs::Grammar::item_at))]
fn read_line<T, F: FnOnce(&[u8]) -> Result<T, Cause>>(
    lines: &mut Cursor<'_>,
    read: F,
) -> Result<T, ReadStop>
    ghost item: { List ℕ → Result T Cause }
    requires callable { F.IsAlwaysCallable read }
    requires item { (line : Bor (List ℕ)) (found : Result T Cause) → F.post read line found → found ≡ item line.now }
    ensures read { Gives (λ x. x) result (left_of lines.new) (item_at item (left_of lines.old)) }
    ensures found { IfOk result (λ x. (line : Bor (List ℕ)) × F.post read line (Ok x)) }
    ensures text { lines.new.text ≡ lines.old.text }
{
    let (number, line) = next_line(lines)?;
    at_line(number, read(line))
}

/// The line `end`, and its number.
#[tactic(auto, unfolding(crate::specs::Whole::end_at))]
fn read_end(lines: &mut Cursor<'_>) -> Result<u32, ReadStop>
    ensures read { Gives (λ x. x) result (left_of lines.new) (end_at (left_of lines.old)) }
    ensures number { IfOk result (λ number. lines.new.line ≡ number) }
    ensures some { IfOk result (λ number. 0 < number) }
    ensures text { lines.new.text ≡ lines.old.text }
{
    let (number, line) = next_line(lines)?;
    at_line(number, end_of(line))?;
    Ok(number)
}

/// The lines before the lists.
#[tactic(auto, unfolding(crate::specs::Whole::head_at))]
fn read_head(lines: &mut Cursor<'_>) -> Result<Head, ReadStop>
    ensures read { Gives (λ x. x) result (left_of lines.new) (head_at (left_of lines.old)) }
    ensures sound { IfOk result IsSoundHead }
    ensures text { lines.new.text ≡ lines.old.text }
{
    let version = read_line(lines, version_of)?;
    let die = read_line(lines, die_of)?;
    let source = read_line(lines, |line| source_of(&die, line))?;
    let wire = read_line(lines, wire_of)?;
    let limits = read_line(lines, limits_of)?;
    Ok(Head {
        version,
        die,
        source,
        wire,
        limits,
    })
}

/// The lists.
#[derive(Drop)]
struct Lists {
    buffers: Library,
    sinks: Sinks,
    blocks: Blocks,
}

/// The lists, after what comes before them.
#[tactic(auto, unfolding(crate::specs::Whole::lists_at))]
fn read_lists(alloc: Global, lines: &mut Cursor<'_>, head: &Head) -> Result<Lists, ReadStop>
    ensures read { Gives (λ x. x) result (left_of lines.new) (lists_at head.now (left_of lines.old)) }
    ensures sound { IfOk result (IsSoundLists head.now) }
    ensures text { lines.new.text ≡ lines.old.text }
{
    let buffer_count = read_line(lines, buffer_count_of)?;
    let buffers = read_buffers(alloc, lines, buffer_count)?;
    let sink_count = read_line(lines, sink_count_of)?;
    let sinks = read_sinks(alloc, lines, head.version, &head.die, sink_count)?;
    let block_count = read_line(lines, block_count_of)?;
    let blocks = read_blocks(alloc, lines, &head.die, &head.source, &sinks, block_count)?;
    Ok(Lists {
        buffers: Library::of(buffers),
        sinks: Sinks::of(sinks),
        blocks: Blocks::of(blocks),
    })
}

/// An instance that was read.
#[derive(Drop)]
pub struct Taken {
    /// The instance.
    pub instance: Instance,
    /// How many bytes it takes, the end of its last line included.
    pub used: usize,
    /// The number of its last line.
    pub lines: u32,
}

/// The instance of these lines.
#[tactic(auto, unfolding(cts_instance::specs::FirstFault::first_fault))]
fn assembled(head: Head, lists: Lists) -> Instance
    requires head { IsSoundHead head }
    requires lists { IsSoundLists head lists }
    ensures { result ≡ parts_of head lists }
{
    Instance::of(Parts {
        version: head.version,
        die: head.die,
        source_x: head.source.x,
        source_y: head.source.y,
        source_r: head.source.r,
        params: Params {
            wire: head.wire,
            library: lists.buffers,
            insert_at: head.limits.insert_at,
        },
        load_limit: head.limits.load,
        slew_limit: head.limits.slew,
        sinks: lists.sinks,
        blocks: lists.blocks,
    })
}

/// Reads the instance at the front of a text of at most 67,108,864 bytes.
///
/// - `Ok`: exactly where the lines of the text begin with those of an instance, each line that is
///   not skipped against the next line of the grammar.
/// - `Refused`: exactly the first line that offends, with its first cause.
/// - `NoMemory`: an allocation failed.
#[tactic(auto, using(crate::proofs::Places::passed_some), unfolding(crate::specs::Whole::instance_of, crate::specs::Whole::instance_at))]
pub fn read_instance(alloc: Global, bytes: &[u8]) -> Result<Taken, ReadStop>
    requires { length bytes.now ≤ 67108864 }
    ensures read { IfOk result (λ taken. instance_of bytes.now
        ≡ Ok ((taken.instance, taken.lines), left_of (place_at bytes.now taken.used taken.lines))) }
    ensures refused { IfErr result (λ stop. Refuses stop (instance_of bytes.now)) }

    ensures within { IfOk result (λ taken. taken.used ≤ length bytes.now) }
    ensures lines { IfOk result (λ taken. taken.lines ≤ length (lines_of bytes.now)) }
    ensures ends { IfOk result (λ taken. IsAfterLine bytes.now (drop taken.used bytes.now)) }
    ensures used { IfOk result (λ taken. lines_of (drop taken.used bytes.now) ≡ drop taken.lines (lines_of bytes.now)) }
{
    let mut lines = Cursor::new(bytes);
    let head = read_head(&mut lines)?;
    let lists = read_lists(alloc, &mut lines, &head)?;
    let end = read_end(&mut lines)?;
    let used = lines.used();
    Ok(Taken {
        instance: assembled(head, lists),
        used,
        lines: end,
    })
}

/// Whether nothing but lines that are skipped is left after `lines` lines of an input. It takes no
/// memory.
///
/// - `Ok`: exactly where only skipped lines are left.
/// - `Refused`: the first other line, with `NotAscii` where it holds a byte that it can't, else with
///   `Word`.
#[tactic(auto, unfolding(crate::specs::Grammar::left_of))]
pub fn read_rest(bytes: &[u8], lines: u32) -> Result<(), ReadStop>
    requires bytes { length bytes.now ≤ 67108864 }
    requires lines { lines ≤ 67108864 }
    ensures { Rests result (rest_of (content lines (lines_of bytes.now))) }
{
    none_left(&mut Lines::new(bytes, lines))
}
