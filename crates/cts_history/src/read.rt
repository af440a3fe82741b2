//! The front of a history's text, up to its last entry.

ghost use Rattle.std.specs.Prelude.{◌≡◌, ◌-◌, ◌^◌, ◌≤◌, IfOk, IfSome};
ghost use Rattle.cts_report_reader.specs.Seen.{FindsLines};
ghost use Rattle.cts_report_reader.specs.Words.{Finds, same};
ghost use Rattle.cts_history.specs.Entries.{count_at, entries_at, history_at};
ghost use Rattle.cts_history.specs.Readings.{IsReading};

use crate::entry::{MOST, entry};
use cts_edit::Entry;
use cts_num::NoMemory;
use cts_report_reader::{after_word, bounded};
use std::alloc::Global;

/// What some bytes are read as.
#[derive(Drop)]
pub enum Reading {
    /// They begin with this history.
    History { entries: Vec<Entry> },
    /// They begin with no history: this is the first line with which none begins, counted from 1.
    NotHistory { line: u64 },
}

/// An entry's line has at least so many bytes.
const SHORTEST_LINE: usize = 33;

/// The line that says how many entries there are.
#[tactic(auto, unfolding(crate::specs::Entries::count_at))]
fn count(bytes: &[u8]) -> Option<(u32, &[u8])>
    ensures { Finds same result (count_at bytes.now) }
{
    let (count, rest) = bounded(bytes, b"history ", 0, MOST)?;
    let ((), rest) = after_word(rest, b"\n")?;
    Some((count as u32, rest))
}

/// So many entries, in the order of their versions.
fn entries(
    alloc: Global,
    count: u32,
    bytes: &[u8],
) -> Result<Result<(Vec<Entry>, &[u8]), u64>, NoMemory>
    ensures { FindsLines (λ entries. entries.items) result (entries_at count 0 bytes.now) }
{
    let mut items = Vec::with_capacity(alloc, (count as usize).min(bytes.len() / SHORTEST_LINE))?;
    let mut rest = bytes;
    for number in 0..count {
        let Some((next, after)) = entry(rest, u64::from(number) + 1) else {
            return Ok(Err(u64::from(number) + 3));
        };
        items.push(next)?;
        rest = after;
    }
    Ok(Ok((items, rest)))
}

/// The title, the number of entries, and the entries.
#[tactic(auto, unfolding(crate::specs::Entries::history_at))]
fn lines(alloc: Global, bytes: &[u8]) -> Result<Result<(Vec<Entry>, &[u8]), u64>, NoMemory>
    ensures { FindsLines (λ entries. entries.items) result (history_at bytes.now) }
{
    let Some(((), rest)) = after_word(bytes, b"cts edit 1\n") else {
        return Ok(Err(1));
    };
    let Some((count, rest)) = count(rest) else {
        return Ok(Err(2));
    };
    entries(alloc, count, rest)
}

/// The entries of the history with which the bytes begin, or the first line with which no history begins.
///
/// What comes after the last entry is not looked at. It takes time and memory in proportion to the entries.
pub fn read_history(alloc: Global, bytes: &[u8]) -> Result<Reading, NoMemory>
    ensures { IfOk result (IsReading bytes.now) }
{
    match lines(alloc, bytes)? {
        Ok((entries, _rest)) => Ok(Reading::History { entries }),
        Err(line) => Ok(Reading::NotHistory { line }),
    }
}
