//! The line of an entry.

ghost use Rattle.std.specs.Prelude.{◌≡◌};
ghost use Rattle.cts_report_reader.specs.Words.{Finds, same};
ghost use Rattle.cts_history.specs.Entries.{add_at, cap_at, edit_at, entry_at, entry_rest_at, move_at, remove_at};

use cts_edit::{Edit, Entry};
use cts_report_reader::{after_word, bounded, labelled};
use cts_units::{MAX_CAPACITANCE, MAX_COORDINATE, MAX_ID};

/// The greatest id of a sink.
const LAST_ID: u64 = MAX_ID as u64;

/// The greatest coordinate in nm.
const FARTHEST: u64 = MAX_COORDINATE as u64;

/// The greatest number of 32 bits.
pub const MOST: u64 = u32::MAX as u64;

/// A sink that is added: its id, its place in nm and its capacitance in zF.
#[tactic(auto, unfolding(crate::specs::Entries::add_at))]
fn added(bytes: &[u8]) -> Option<(Edit, &[u8])>
    ensures { Finds same result (add_at bytes.now) }
{
    let (id, rest) = bounded(bytes, b" add ", 0, LAST_ID)?;
    let (x, rest) = bounded(rest, b" ", 3, FARTHEST)?;
    let (y, rest) = bounded(rest, b" ", 3, FARTHEST)?;
    let (cap, rest) = bounded(rest, b" ", 6, MAX_CAPACITANCE)?;
    let edit = Edit::Add {
        id: id as u32,
        x: x as i64,
        y: y as i64,
        cap,
    };
    Some((edit, rest))
}

/// A sink that is removed, by its id.
#[tactic(auto, unfolding(crate::specs::Entries::remove_at))]
fn removed(bytes: &[u8]) -> Option<(Edit, &[u8])>
    ensures { Finds same result (remove_at bytes.now) }
{
    let (id, rest) = bounded(bytes, b" remove ", 0, LAST_ID)?;
    Some((Edit::Remove { id: id as u32 }, rest))
}

/// A sink that is moved: its id, and its new place in nm.
#[tactic(auto, unfolding(crate::specs::Entries::move_at))]
fn moved(bytes: &[u8]) -> Option<(Edit, &[u8])>
    ensures { Finds same result (move_at bytes.now) }
{
    let (id, rest) = bounded(bytes, b" move ", 0, LAST_ID)?;
    let (x, rest) = bounded(rest, b" ", 3, FARTHEST)?;
    let (y, rest) = bounded(rest, b" ", 3, FARTHEST)?;
    let edit = Edit::Move {
        id: id as u32,
        x: x as i64,
        y: y as i64,
    };
    Some((edit, rest))
}

/// A sink with another capacitance: its id, and the capacitance in zF.
#[tactic(auto, unfolding(crate::specs::Entries::cap_at))]
fn recapped(bytes: &[u8]) -> Option<(Edit, &[u8])>
    ensures { Finds same result (cap_at bytes.now) }
{
    let (id, rest) = bounded(bytes, b" cap ", 0, LAST_ID)?;
    let (cap, rest) = bounded(rest, b" ", 6, MAX_CAPACITANCE)?;
    Some((Edit::SetCap { id: id as u32, cap }, rest))
}

/// An edit, by the word that it begins with.
#[tactic(auto, unfolding(crate::specs::Entries::edit_at))]
fn edit(bytes: &[u8]) -> Option<(Edit, &[u8])>
    ensures { Finds same result (edit_at bytes.now) }
{
    if let Some(found) = added(bytes) {
        return Some(found);
    }
    if let Some(found) = removed(bytes) {
        return Some(found);
    }
    if let Some(found) = moved(bytes) {
        return Some(found);
    }
    recapped(bytes)
}

/// The line of an entry after its version.
#[tactic(auto, unfolding(crate::specs::Entries::entry_rest_at))]
fn entry_rest(bytes: &[u8]) -> Option<(Entry, &[u8])>
    ensures { Finds same result (entry_rest_at bytes.now) }
{
    let (caller, rest) = bounded(bytes, b" caller ", 0, MOST)?;
    let (line, rest) = bounded(rest, b" line ", 0, MOST)?;
    let (edit, rest) = edit(rest)?;
    let ((), rest) = after_word(rest, b"\n")?;
    let entry = Entry {
        caller: caller as u32,
        line: line as u32,
        edit,
    };
    Some((entry, rest))
}

/// The line of the entry that made this version.
#[tactic(auto, unfolding(crate::specs::Entries::entry_at))]
pub fn entry(bytes: &[u8], version: u64) -> Option<(Entry, &[u8])>
    ensures { Finds same result (entry_at version bytes.now) }
{
    let (found, rest) = labelled(bytes, b"entry ", 0)?;
    if found != u128::from(version) {
        return None;
    }
    entry_rest(rest)
}
