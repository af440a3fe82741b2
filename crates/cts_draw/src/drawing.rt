//! The top call.

ghost use Rattle.std.specs.Prelude.{◌≡◌, ◌≤◌, ℕ, Result, false, take};
ghost use Rattle.std.specs.Io.KnownBytes.{Appends};
ghost use Rattle.cts_io.specs.Faults.{Rose};
ghost use Rattle.cts_draw.specs.Drawing.{Draws, status_of};
ghost use Rattle.cts_draw.specs.Notes.{note_of};
ghost use Rattle.cts_notes.specs.declared.stop.Stop.{Stop};
ghost use Rattle.cts_draw.specs.declared.stop.NotText.{NotText};

use crate::input::read_source;
use crate::stop::{NotText, status_of};
use cts_io::{ByteSink, ByteSource};
use cts_notes::{Status, Stop, write_note};
use cts_picture::write_picture;
use std::alloc::Global;

/// Reads an instance and a report, and writes the picture.
fn draw_source<S: ByteSource, K: ByteSink>(
    alloc: Global,
    source: &mut S,
    sink: &mut K,
) -> Result<(), Stop<NotText>>
    ensures { Draws S.left S.faults K.held K.faults false source.old source.new sink.old sink.new result }
{
    let (instance, report) = read_source(alloc, source)?;
    write_picture(sink, &instance, &report)?;
    Ok(())
}

/// Draws where there are no words.
fn answer<S: ByteSource, K: ByteSink>(
    alloc: Global,
    has_words: bool,
    source: &mut S,
    sink: &mut K,
) -> Result<(), Stop<NotText>>
    ensures { Draws S.left S.faults K.held K.faults has_words source.old source.new sink.old sink.new result }
{
    if has_words {
        Err(Stop::Words)
    } else {
        draw_source(alloc, source, sink)
    }
}

/// Reads an instance directly followed by a report from the source, and writes the picture of the report's
/// tree to the sink, which needn't be a sound one; and tells the notes why no picture came out whole where
/// none did.
///
/// - `Done`: the picture was written, and nothing else.
/// - `Words`: exactly where there are words; source and sink are as they were.
/// - `Refused`: the input is longer than 64 MiB, or begins with no instance, or what follows the instance is
///   no text of a report; the sink is as it was.
/// - `ReadFault`, `WriteFault`: only where the count of faults of source or sink rose in this call. After a
///   write fault the sink holds its old bytes and a front of the picture.
/// - `NoMemory`: before the first write; the sink is as it was.
///
/// The notes get at most one line. Where they fail they get a front of it, and nothing else changes.
pub fn draw<S: ByteSource, K: ByteSink, N: ByteSink>(
    alloc: Global,
    has_words: bool,
    source: &mut S,
    sink: &mut K,
    notes: &mut N,
) -> Status
    ensures draws { (ending : Result Unit (Stop NotText))
        × Draws S.left S.faults K.held K.faults has_words source.old source.new sink.old sink.new ending
        × (result ≡ status_of ending)
        × ((Rose (N.faults notes.old) (N.faults notes.new) → ⊥)
        → Appends (N.held notes.old) (N.held notes.new) (note_of ending))
        × ((count : ℕ) × Appends (N.held notes.old) (N.held notes.new) (take count (note_of ending))) }
    ensures counted { N.faults notes.old ≤ N.faults notes.new }
{
    let ending = answer(alloc, has_words, source, sink);
    // A note that can't be written changes nothing.
    let _ = write_note(notes, b"usage: cts-draw\n", &ending);
    status_of(&ending)
}
