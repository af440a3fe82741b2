//! The top call.

ghost use Rattle.std.specs.Prelude.{◌≡◌, ◌≤◌, ℕ, Result, false, take};
ghost use Rattle.std.specs.Io.KnownBytes.{Appends};
ghost use Rattle.cts_io.specs.Faults.{Rose};
ghost use Rattle.cts_after.specs.After.{Tells, status_of};
ghost use Rattle.cts_after.specs.Notes.{note_of};
ghost use Rattle.cts_after.specs.declared.outcome.Answer.{Answer};
ghost use Rattle.cts_after.specs.declared.stop.NotHistory.{NotHistory};
ghost use Rattle.cts_notes.specs.declared.stop.Stop.{Stop};

use crate::input::read_source;
use crate::outcome::{Answer, answer_of, write_outcome};
use crate::stop::{NotHistory, status_of};
use cts_io::{ByteSink, ByteSource};
use cts_notes::{Status, Stop, write_note};
use std::alloc::Global;

/// Reads an instance and a history, and writes what the history comes to.
fn tell_source<S: ByteSource, K: ByteSink>(
    alloc: Global,
    source: &mut S,
    sink: &mut K,
) -> Result<Answer, Stop<NotHistory>>
    ensures { Tells S.left S.faults K.held K.faults false source.old source.new sink.old sink.new result }
{
    let outcome = read_source(alloc, source)?;
    write_outcome(sink, &outcome)?;
    Ok(answer_of(&outcome))
}

/// Answers where there are no words.
fn answer<S: ByteSource, K: ByteSink>(
    alloc: Global,
    has_words: bool,
    source: &mut S,
    sink: &mut K,
) -> Result<Answer, Stop<NotHistory>>
    ensures { Tells S.left S.faults K.held K.faults has_words source.old source.new sink.old sink.new result }
{
    if has_words {
        Err(Stop::Words)
    } else {
        tell_source(alloc, source, sink)
    }
}

/// Reads an instance directly followed by what `edit` or `replay` writes on it, and writes the canonical text of
/// the instance with the sinks after the history; and tells the notes why nothing came out whole where
/// nothing did. What follows the history's entries is passed over, and not judged.
///
/// - `Done`: the instance was written, and nothing else; each entry of the history is accepted after those
///   before it.
/// - `No`: the line `no: entry V CAUSE` was written, and nothing else: V is the first entry that is refused after
///   those before it, and CAUSE the first cause that holds.
/// - `Words`: exactly where there are words; source and sink are as they were.
/// - `Refused`: the input is longer than 64 MiB, or begins with no instance, or what follows the instance
///   begins with no history; the sink is as it was.
/// - `ReadFault`, `WriteFault`: only where the count of faults of source or sink rose in this call. After a
///   write fault the sink holds its old bytes and a front of the text.
/// - `NoMemory`: before the first write; the sink is as it was.
///
/// The notes get at most one line. Where they fail they get a front of it, and nothing else changes.
pub fn tell_after<S: ByteSource, K: ByteSink, N: ByteSink>(
    alloc: Global,
    has_words: bool,
    source: &mut S,
    sink: &mut K,
    notes: &mut N,
) -> Status
    ensures tells { (ending : Result Answer (Stop NotHistory))
        × Tells S.left S.faults K.held K.faults has_words source.old source.new sink.old sink.new ending
        × (result ≡ status_of ending)
        × ((Rose (N.faults notes.old) (N.faults notes.new) → ⊥)
        → Appends (N.held notes.old) (N.held notes.new) (note_of ending))
        × ((count : ℕ) × Appends (N.held notes.old) (N.held notes.new) (take count (note_of ending))) }
    ensures counted { N.faults notes.old ≤ N.faults notes.new }
{
    let ending = answer(alloc, has_words, source, sink);
    // A note that can't be written changes nothing.
    let _ = write_note(notes, b"usage: cts-after\n", &ending);
    status_of(&ending)
}
