//! The top calls: words, an input and an output to a status.

ghost use Rattle.std.specs.Prelude.{◌≡◌, ◌≤◌, ◌↔◌, ℕ, None, IsSome, codes, take};
ghost use Rattle.std.specs.Io.KnownBytes.{Appends};
ghost use Rattle.cts_io.specs.Faults.{Rose};
ghost use Rattle.cts_top.specs.Log.{log_of, no_log};
ghost use Rattle.cts_top.specs.Memos.{HasLog, HoldsMemo, KeepsMemo};
ghost use Rattle.cts_top.specs.Outcome.{status_of};
ghost use Rattle.cts_top.specs.Runs.{AnswersWords, Runs};
ghost use Rattle.cts_top.specs.Words.{IsForm, IsFormAlone};

use crate::notes::write_note;
use crate::outcome::{Kept, Outcome};
use crate::serve::{serve, serve_alone};
use crate::stop::{Answer, Stop, status_of};
use crate::words::{Form, form_of};
use cts_io::{ByteSink, ByteSource};
use cts_notes::Status;
use cts_work::Gate;
use std::alloc::Global;
use std::sync::Wait;
use std::thread::Threads;

/// Does what the words ask for, where one thread serves it.
fn answer_alone<R: Threads + Sync, S: ByteSource, K: ByteSink>(
    rt: &R,
    alloc: Global,
    words: &[String],
    source: &mut S,
    sink: &mut K,
) -> Result<Answer, Stop>
    ensures { AnswersWords (IsFormAlone words.now) no_log
        (record { tells = S.left; faults = S.faults; before = source.old; after = source.new })
        (record { tells = K.held; faults = K.faults; before = sink.old; after = sink.new }) result }
{
    match form_of(words) {
        Some(form) => serve_alone(rt, alloc, form, source, sink),
        None => Err(Stop::Words),
    }
}

/// Does what the words ask for, by as many workers or callers as they ask for, and gives what these leave.
fn answer<R: Threads + Wait + Sync, S: ByteSource, K: ByteSink, G: Gate>(
    rt: &R,
    alloc: Global,
    words: &[String],
    source: &mut S,
    sink: &mut K,
    gate: &G,
) -> (Result<Answer, Stop>, Kept)
    ensures answers { AnswersWords (IsForm words.now) (log_of result.1.history result.1.replies)
        (record { tells = S.left; faults = S.faults; before = source.old; after = source.new })
        (record { tells = K.held; faults = K.faults; before = sink.old; after = sink.new }) result.0 }
    ensures kept { IsSome result.1.memo ↔ KeepsMemo (IsForm words.now) (status_of result.0) }
    ensures memo { (form : Form) → IsForm words.now form
        → HoldsMemo (log_of result.1.history result.1.replies) form (S.left source.old) result.1.memo }
    ensures log { HasLog (IsForm words.now) (status_of result.0) (log_of result.1.history result.1.replies) }
{
    match form_of(words) {
        Some(form) => serve(rt, alloc, gate, form, source, sink),
        None => (Err(Stop::Words), Kept::without_log(alloc, None)),
    }
}

/// Runs the program on its words, its input and its output, and tells the notes why nothing came
/// out whole where nothing did. The words are `synth W`, `check`, `edit`, `make SEED N`, `job SEED N W`, with W
/// from 1 to 64, `trunk STEP J`, `near` or `replay`.
///
/// - `Done`: the text was written, and nothing else. For `synth W` it is the report of the instance that
///   the input spells, the same for every number of workers; for `check` the line `yes`, since what
///   follows the instance in the input is the report of a sound tree; for `edit` the history of all
///   accepted edits, with the replies to each caller of the scripts that follow the instance in the input,
///   and then the report of the tree of the sinks after it, as a synthesis without callers makes it; for
///   `replay` the changes that are done after the steps that follow the instance in the input, with the reply
///   to each step, and then the report of the tree of the sinks after these changes; for
///   `make` the canonical text of the instance that is made from the seed; for `job` the summary of that
///   instance's tree; for `trunk` the trunk of the tree of the instance that the input spells, with repeaters of
///   the library's buffer J at the multiples of STEP, and then the report of that tree; for `near` the report of
///   the instance's tree over its nearest-pair topology.
/// - `No`, for `check` alone: exactly where what follows the instance is not that; the line that says at which line
///   it is no text of a report, or which rule it breaks first at which node, was written, and nothing else.
/// - `NoTree`, for all forms but `check` and `make`: the instance, for `edit` and `replay` with the sinks after the
///   history, has no tree, since a node, or for `near` a step, is beyond the limits or no route reaches a node; the
///   line that says so was written, for `edit` and `replay` after the history, and nothing else.
/// - `NoTrunk`, for `trunk` alone: exactly where the tree has no such trunk, since the library has no buffer J, or
///   more than 65,536 repeaters would stand there, or a delay would be beyond the limits; the line that says which
///   was written, and nothing else.
/// - `Words`: exactly where the words are none of these forms; source and sink are as they were.
/// - `Refused`: exactly where an input is read that spells no instance, or for `check` begins with none, or
///   for `edit` spells none with scripts after it, or for `replay` none with steps after it, or for `near` spells
///   one of more than 2,048 sinks, or is longer than 64 MiB; the sink is as it was.
/// - `ReadFault`, `WriteFault`: only where the count of faults of source or sink rose in this call.
///   After a write fault the sink holds its old bytes and a front of the text.
/// - `NoMemory`: after the words and before the first write; the sink is as it was.
///
/// `make` and `job` leave the source as it is. The notes get at most one line. Where they fail they get a front
/// of it, and nothing else changes.
///
/// What several workers make is published in a memo, from which the callers of `edit` draw their trees. The
/// outcome has its table at the statuses `Done`, `NoTree` and `WriteFault`, and for `edit` the history and
/// the replies that the text tells. The gate is called as workers and callers go. One worker goes the way
/// of [`run_alone`], without a memo.
///
/// Callers wait for each other, and calls of a memo may wait, so no clause says that this call returns.
pub fn run<R: Threads + Wait + Sync, S: ByteSource, K: ByteSink, N: ByteSink, G: Gate>(
    rt: &R,
    alloc: Global,
    words: &[String],
    source: &mut S,
    sink: &mut K,
    notes: &mut N,
    gate: &G,
) -> Outcome
    ensures runs { Runs (IsForm words.now) (log_of result.history result.replies)
        (record { tells = S.left; faults = S.faults; before = source.old; after = source.new })
        (record { tells = K.held; faults = K.faults; before = sink.old; after = sink.new })
        (record { tells = N.held; faults = N.faults; before = notes.old; after = notes.new }) result.status }

    // The memo is there exactly where workers or callers had one and the status tells of a tree ..
    ensures memo_kept { IsSome result.memo ↔ KeepsMemo (IsForm words.now) result.status }
    // .. and it is that of the instance.
    ensures memo { (form : Form) → IsForm words.now form
        → HoldsMemo (log_of result.history result.replies) form (S.left source.old) result.memo }

    // History and replies are those of callers, or empty.
    ensures log { HasLog (IsForm words.now) result.status (log_of result.history result.replies) }
{
    let (ending, kept) = answer(rt, alloc, words, source, sink, gate);
    // A note that can't be written changes nothing.
    let _ = write_note(notes, &ending);
    kept.outcome(status_of(&ending))
}

/// Runs the program on its words, its input and its output, and tells the notes why nothing came
/// out whole where nothing did. The words are `synth 1`, `check`, `make SEED N`, `job SEED N 1`, `trunk STEP J`,
/// `near` or `replay`. It takes one thread, but for sums of `check`, and returns.
///
/// What it does is what [`run`] does on these words, and on others it ends with `Words`.
///
/// - `Done`: the text was written, and nothing else. For `synth 1` it is the report of the instance that
///   the input spells; for `check` the line `yes`, since what follows the instance in the input is the
///   report of a sound tree; for `replay` the changes that are done after the steps that follow the instance
///   in the input, with the reply to each step, and then the report of the tree of the sinks after these
///   changes; for `make` the canonical text of the instance that is made from the seed; for `job` the summary
///   of that instance's tree; for `trunk` the trunk of the tree with repeaters, and then its report; for `near`
///   the report of the instance's tree over its nearest-pair topology.
/// - `No`, for `check` alone: exactly where what follows the instance is not that; the line that says at which line
///   it is no text of a report, or which rule it breaks first at which node, was written, and nothing else.
/// - `NoTree`, for all forms but `check` and `make`: the instance, for `replay` with the sinks after these changes,
///   has no tree, since a node, or for `near` a step, is beyond the limits or no route reaches a node; the line that
///   says so was written, for `replay` after the changes and replies, and nothing else.
/// - `NoTrunk`, for `trunk` alone: exactly where the tree has no such trunk; the line that says why was written, and
///   nothing else.
/// - `Words`: exactly where the words are none of these forms; source and sink are as they were.
/// - `Refused`: exactly where an input is read that spells no instance, or for `check` begins with none, or for `replay`
///   spells none with steps after it, or for `near` spells one of more than 2,048 sinks, or is longer than 64 MiB; the
///   sink is as it was.
/// - `ReadFault`, `WriteFault`: only where the count of faults of source or sink rose in this call.
///   After a write fault the sink holds its old bytes and a front of the text.
/// - `NoMemory`: after the words and before the first write; the sink is as it was.
///
/// `make` and `job` leave the source as it is. The notes get at most one line. Where they fail they get a front
/// of it, and nothing else changes.
pub fn run_alone<R: Threads + Sync, S: ByteSource, K: ByteSink, N: ByteSink>(
    rt: &R,
    alloc: Global,
    words: &[String],
    source: &mut S,
    sink: &mut K,
    notes: &mut N,
) -> Outcome
    ensures runs { Runs (IsFormAlone words.now) no_log
        (record { tells = S.left; faults = S.faults; before = source.old; after = source.new })
        (record { tells = K.held; faults = K.faults; before = sink.old; after = sink.new })
        (record { tells = N.held; faults = N.faults; before = notes.old; after = notes.new }) result.status }
    ensures memo { result.memo ≡ None }
    ensures log { log_of result.history result.replies ≡ no_log }
{
    let ending = answer_alone(rt, alloc, words, source, sink);
    // A note that can't be written changes nothing.
    let _ = write_note(notes, &ending);
    Kept::without_log(alloc, None).outcome(status_of(&ending))
}

/// Ends a run whose words found no memory, and tells the notes so.
pub fn end_without_memory<N: ByteSink>(alloc: Global, notes: &mut N) -> Outcome
    ensures status { result.status ≡ Status.NoMemory }
    ensures memo { result.memo ≡ None }
    ensures log { log_of result.history result.replies ≡ no_log }
    ensures counted { N.faults notes.old ≤ N.faults notes.new }
    ensures note { (Rose (N.faults notes.old) (N.faults notes.new) → ⊥)
        → Appends (N.held notes.old) (N.held notes.new) (codes "no memory\n") }
    ensures front { (count : ℕ) × Appends (N.held notes.old) (N.held notes.new) (take count (codes "no memory\n")) }
{
    let ending = Err(Stop::NoMemory);
    // A note that can't be written changes nothing.
    let _ = write_note(notes, &ending);
    Kept::without_log(alloc, None).outcome(status_of(&ending))
}
