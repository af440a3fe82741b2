//! What a history comes to on an instance, and its text.

ghost use Rattle.std.specs.Prelude.{◌≡◌, ◌<◌, ◌^◌, [], All, IfOk, IfSome, IfNone};
ghost use Rattle.cts_io.specs.Text.{Puts, Writes};
ghost use Rattle.cts_edit.specs.Edits.{IsEdit};
ghost use Rattle.cts_edit.specs.Journals.{base_of, told_by};
ghost use Rattle.cts_after.specs.Outcomes.{IsOutcome, IsRefusedAt, answer_of, no_line, text_of};

use cts_edit::{EditCause, EditReply, Entry, Journal};
use cts_history::{put_cause, put_whole};
use cts_instance::Instance;
use cts_io::{ByteSink, SinkBuffer, WriteEnd};
use cts_num::NoMemory;
use cts_script::write_instance;
use std::alloc::Global;

/// What a history comes to on an instance.
#[derive(Drop)]
pub enum Outcome {
    /// All entries are accepted: the instance with the sinks after them.
    Made { instance: Instance },
    /// The first entry that is refused, by its number from 1, and the first cause that holds.
    Refused { number: u64, cause: EditCause },
}

/// Which of the two was written.
#[derive(Clone, Copy, Debug, PartialEq, Eq)]
pub enum Answer {
    /// The instance.
    After,
    /// The line that names the entry that is refused.
    No,
}

/// An entry that is refused, by its number from 1, and the first cause that holds.
#[derive(Clone, Copy)]
pub struct Refusal {
    number: u64,
    cause: EditCause,
}

/// Makes the edits of a history one after another, up to the first that is refused.
fn make_all(journal: &mut Journal, history: &[Entry]) -> Result<Option<Refusal>, NoMemory>
    requires within { All (λ entry. IsEdit entry.edit) history.now }
    requires fresh { told_by journal.old ≡ [] }
    ensures base { base_of journal.new ≡ base_of journal.old }
    ensures made { IfOk result (λ refusal. IfNone refusal (told_by journal.new ≡ history.now)) }
    ensures refused { IfOk result (λ refusal. IfSome refusal (λ r. IsRefusedAt (base_of journal.old) history.now r.number r.cause)) }
{
    for index in 0..history.len() {
        match journal.change(history[index]) {
            EditReply::Accepted { .. } => {}
            EditReply::Refused { cause, .. } => {
                return Ok(Some(Refusal {
                    number: index as u64 + 1,
                    cause,
                }));
            }
            EditReply::NoMemory => return Err(NoMemory),
        }
    }
    Ok(None)
}

/// What a history comes to on an instance. Each entry is judged in about constant time.
pub fn outcome_of(
    alloc: Global,
    instance: &Instance,
    history: &[Entry],
) -> Result<Outcome, NoMemory>
    requires { All (λ entry. IsEdit entry.edit) history.now }
    ensures { IfOk result (IsOutcome instance.now history.now) }
{
    let mut journal = Journal::of(alloc, instance)?;
    if let Some(Refusal { number, cause }) = make_all(&mut journal, history)? {
        return Ok(Outcome::Refused { number, cause });
    }
    let (_, sinks) = journal.into_lists();
    let version = instance.with_sinks(alloc, sinks)?;
    Ok(Outcome::Made { instance: version })
}

/// Which of the two an outcome is.
pub fn answer_of(outcome: &Outcome) -> Answer
    ensures { result ≡ answer_of outcome.now }
{
    match outcome {
        Outcome::Made { .. } => Answer::After,
        Outcome::Refused { .. } => Answer::No,
    }
}

/// The line that names the entry that is refused.
#[tactic(auto, unfolding(crate::specs::Outcomes::no_line))]
fn put_no<K: ByteSink>(out: &mut SinkBuffer, sink: &mut K, number: u64, cause: EditCause)
    ensures { Puts K.ByteSink (sink.old, out.old) (sink.new, out.new) (no_line number cause) }
{
    out.put(sink, b"no: entry");
    put_whole(out, sink, number);
    put_cause(out, sink, cause);
    out.put(sink, b"\n");
}

/// Writes that line.
fn write_no<K: ByteSink>(sink: &mut K, number: u64, cause: EditCause) -> Result<(), WriteEnd>
    ensures { Writes K.held K.faults sink.old sink.new (no_line number cause) result }
{
    let mut out = SinkBuffer::new();
    put_no(&mut out, sink, number, cause);
    out.finish(sink)
}

/// Writes the text of an outcome. It takes no memory.
pub fn write_outcome<K: ByteSink>(sink: &mut K, outcome: &Outcome) -> Result<(), WriteEnd>
    ensures { Writes K.held K.faults sink.old sink.new (text_of outcome.now) result }
{
    match outcome {
        Outcome::Made { instance } => write_instance(sink, instance),
        Outcome::Refused { number, cause } => write_no(sink, *number, *cause),
    }
}
