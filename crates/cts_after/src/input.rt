//! The instance and the history that an input spells, and what the history comes to.

ghost use Rattle.std.specs.Prelude.{◌≡◌, ◌≤◌, length, drop, All, IfSome, IfOk, IfErr, OnOk, IsErrOf};
ghost use Rattle.std.specs.Io.KnownBytes.{IsAtEnd};
ghost use Rattle.cts_io.specs.Faults.{Rose};
ghost use Rattle.cts_edit.specs.Edits.{IsEdit};
ghost use Rattle.cts_history.specs.Opening.{Opens};
ghost use Rattle.cts_notes.specs.Front.{SpellsFront, input_limit};
ghost use Rattle.cts_after.specs.After.{ComesTo, Explains, ExplainsRest, SpellsBoth};

use crate::outcome::{Outcome, outcome_of};
use crate::stop::NotHistory;
use cts_edit::Entry;
use cts_history::{Reading, read_history};
use cts_instance::Instance;
use cts_io::{ByteSource, read_all};
use cts_notes::{INPUT_LIMIT, Stop};
use std::alloc::Global;

/// The instance at the front of an input that is not too long, and how many of the bytes are those of its
/// lines; or why there is none.
#[tactic(auto, using(crate::proofs::Inputs::refuses_explains))]
fn read_front(alloc: Global, bytes: &[u8]) -> Result<(Instance, usize), Stop<NotHistory>>
    requires { length bytes.now ≤ input_limit }
    ensures spells { IfOk result (λ r. SpellsFront bytes.now r.0 (drop r.1 bytes.now)) }
    ensures within { IfOk result (λ r. r.1 ≤ length bytes.now) }
    ensures explained { IfErr result (λ stop. Explains bytes.now stop) }
    ensures words { IsErrOf result Stop.Words → ⊥ }
    ensures read_fault { IsErrOf result Stop.ReadFault → ⊥ }
    ensures write_fault { IsErrOf result Stop.WriteFault → ⊥ }
{
    Ok(cts_notes::read_front(alloc, bytes)?)
}

/// The history with which these bytes begin, or that they begin with none.
fn history_of(alloc: Global, bytes: &[u8]) -> Result<Vec<Entry>, Stop<NotHistory>>
    ensures opens { IfOk result (λ history. Opens bytes.now history.items) }
    ensures within { IfOk result (λ history. All (λ entry. IsEdit entry.edit) history.items) }
    ensures explained { IfErr result (λ stop. ExplainsRest bytes.now stop) }
{
    match read_history(alloc, bytes)? {
        Reading::History { entries } => Ok(entries),
        Reading::NotHistory { line } => Err(Stop::Own(NotHistory { line })),
    }
}

/// The instance and the history that these bytes spell, or why there are none.
fn read_both(alloc: Global, bytes: &[u8]) -> Result<(Instance, Vec<Entry>), Stop<NotHistory>>
    requires { length bytes.now ≤ input_limit }
    ensures spells { IfOk result (λ r. SpellsBoth bytes.now r.0 r.1.items) }
    ensures within { IfOk result (λ r. All (λ entry. IsEdit entry.edit) r.1.items) }
    ensures explained { IfErr result (λ stop. Explains bytes.now stop) }
    ensures words { IsErrOf result Stop.Words → ⊥ }
    ensures read_fault { IsErrOf result Stop.ReadFault → ⊥ }
    ensures write_fault { IsErrOf result Stop.WriteFault → ⊥ }
{
    let (instance, used) = read_front(alloc, bytes)?;
    let history = history_of(alloc, &bytes[used..])?;
    Ok((instance, history))
}

/// What these bytes come to, or why they come to nothing.
fn come_to(alloc: Global, bytes: &[u8]) -> Result<Outcome, Stop<NotHistory>>
    requires { length bytes.now ≤ input_limit }
    ensures comes { IfOk result (λ outcome. ComesTo bytes.now outcome) }
    ensures explained { IfErr result (λ stop. Explains bytes.now stop) }
    ensures words { IsErrOf result Stop.Words → ⊥ }
    ensures read_fault { IsErrOf result Stop.ReadFault → ⊥ }
    ensures write_fault { IsErrOf result Stop.WriteFault → ⊥ }
{
    let (instance, history) = read_both(alloc, bytes)?;
    Ok(outcome_of(alloc, &instance, &history)?)
}

/// What an input comes to, which is read to its end.
pub fn read_source<S: ByteSource>(
    alloc: Global,
    source: &mut S,
) -> Result<Outcome, Stop<NotHistory>>
    ensures end { OnOk result (IsAtEnd (S.left source.new)) }
    ensures comes { IfOk result (λ outcome. IfSome (S.left source.old) (λ bytes. ComesTo bytes outcome)) }
    ensures explained { IfErr result (λ stop. IfSome (S.left source.old) (λ bytes. Explains bytes stop)) }
    ensures words { IsErrOf result Stop.Words → ⊥ }
    ensures read_fault { IsErrOf result Stop.ReadFault → Rose (S.faults source.old) (S.faults source.new) }
    ensures write_fault { IsErrOf result Stop.WriteFault → ⊥ }
    ensures counted { S.faults source.old ≤ S.faults source.new }
{
    let bytes = read_all(alloc, source, INPUT_LIMIT)?;
    come_to(alloc, &bytes)
}
