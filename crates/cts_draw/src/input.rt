//! The instance and the report that an input spells.

ghost use Rattle.std.specs.Prelude.{◌≡◌, ◌≤◌, length, drop, IfSome, IfOk, IfErr, OnOk, IsErrOf};
ghost use Rattle.std.specs.Io.KnownBytes.{IsAtEnd};
ghost use Rattle.cts_io.specs.Faults.{Rose};
ghost use Rattle.cts_report_reader.specs.Reports.{seen_report};
ghost use Rattle.cts_picture.specs.Drawable.{IsDrawable};
ghost use Rattle.cts_notes.specs.Front.{SpellsFront, input_limit};
ghost use Rattle.cts_draw.specs.Drawing.{Explains, ExplainsReport, SpellsBoth, SpellsReport};

use crate::stop::NotText;
use cts_instance::Instance;
use cts_io::{ByteSource, read_all};
use cts_notes::{INPUT_LIMIT, Stop};
use cts_report_reader::{Reading, Report, read_report};
use std::alloc::Global;

/// The instance at the front of an input that is not too long, and how many of the bytes are those of its
/// lines; or why there is none.
#[tactic(auto, using(crate::proofs::Reading::refuses_explains))]
fn read_front(alloc: Global, bytes: &[u8]) -> Result<(Instance, usize), Stop<NotText>>
    requires { length bytes.now ≤ input_limit }
    ensures spells { IfOk result (λ r. SpellsFront bytes.now r.0 (drop r.1 bytes.now)) }
    ensures within { IfOk result (λ r. r.1 ≤ length bytes.now) }
    ensures explained { IfErr result (λ stop. Explains bytes.now stop) }
    ensures words { IsErrOf result Stop.Words → ⊥ }
    ensures read_fault { IsErrOf result Stop.ReadFault → ⊥ }
    ensures write_fault { IsErrOf result Stop.WriteFault → ⊥ }
{
    Ok(cts_notes::read_front(alloc, bytes)?)
}

/// The report on an instance that these bytes are the text of, or that they are none.
fn report_of(alloc: Global, instance: &Instance, bytes: &[u8]) -> Result<Report, Stop<NotText>>
    ensures spells { IfOk result (λ report. SpellsReport instance.now bytes.now (seen_report report)) }
    ensures drawable { IfOk result IsDrawable }
    ensures explained { IfErr result (λ stop. ExplainsReport instance.now bytes.now stop) }
{
    match read_report(alloc, instance, bytes)? {
        Reading::Text { report } => Ok(report),
        Reading::NotText { line } => Err(Stop::Own(NotText { line })),
    }
}

/// The instance and the report that these bytes spell, or why there are none.
fn read_both(alloc: Global, bytes: &[u8]) -> Result<(Instance, Report), Stop<NotText>>
    requires { length bytes.now ≤ input_limit }
    ensures spells { IfOk result (λ r. SpellsBoth bytes.now r.0 (seen_report r.1)) }
    ensures drawable { IfOk result (λ r. IsDrawable r.1) }
    ensures explained { IfErr result (λ stop. Explains bytes.now stop) }
    ensures words { IsErrOf result Stop.Words → ⊥ }
    ensures read_fault { IsErrOf result Stop.ReadFault → ⊥ }
    ensures write_fault { IsErrOf result Stop.WriteFault → ⊥ }
{
    let (instance, used) = read_front(alloc, bytes)?;
    let report = report_of(alloc, &instance, &bytes[used..])?;
    Ok((instance, report))
}

/// The instance and the report that an input spells, which is read to its end.
pub fn read_source<S: ByteSource>(
    alloc: Global,
    source: &mut S,
) -> Result<(Instance, Report), Stop<NotText>>
    ensures end { OnOk result (IsAtEnd (S.left source.new)) }
    ensures spells { IfOk result (λ r. IfSome (S.left source.old) (λ bytes. SpellsBoth bytes r.0 (seen_report r.1))) }
    ensures drawable { IfOk result (λ r. IsDrawable r.1) }
    ensures explained { IfErr result (λ stop. IfSome (S.left source.old) (λ bytes. Explains bytes stop)) }
    ensures words { IsErrOf result Stop.Words → ⊥ }
    ensures read_fault { IsErrOf result Stop.ReadFault → Rose (S.faults source.old) (S.faults source.new) }
    ensures write_fault { IsErrOf result Stop.WriteFault → ⊥ }
    ensures counted { S.faults source.old ≤ S.faults source.new }
{
    let bytes = read_all(alloc, source, INPUT_LIMIT)?;
    read_both(alloc, &bytes)
}
