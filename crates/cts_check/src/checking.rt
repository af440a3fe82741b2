//! The check of a report.

ghost use Rattle.std.specs.Prelude.{ℕ, List, ◌≤◌, length, drop, IfOk};
ghost use Rattle.cts_instance.specs.Validity.{IsValid};
ghost use Rattle.cts_report_reader.specs.Forms.{form_of};
ghost use Rattle.cts_report_reader.specs.Reports.{IsReading, IsSeenReading};
ghost use Rattle.cts_check.specs.Verdict.{IsVerdict};

use crate::judge::judge;
use crate::verdict::Verdict;
use cts_instance::Instance;
use cts_num::NoMemory;
use cts_report_reader::{Reading, read_report};
use std::alloc::Global;
use std::thread::Threads;

/// The verdict on some bytes as the report of an instance's clock tree, whoever made it.
///
/// `Yes` exactly where the bytes are the report of a sound tree, in the version of the instance: each sink
/// is reached once and at its place, routes are legal and no wire is shorter than its route, no buffer
/// stands in a block, no node is over the limits, and each printed number is that of its definition.
/// `NotText` with the first line with which no report of that version begins, counted from 1; `Wrong` with
/// the first rule that is broken, in the order of [`Rule`](crate::Rule), and the least number at which it
/// is. Answers `NoMemory` where an allocation fails.
///
/// It takes time and memory in proportion to the bytes. The figures are compared on several threads
/// where there are processors for them; the verdict does not depend on that.
pub fn check(
    rt: &(impl Threads + Sync),
    alloc: Global,
    instance: &Instance,
    bytes: &[u8],
) -> Result<Verdict, NoMemory>
    ensures { IfOk result (IsVerdict instance.now bytes.now) }
{
    let reading = read_report(alloc, instance, bytes)?;
    verdict_on(rt, alloc, instance, reading)
}

/// The verdict that [`check`] gives on the bytes of an input from this place on. The input goes once it is read, so
/// that the tree takes its room.
pub fn check_rest(
    rt: &(impl Threads + Sync),
    alloc: Global,
    instance: &Instance,
    input: Vec<u8>,
    from: usize,
) -> Result<Verdict, NoMemory>
    requires { from ≤ length input.items }
    ensures { IfOk result (IsVerdict instance.now (drop from input.items)) }
{
    let reading = read_report(alloc, instance, &input[from..])?;
    drop(input);
    verdict_on(rt, alloc, instance, reading)
}

/// The verdict on bytes that were read so.
fn verdict_on(
    rt: &(impl Threads + Sync),
    alloc: Global,
    instance: &Instance,
    reading: Reading,
) -> Result<Verdict, NoMemory>
    requires told { (bytes : List ℕ) × IsReading (form_of instance.now) bytes reading }
    requires seen { IsSeenReading reading }
    requires valid { IsValid instance.now }
    ensures { (bytes : List ℕ) → IsReading (form_of instance.now) bytes reading
        → IfOk result (IsVerdict instance.now bytes) }
{
    match reading {
        Reading::Text { report } => judge(rt, alloc, instance, report),
        Reading::NotText { line } => Ok(Verdict::NotText { line }),
    }
}
