//! One text, whoever makes it: the forms with workers beside the same forms of one thread, and the verdict on that text.

use crate::runs::{Ran, Streams, run_open};
use crate::show;
use cts_top::Status;
use std::alloc::Global;
use std::io;
use std::sync::Wait;
use std::thread::Threads;

/// The bytes that an output has room for: the replies to as many steps as there may be.
const ROOM: usize = 1 << 22;

/// Runs some words on a text.
pub(crate) fn answer<R: AllocGlobal + Threads + Wait + Sync>(
    rt: &R,
    words: &str,
    text: &[u8],
) -> io::Result<Ran> {
    run_open(rt, words, text, Streams::of(1 << 20, ROOM))
}

/// A text and what stands below it.
pub(crate) fn joined(alloc: Global, text: &[u8], below: &[u8]) -> io::Result<Vec<u8>> {
    let mut both = text.to_vec(alloc)?;
    both.extend_from_slice(below)?;
    Ok(both)
}

fn print_end<R: Print>(rt: &R, status: Status, text: &[u8]) -> io::Result<()> {
    println!(rt; "{status:?}")?;
    show::text(rt, text)
}

/// Prints how some words end on a text, and their note.
pub(crate) fn end<R: AllocGlobal + Threads + Wait + Sync + Print>(
    rt: &R,
    words: &str,
    name: &str,
    text: &[u8],
) -> io::Result<()> {
    let ran = answer(rt, words, text)?;
    print_named(rt, words, name, &ran)
}

fn print_named<R: Print>(rt: &R, words: &str, name: &str, ran: &Ran) -> io::Result<()> {
    print!(rt; "{words} of {name}: ")?;
    print_end(rt, ran.status, ran.notes.bytes())
}

/// Prints whether some words end on a text as a run did, with the same bytes.
fn beside<R: AllocGlobal + Threads + Wait + Sync + Print>(
    rt: &R,
    ran: &Ran,
    words: &str,
    text: &[u8],
) -> io::Result<()> {
    let other = answer(rt, words, text)?;
    print_same(rt, words, other.ends_as(ran))
}

fn print_same<R: Print>(rt: &R, words: &str, same: bool) -> io::Result<()> {
    println!(rt;
        "{words}: {}",
        if same { "the same" } else { "not the same" }
    )
}

/// Prints how a run of some words ended, and for each of the others whether it ends so too, with the same bytes.
fn beside_all<R: AllocGlobal + Threads + Wait + Sync + Print>(
    rt: &R,
    ran: &Ran,
    first: &str,
    others: &[&str],
    text: &[u8],
) -> io::Result<()> {
    println!(rt; "{first}: {:?}", ran.status)?;
    for words in others {
        beside(rt, ran, words, text)?;
    }
    Ok(())
}

/// Prints how the first of the words ends, and for each of the others whether it ends so too, with the same bytes.
fn compare<R: AllocGlobal + Threads + Wait + Sync + Print>(
    rt: &R,
    first: &str,
    others: &[&str],
    text: &[u8],
) -> io::Result<()> {
    let ran = answer(rt, first, text)?;
    beside_all(rt, &ran, first, others, text)
}

/// Prints the verdict on the report that some words give of an instance.
pub(crate) fn judge<R: AllocGlobal + Threads + Wait + Sync + Print>(
    rt: &R,
    words: &str,
    instance: &[u8],
) -> io::Result<()> {
    let report = answer(rt, words, instance)?;
    judge_report(rt, instance, report.output.bytes())
}

fn judge_report<R: AllocGlobal + Threads + Wait + Sync + Print>(
    rt: &R,
    instance: &[u8],
    report: &[u8],
) -> io::Result<()> {
    let text = joined(rt.alloc(), instance, report)?;
    print!(rt; "check: ")?;
    verdict(rt, &text)
}

/// Prints the verdict on a text.
pub(crate) fn verdict<R: AllocGlobal + Threads + Wait + Sync + Print>(
    rt: &R,
    text: &[u8],
) -> io::Result<()> {
    let verdict = answer(rt, "check", text)?;
    print_end(rt, verdict.status, verdict.output.bytes())
}

/// Compares the report and the summary of a made instance of 64 sinks, and judges its report.
pub(crate) fn check<R: AllocGlobal + Threads + Wait + Sync + Print>(rt: &R) -> io::Result<()> {
    let made = answer(rt, "make 14 64", b"")?;
    check_made(rt, made.output.bytes())
}

fn check_made<R: AllocGlobal + Threads + Wait + Sync + Print>(
    rt: &R,
    made: &[u8],
) -> io::Result<()> {
    let reports = ["synth 2", "synth 3", "synth 64"];
    compare(rt, "synth 1", &reports, made)?;
    let summaries = ["job 14 64 2", "job 14 64 3", "job 14 64 64"];
    compare(rt, "job 14 64 1", &summaries, b"")?;
    judge(rt, "synth 1", made)?;
    let long = answer(rt, "make 21 4200", b"")?;
    compare_long(rt, long.output.bytes())
}

/// The lines of 8,399 nodes are made by as many workers as there are, and the parts of 9,999 nodes are made, placed, balanced
/// and measured beside each other.
fn compare_long<R: AllocGlobal + Threads + Wait + Sync + Print>(
    rt: &R,
    made: &[u8],
) -> io::Result<()> {
    let reports = ["synth 2", "synth 4", "synth 7"];
    compare(rt, "synth 1", &reports, made)?;
    let summaries = ["job 14 5000 2", "job 14 5000 3", "job 14 5000 64"];
    compare(rt, "job 14 5000 1", &summaries, b"")
}
