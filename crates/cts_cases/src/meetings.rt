//! Runs whose workers or callers meet at a gate, and what they tell; and runs that keep a memo beside those of the program. What is
//! expected is worked by hand.
//!
//! Callers edit two sinks, at (0, 0) with 5 fF and at (10, 0) µm with 10 fF, or the one at (3, 4) µm with 5 fF, on a die of 20 µm
//! by 20 µm with the source at (0, 0), a wire of 1 Ω and 1 fF per µm and no buffer.

use crate::alike::{answer, joined};
use crate::runs::{Gated, at_gate};
use cts_rows_shared::gates::Meeting;
use cts_work::OpenGate;
use std::io;
use std::sync::Wait;
use std::thread::Threads;

const TWO_SINKS: &[u8] =
    b"cts 1\ndie 0 0 20 20\nsource 0 0 0\nwire 1 1\nlimits 100 100 100\nbuffers 0\nsinks 2\n\
    sink 1 0 0 5\nsink 2 10 0 10\nblocks 0\nend\n";

const ONE_SINK: &[u8] =
    b"cts 1\ndie 0 0 20 20\nsource 0 0 0\nwire 1 1\nlimits 100 100 100\nbuffers 0\nsinks 1\n\
    sink 1 3 4 5\nblocks 0\nend\n";

/// The first caller changes a load and draws twice, the second one removes a sink that isn't there: before or after the change.
const BEFORE: &[u8] =
    b"cts edit 1\nhistory 1\nentry 1 caller 1 line 13 cap 1 10.000000\ncaller 1 replies 3\nline 13 accepted 1\n\
    line 14 tree 1 skew 0.0000000000000000 wire 15.000\nline 15 tree 1 skew 0.0000000000000000 wire 15.000\n\
    caller 2 replies 1\nline 16 refused unknown at 0\nend\n";

const AFTER: &[u8] =
    b"cts edit 1\nhistory 1\nentry 1 caller 1 line 13 cap 1 10.000000\ncaller 1 replies 3\nline 13 accepted 1\n\
    line 14 tree 1 skew 0.0000000000000000 wire 15.000\nline 15 tree 1 skew 0.0000000000000000 wire 15.000\n\
    caller 2 replies 1\nline 16 refused unknown at 1\nend\n";

/// The two sinks after the change.
const CHANGED: &[u8] =
    b"cts 1\ndie 0 0 20 20\nsource 0 0 0\nwire 1 1\nlimits 100 100 100\nbuffers 0\nsinks 2\n\
    sink 1 0 0 10\nsink 2 10 0 10\nblocks 0\nend\n";

/// Both callers add one sink, and the one or the other is the first.
const FIRST: &[u8] =
    b"cts edit 1\nhistory 1\nentry 1 caller 1 line 12 add 9 10.000 0.000 5.000000\n\
    caller 1 replies 1\nline 12 accepted 1\ncaller 2 replies 1\nline 13 refused known at 1\nend\n";

const SECOND: &[u8] =
    b"cts edit 1\nhistory 1\nentry 1 caller 2 line 13 add 9 10.000 0.000 5.000000\n\
    caller 1 replies 1\nline 12 refused known at 1\ncaller 2 replies 1\nline 13 accepted 1\nend\n";

/// The one sink and the added one.
const ADDED: &[u8] =
    b"cts 1\ndie 0 0 20 20\nsource 0 0 0\nwire 1 1\nlimits 100 100 100\nbuffers 0\nsinks 2\n\
    sink 1 3 4 5\nsink 9 10 0 5\nblocks 0\nend\n";

/// Whether a text is the one or the other and then a report.
fn is_told(text: &[u8], one: &[u8], other: &[u8], report: &[u8]) -> bool {
    text.strip_prefix(one) == Some(report) || text.strip_prefix(other) == Some(report)
}

/// Prints how a run at a gate ended, and how many entries and lists of replies it left.
fn print_ended<R: Print>(rt: &R, words: &str, gated: &Gated) -> io::Result<()> {
    let outcome = &gated.outcome;
    println!(rt;
        "{words} at a gate: {:?}, memo: {}, {} entries, {} lists of replies, {} bytes of notes",
        outcome.status,
        outcome.memo.is_some(),
        outcome.history.len(),
        outcome.replies.len(),
        gated.notes.bytes().len()
    )
}

/// Prints which of the two have begun, in a bit for each number, how many of them went on alone, and how many subtrees were made
/// before both had begun.
fn print_met<R: Print>(rt: &R, gate: &Meeting, numbers: u64) -> io::Result<()> {
    let (begun, late, early) = gate.counted();
    let begun = begun & numbers;
    println!(rt; "begun {begun:b}, {late} alone, {early} made before")
}

/// Two workers at a gate, and the report that one thread makes.
fn workers<R: AllocGlobal + Threads + Wait + Sync + Print>(rt: &R, made: &[u8]) -> io::Result<()> {
    let gate = Meeting::of(0, 1);
    let gated = at_gate(rt, &gate, "synth 2", made)?;
    print_ended(rt, "synth 2", &gated)?;
    let (begun, late, _) = gate.counted();
    println!(rt; "begun {:b}, {late} alone", begun & 0b11)?;
    let alone = answer(rt, "synth 1", made)?;
    let same = alone.output.bytes() == gated.output.bytes();
    println!(rt; "as one thread does: {same}")
}

/// A run on `edit` of an instance and scripts at a gate that callers 1 and 2 reach before their first step.
fn callers<R: AllocGlobal + Threads + Wait + Sync + Print>(
    rt: &R,
    instance: &[u8],
    scripts: &[u8],
) -> io::Result<Gated> {
    let gate = Meeting::of(1, 2);
    let text = joined(rt.alloc(), instance, scripts)?;
    let gated = at_gate(rt, &gate, "edit", &text)?;
    print_ended(rt, "edit", &gated)?;
    print_met(rt, &gate, 0b110)?;
    println!(rt; "made by caller 1: {}", (gate.made() >> 16) & 0xffff)?;
    Ok(gated)
}

/// Prints whether callers are told in the one or the other order, and then the report that one thread makes of the sinks
/// after their edits.
fn print_order<R: AllocGlobal + Threads + Wait + Sync + Print>(
    rt: &R,
    gated: &Gated,
    one: &[u8],
    other: &[u8],
    after: &[u8],
) -> io::Result<()> {
    let report = answer(rt, "synth 1", after)?;
    let told = is_told(gated.output.bytes(), one, other, report.output.bytes());
    println!(rt; "told in one of two orders: {told}")
}

/// Prints whether a run that keeps a memo for its caller ends as the program does, with the same bytes and notes.
fn end_alike<R: AllocGlobal + Threads + Wait + Sync + Print>(
    rt: &R,
    words: &str,
    text: &[u8],
) -> io::Result<()> {
    let gated = at_gate(rt, &OpenGate, words, text)?;
    let ran = answer(rt, words, text)?;
    let same = ran.status == gated.outcome.status
        && ran.output.bytes() == gated.output.bytes()
        && ran.notes.bytes() == gated.notes.bytes();
    println!(rt; "run on `{words}` as the program: {same}")
}

/// Each form, words that are none, and trees that several workers share at each pass.
fn all_end_alike<R: AllocGlobal + Threads + Wait + Sync + Print>(
    rt: &R,
    made: &[u8],
) -> io::Result<()> {
    for words in [
        "synth 1",
        "synth 2",
        "near",
        "replay",
        "check",
        "edit",
        "trunk 1000 0",
        "job 3 9 2",
        "job 14 5000 3",
        "make 3 9",
        "synth 65",
        "synth",
        "",
    ] {
        end_alike(rt, words, made)?;
    }
    end_alike(rt, "synth 2", b"cts 1\n")?;
    let long = answer(rt, "make 21 4200", b"")?;
    end_alike(rt, "synth 4", long.output.bytes())
}

/// Prints what runs tell whose workers or callers meet.
pub(crate) fn check<R: AllocGlobal + Threads + Wait + Sync + Print>(rt: &R) -> io::Result<()> {
    let made = answer(rt, "make 14 64", b"")?;
    workers(rt, made.output.bytes())?;
    all_end_alike(rt, made.output.bytes())?;
    let scripts = b"callers 2\n1 cap 1 10\n1 tree\n1 tree\n2 remove 7\nend\n";
    let gated = callers(rt, TWO_SINKS, scripts)?;
    print_order(rt, &gated, BEFORE, AFTER, CHANGED)?;
    let scripts = b"callers 2\n1 add 9 10 0 5\n2 add 9 10 0 5\nend\n";
    let gated = callers(rt, ONE_SINK, scripts)?;
    print_order(rt, &gated, FIRST, SECOND, ADDED)?;
    // Refused before a caller begins.
    let gated = callers(rt, ONE_SINK, b"callers 2\n1 tree\n3 tree\nend\n")?;
    println!(rt; "bytes told: {}", gated.output.bytes().len())
}
