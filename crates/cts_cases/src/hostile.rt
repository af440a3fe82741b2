//! Hostile use of a text, kind by kind: its fronts, streams that move it in pieces, and calls that fail.

use crate::runs::{Ran, Stream, Streams, over};
use cts_top::Status;
use cts_work::Gate;
use std::io;
use std::sync::Wait;
use std::sync::atomic::{AtomicU64, Ordering};
use std::thread::{Threads, yield_now};

/// The room for what a run writes.
const ROOM: usize = 4_096;

/// How often a caller looks whether the one before it has made a subtree.
const TURNS: u32 = 1_000_000;

/// A gate that lets caller 2 begin once caller 1 has made a subtree, so that both are answered alike in every run.
#[derive(Drop)]
struct InOrder {
    made: AtomicU64,
}

impl Gate for InOrder {
    fn piece(&self, number: u32) {
        if number != 2 {
            return;
        }
        for _ in 0..TURNS {
            if self.made.load(Ordering::SeqCst) > 0 {
                return;
            }
            yield_now();
        }
    }

    fn between(&self, number: u32) {
        if number == 1 {
            self.made.fetch_add(1, Ordering::SeqCst);
        }
    }
}

/// The words and the text of a form, with the streams that a kind of use changes.
fn ran<R: AllocGlobal + Threads + Wait + Sync>(
    rt: &R,
    words: &[String],
    text: &[u8],
    streams: Streams,
) -> io::Result<Ran> {
    let gate = InOrder {
        made: AtomicU64::new(0),
    };
    over(rt, &gate, words, text, streams)
}

/// How many runs ended how, beside a whole one.
#[derive(Clone, Copy)]
struct Tally {
    /// With its status and its text.
    same: u32,
    /// Refused, with nothing written.
    refused: u32,
    /// With another verdict on a report.
    judged: u32,
    /// With a read fault, and nothing written.
    unread: u32,
    /// With a write fault, and a front of the text written.
    unwritten: u32,
    /// In no such way.
    wrong: u32,
}

impl Tally {
    const fn new() -> Tally {
        Tally {
            same: 0,
            refused: 0,
            judged: 0,
            unread: 0,
            unwritten: 0,
            wrong: 0,
        }
    }

    /// The count of runs that end as this one does.
    fn count_of(&mut self, ran: &Ran, whole: &Ran) -> &mut u32 {
        let (bytes, text) = (ran.output.bytes(), whole.output.bytes());
        match ran.status {
            _ if ran.ends_as(whole) => &mut self.same,
            Status::Refused if bytes.is_empty() => &mut self.refused,
            Status::No => &mut self.judged,
            Status::ReadFault if bytes.is_empty() => &mut self.unread,
            Status::WriteFault if text.starts_with(bytes) && bytes.len() < text.len() => {
                &mut self.unwritten
            }
            _ => &mut self.wrong,
        }
    }

    fn count(&mut self, ran: &Ran, whole: &Ran) {
        let count = self.count_of(ran, whole);
        *count = count.saturating_add(1);
    }

    /// Prints the counts that are not 0.
    fn print<R: Print>(self, rt: &R, kind: &str) -> io::Result<()> {
        print!(rt; "{kind}:")?;
        print_count(rt, self.same, "the same")?;
        print_count(rt, self.refused, "refused")?;
        print_count(rt, self.judged, "judged otherwise")?;
        print_count(rt, self.unread, "unread")?;
        print_count(rt, self.unwritten, "unwritten")?;
        print_count(rt, self.wrong, "wrong")?;
        println!(rt; "")
    }
}

fn print_count<R: Print>(rt: &R, count: u32, end: &str) -> io::Result<()> {
    if count == 0 {
        return Ok(());
    }
    print!(rt; " {count} {end}.")
}

/// Counts a run over these streams beside a whole one.
fn count<R: AllocGlobal + Threads + Wait + Sync>(
    rt: &R,
    words: &[String],
    text: &[u8],
    streams: Streams,
    whole: &Ran,
    tally: &mut Tally,
) -> io::Result<()> {
    tally.count(&ran(rt, words, text, streams)?, whole);
    Ok(())
}

/// Each front of the text but the whole.
fn fronts<R: AllocGlobal + Threads + Wait + Sync>(
    rt: &R,
    words: &[String],
    text: &[u8],
    whole: &Ran,
) -> io::Result<Tally> {
    let mut tally = Tally::new();
    for length in 0..text.len() {
        let front = text.get(..length).unwrap_or(text);
        count(rt, words, front, Streams::of(ROOM, ROOM), whole, &mut tally)?;
    }
    Ok(tally)
}

/// Reads of 1, 2 and 7 bytes, with writes of 1, 2 and 7.
fn pieces<R: AllocGlobal + Threads + Wait + Sync>(
    rt: &R,
    words: &[String],
    text: &[u8],
    whole: &Ran,
) -> io::Result<Tally> {
    let mut tally = Tally::new();
    for (input, output) in [
        (1, 1),
        (1, 2),
        (1, 7),
        (2, 1),
        (2, 2),
        (2, 7),
        (7, 1),
        (7, 2),
        (7, 7),
    ] {
        let streams = Streams {
            input: Stream::of(input),
            ..Streams::of(output, ROOM)
        };
        count(rt, words, text, streams, whole, &mut tally)?;
    }
    Ok(tally)
}

/// Each read of 7 bytes fails once.
fn reads<R: AllocGlobal + Threads + Wait + Sync>(
    rt: &R,
    words: &[String],
    text: &[u8],
    whole: &Ran,
) -> io::Result<Tally> {
    let mut tally = Tally::new();
    for call in 0..whole.reads {
        let streams = Streams {
            input: Stream::failing_at(call),
            ..Streams::of(7, ROOM)
        };
        count(rt, words, text, streams, whole, &mut tally)?;
    }
    Ok(tally)
}

/// Each write of 7 bytes fails once.
fn writes<R: AllocGlobal + Threads + Wait + Sync>(
    rt: &R,
    words: &[String],
    text: &[u8],
    whole: &Ran,
) -> io::Result<Tally> {
    let mut tally = Tally::new();
    for call in 0..whole.output.calls() {
        let streams = Streams {
            output: Stream::failing_at(call),
            ..Streams::of(7, ROOM)
        };
        count(rt, words, text, streams, whole, &mut tally)?;
    }
    Ok(tally)
}

/// The notes fail, beside notes that don't.
fn note<R: AllocGlobal + Threads + Wait + Sync>(
    rt: &R,
    words: &[String],
    text: &[u8],
    streams: Streams,
    tally: &mut Tally,
) -> io::Result<()> {
    let noted = ran(rt, words, text, streams)?;
    let failing = Streams {
        notes: Stream::failing_at(0),
        ..streams
    };
    count(rt, words, text, failing, &noted, tally)
}

/// The notes fail where the text is whole, where there is none, where the first read fails and where the first write
/// does.
fn notes<R: AllocGlobal + Threads + Wait + Sync>(
    rt: &R,
    words: &[String],
    text: &[u8],
) -> io::Result<Tally> {
    let mut tally = Tally::new();
    let open = Streams::of(ROOM, ROOM);
    note(rt, words, text, open, &mut tally)?;
    note(rt, words, b"", open, &mut tally)?;
    let unread = Streams {
        input: Stream::failing_at(0),
        ..open
    };
    note(rt, words, text, unread, &mut tally)?;
    let unwritten = Streams {
        output: Stream::failing_at(0),
        ..open
    };
    note(rt, words, text, unwritten, &mut tally)?;
    Ok(tally)
}

/// Prints how a run over pieces of 7 bytes ends, and how many runs of each kind end as it does, or otherwise.
pub(crate) fn check<R: AllocGlobal + Threads + Wait + Sync + Print>(
    rt: &R,
    words: &[String],
    text: &[u8],
) -> io::Result<()> {
    let whole = ran(rt, words, text, Streams::of(7, ROOM))?;
    print_kinds(rt, words, text, &whole)
}

fn print_kinds<R: AllocGlobal + Threads + Wait + Sync + Print>(
    rt: &R,
    words: &[String],
    text: &[u8],
    whole: &Ran,
) -> io::Result<()> {
    print_whole(rt, whole)?;
    fronts(rt, words, text, whole)?.print(rt, "fronts")?;
    pieces(rt, words, text, whole)?.print(rt, "pieces")?;
    print_failing(rt, words, text, whole)
}

fn print_whole<R: Print>(rt: &R, whole: &Ran) -> io::Result<()> {
    println!(rt;
        "{:?} after {} reads, {} bytes in {} writes",
        whole.status,
        whole.reads,
        whole.output.bytes().len(),
        whole.output.calls()
    )
}

fn print_failing<R: AllocGlobal + Threads + Wait + Sync + Print>(
    rt: &R,
    words: &[String],
    text: &[u8],
    whole: &Ran,
) -> io::Result<()> {
    reads(rt, words, text, whole)?.print(rt, "each read fails")?;
    writes(rt, words, text, whole)?.print(rt, "each write fails")?;
    notes(rt, words, text)?.print(rt, "the notes fail")
}
