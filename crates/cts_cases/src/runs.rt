//! One run over streams in memory.

use cts_after::tell_after;
use cts_draw::draw;
use cts_io::{MemSink, MemSource};
use cts_num::NoMemory;
use cts_top::{Outcome, Status, run};
use cts_work::{Gate, OpenGate};
use std::alloc::Global;
use std::io::{self, ErrorKind};
use std::sync::Wait;
use std::thread::Threads;

/// How many bytes a read or a write moves at most, and the call that fails, counted from 0.
#[derive(Clone, Copy)]
pub(crate) struct Stream {
    pub(crate) most: usize,
    pub(crate) failing: Option<u64>,
}

impl Stream {
    /// A stream that moves at most so many bytes at once, and does not fail.
    pub(crate) const fn of(most: usize) -> Stream {
        Stream {
            most,
            failing: None,
        }
    }

    /// A stream of 7 bytes at once that fails at this call.
    pub(crate) const fn failing_at(call: u64) -> Stream {
        Stream {
            most: 7,
            failing: Some(call),
        }
    }

    fn failing(self, alloc: Global) -> io::Result<Vec<u64>> {
        let mut calls = Vec::new(alloc);
        if let Some(call) = self.failing {
            calls.push(call)?;
        }
        Ok(calls)
    }

    fn source(self, alloc: Global, text: &[u8]) -> io::Result<MemSource> {
        Ok(MemSource::new(text.to_vec(alloc)?, self.failing(alloc)?, self.most.max(1)))
    }

    fn sink(self, alloc: Global, room: usize) -> io::Result<MemSink> {
        MemSink::new(alloc, room, self.failing(alloc)?, self.most.max(1)).map_err(no_memory)
    }
}

fn no_memory(_: NoMemory) -> io::Error {
    io::Error::from(ErrorKind::OutOfMemory)
}

/// The streams of a run, and how many bytes its output and its notes have room for.
#[derive(Clone, Copy)]
pub(crate) struct Streams {
    pub(crate) input: Stream,
    pub(crate) output: Stream,
    pub(crate) notes: Stream,
    pub(crate) room: usize,
}

impl Streams {
    /// Streams that each move at most so many bytes at once.
    pub(crate) const fn of(most: usize, room: usize) -> Streams {
        Streams {
            input: Stream::of(most),
            output: Stream::of(most),
            notes: Stream::of(most),
            room,
        }
    }
}

/// What a run comes to: its status, how many reads it made, what it wrote, and its notes.
#[derive(Drop)]
pub(crate) struct Ran {
    pub(crate) status: Status,
    pub(crate) reads: u64,
    pub(crate) output: MemSink,
    pub(crate) notes: MemSink,
}

impl Ran {
    /// Whether it has the status and the output of another.
    pub(crate) fn ends_as(&self, other: &Ran) -> bool {
        self.status == other.status && self.output.bytes() == other.output.bytes()
    }
}

/// The streams of one run.
#[derive(Drop)]
struct Open {
    input: MemSource,
    output: MemSink,
    notes: MemSink,
}

impl Open {
    fn over(alloc: Global, text: &[u8], streams: Streams) -> io::Result<Open> {
        Ok(Open {
            input: streams.input.source(alloc, text)?,
            output: streams.output.sink(alloc, streams.room)?,
            notes: streams.notes.sink(alloc, streams.room)?,
        })
    }

    fn ended(self, status: Status) -> Ran {
        Ran {
            status,
            reads: self.input.calls(),
            output: self.output,
            notes: self.notes,
        }
    }
}

/// Runs the program on some words at a gate, or, where the first of them is `cts-draw` or `cts-after`, the program of that
/// name on the others.
fn end<R: AllocGlobal + Threads + Wait + Sync, G: Gate>(
    rt: &R,
    gate: &G,
    words: &[String],
    to: &mut Open,
) -> Status {
    let (input, output, notes) = (&mut to.input, &mut to.output, &mut to.notes);
    match words {
        [program, words @ ..] if program.as_str() == "cts-draw" => {
            draw(rt.alloc(), !words.is_empty(), input, output, notes)
        }
        [program, words @ ..] if program.as_str() == "cts-after" => {
            tell_after(rt.alloc(), !words.is_empty(), input, output, notes)
        }
        _ => run(rt, rt.alloc(), words, input, output, notes, gate).status,
    }
}

/// Runs some words on a text, callers at a gate.
pub(crate) fn over<R: AllocGlobal + Threads + Wait + Sync, G: Gate>(
    rt: &R,
    gate: &G,
    words: &[String],
    text: &[u8],
    streams: Streams,
) -> io::Result<Ran> {
    let mut open = Open::over(rt.alloc(), text, streams)?;
    let status = match words {
        [form, ..] if form.as_str() == "edit" => end(rt, gate, words, &mut open),
        _ => end(rt, &OpenGate, words, &mut open),
    };
    Ok(open.ended(status))
}

/// Runs the words of a text, as the program does.
pub(crate) fn run_open<R: AllocGlobal + Threads + Wait + Sync>(
    rt: &R,
    words: &str,
    text: &[u8],
    streams: Streams,
) -> io::Result<Ran> {
    let words = words_of(rt.alloc(), words)?;
    let mut open = Open::over(rt.alloc(), text, streams)?;
    let status = end(rt, &OpenGate, &words, &mut open);
    Ok(open.ended(status))
}

/// What a run at a gate leaves and writes.
#[derive(Drop)]
pub(crate) struct Gated {
    pub(crate) outcome: Outcome,
    pub(crate) output: MemSink,
    pub(crate) notes: MemSink,
}

/// Runs the words of a text, workers and callers at a gate.
pub(crate) fn at_gate<R: AllocGlobal + Threads + Wait + Sync, G: Gate>(
    rt: &R,
    gate: &G,
    words: &str,
    text: &[u8],
) -> io::Result<Gated> {
    let words = words_of(rt.alloc(), words)?;
    let Open {
        mut input,
        mut output,
        mut notes,
    } = Open::over(rt.alloc(), text, Streams::of(4_096, 1 << 22))?;
    let outcome = run(
        rt,
        rt.alloc(),
        &words,
        &mut input,
        &mut output,
        &mut notes,
        gate,
    );
    Ok(Gated {
        outcome,
        output,
        notes,
    })
}

/// The words of a text.
pub(crate) fn words_of(alloc: Global, text: &str) -> io::Result<Vec<String>> {
    let mut words = Vec::new(alloc);
    for word in text.split_whitespace() {
        words.push(String::from_str(alloc, word)?)?;
    }
    Ok(words)
}
