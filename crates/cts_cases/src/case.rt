//! One case: a run over streams in memory, and what reading the text alone gives; or hostile use of the text.

use crate::runs::{Ran, Stream, Streams, run_open, words_of};
use crate::text::expand;
use crate::{hostile, show};
use cts_num::read_decimal;
use std::str::SplitWhitespace;
use std::sync::Wait;
use std::thread::Threads;
use std::{io, str};

/// How much a read or a write moves where a case doesn't say.
const MUCH: usize = 4_096;

fn number(word: Option<&str>) -> Option<u64> {
    read_decimal(word?.as_bytes(), 0).ok()
}

/// The stream of the next two words: how much it moves at once, and the call that fails.
fn stream_of(words: &mut SplitWhitespace) -> Stream {
    let most = number(words.next()).map_or(MUCH, |most| most as usize);
    Stream {
        most,
        failing: number(words.next()),
    }
}

fn streams_of(text: &str) -> Streams {
    let mut words = text.split_whitespace();
    Streams {
        input: stream_of(&mut words),
        output: stream_of(&mut words),
        notes: stream_of(&mut words),
        room: 1 << 20,
    }
}

/// Runs a case over the text of its lines. Two words for each of its streams, the input, the output and the notes, say
/// how much it moves at once and which call fails, as in `/ 7 - 7 1 4096 0`. Where the first line begins with `-`, the
/// text lacks its last line end; where it begins with `*`, the text is put to hostile use.
pub(crate) fn run_case<R: AllocGlobal + Threads + Wait + Sync + Print>(
    rt: &R,
    bases: &[u8],
    case: &[u8],
) -> io::Result<()> {
    let end = case
        .iter()
        .position(|byte| *byte == b'\n')
        .unwrap_or(case.len());
    let (head, lines) = case.split_at(end);
    let lines = lines.strip_prefix(b"\n".as_slice()).unwrap_or(lines);
    let head = str::from_utf8(head).unwrap_or("");
    println!(rt; "%{head}")?;
    let expanded = expand(rt.alloc(), bases, lines)?;
    let (head, _name) = head.split_once('|').unwrap_or((head, ""));
    run_text(rt, head, expanded.as_slice())
}

fn run_text<R: AllocGlobal + Threads + Wait + Sync + Print>(
    rt: &R,
    head: &str,
    text: &[u8],
) -> io::Result<()> {
    if let Some(head) = head.strip_prefix('*') {
        let words = words_of(rt.alloc(), head)?;
        return hostile::check(rt, &words, text);
    }
    match head.strip_prefix('-') {
        Some(head) => run_over(rt, head, &text[..text.len().saturating_sub(1)]),
        None => run_over(rt, head, text),
    }
}

fn run_over<R: AllocGlobal + Threads + Wait + Sync + Print>(
    rt: &R,
    head: &str,
    text: &[u8],
) -> io::Result<()> {
    print_run(rt, head, text)?;
    show::reading(rt, text)
}

fn print_run<R: AllocGlobal + Threads + Wait + Sync + Print>(
    rt: &R,
    head: &str,
    text: &[u8],
) -> io::Result<()> {
    let (words, streams) = head.split_once('/').unwrap_or((head, ""));
    let ran = run_open(rt, words, text, streams_of(streams))?;
    print_ran(rt, &ran)
}

fn print_ran<R: Print>(rt: &R, ran: &Ran) -> io::Result<()> {
    println!(rt; "{:?} after {} reads", ran.status, ran.reads)?;
    show::text(rt, ran.notes.bytes())?;
    show::text(rt, ran.output.bytes())
}
