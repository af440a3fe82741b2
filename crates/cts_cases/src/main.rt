//! Runs the cases of its input, and prints what each gives: the rows of the documents, as data.
//!
//! Bases stand first, each a line `= NAME` and its lines, up to the next `=` or the first `%`. A case is a line
//! `% WORDS / STREAMS | NAME` and the lines below it, up to the next `%`. Of the words, the streams and the name only
//! the words have to be there; `src/case.rt` says what they mean. The lines are the text that is run over, but for
//! those that begin with `~`:
//!
//! - `~ NAME` stands for the lines of a base, with the changes that follow it, in the order of its lines;
//! - `~8 TEXT` puts TEXT in the place of its line 8, counted from 1;
//! - `~8-` leaves line 8 out;
//! - `~8+ TEXT` puts TEXT after line 8.
//!
//! So the lines `~ one-sink` and `~8 sink 1 3 4 5 0` are that base with another line 8. A text whose bytes matter, as
//! one with CR LF, is written out. The words `cts-draw` and `cts-after` before all others stand for the programs of these names.
//!
//! A case whose line begins with `%*` puts its text to hostile use (`src/hostile.rt`): each front of it, reads and writes
//! of a few bytes, and each read and each write failing once. It prints how many runs of each kind end as the whole
//! text does, and how the others end.
//!
//! Last it writes some long numbers, reads an instance with as many sinks and blocks as there may be and scripts with as
//! many steps and one more, checks trees as deep as a list, compares what one worker and many write, hands the nearest-pair
//! topology as many sinks as it takes and one more, holds workers and callers at a gate until they meet, and takes words from
//! arguments in memory.
#![tactic(auto)]

mod alike;
mod case;
mod decimals;
mod deep;
mod hostile;
mod many;
mod meetings;
mod near;
mod runs;
mod show;
mod text;
mod words;

use std::io::{self, Read};
use std::sync::Wait;
use std::thread::Threads;

fn main(rt: HostRuntime) -> io::Result<()> {
    let mut text = Vec::new(rt.alloc());
    rt.stdin().read_to_end(&mut text)?;
    run_cases(&rt, &text)?;
    run_last(&rt)
}

/// Runs the cases of a text over the bases at its front.
fn run_cases<R: AllocGlobal + Threads + Wait + Sync + Print>(
    rt: &R,
    text: &[u8],
) -> io::Result<()> {
    let mut cases = text.split(|byte| *byte == b'%');
    let bases = cases.next().unwrap_or(&[]);
    for case in cases {
        case::run_case(rt, bases, case)?;
    }
    Ok(())
}

/// Runs what stands in no text.
fn run_last<R: AllocGlobal + Threads + Wait + Sync + Print>(rt: &R) -> io::Result<()> {
    decimals::write(rt)?;
    many::read(rt)?;
    many::steps(rt)?;
    deep::check(rt)?;
    alike::check(rt)?;
    near::check(rt)?;
    meetings::check(rt)?;
    words::write(rt)
}
