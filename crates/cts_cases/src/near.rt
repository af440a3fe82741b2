//! As many sinks as the nearest-pair topology takes, and one more.

use crate::alike;
use std::io;
use std::sync::Wait;
use std::thread::Threads;

/// Prints how `near` ends on made instances, and the verdict on its report of one.
pub(crate) fn check<R: AllocGlobal + Threads + Wait + Sync + Print>(rt: &R) -> io::Result<()> {
    most(rt)?;
    let made = alike::answer(rt, "make 1 2049", b"")?;
    more(rt, made.output.bytes())
}

fn most<R: AllocGlobal + Threads + Wait + Sync + Print>(rt: &R) -> io::Result<()> {
    let made = alike::answer(rt, "make 1 2048", b"")?;
    most_of(rt, made.output.bytes())
}

fn most_of<R: AllocGlobal + Threads + Wait + Sync + Print>(rt: &R, made: &[u8]) -> io::Result<()> {
    alike::end(rt, "near", "2048 sinks", made)?;
    alike::judge(rt, "near", made)
}

fn more<R: AllocGlobal + Threads + Wait + Sync + Print>(rt: &R, made: &[u8]) -> io::Result<()> {
    alike::end(rt, "near", "2049 sinks", made)?;
    let text = alike::joined(rt.alloc(), made, b"more\n")?;
    alike::end(rt, "near", "2049 sinks and a word after them", &text)
}
