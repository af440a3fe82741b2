//! As many sinks and blocks as there may be: a reader that gives up early for want of memory is seen. And as many steps as
//! there may be, with one more.

use crate::alike;
use cts_read::read_instance;
use std::fmt::Write;
use std::io;
use std::sync::Wait;
use std::thread::Threads;

/// The greatest number of sinks.
const SINKS: u32 = 65_536;
/// The greatest number of blocks of kind `Buffer`, and of kind `All`.
const BUFFER_BLOCKS: u32 = 4_096;

const ALL_BLOCKS: u32 = 64;

/// The greatest number of steps of a script.
const STEPS: u32 = 65_536;

/// Puts a line in so many times.
fn repeat(text: &mut String, count: u32, line: &str) -> io::Result<()> {
    for _ in 0..count {
        text.push_str(line)?;
    }
    Ok(())
}

/// An instance that has as many sinks and blocks as there may be.
fn write_instance(text: &mut String) -> io::Result<()> {
    text.push_str("cts 1\ndie 0 0 100 100\nsource 0 0 0\nwire 1 1\nlimits 1 1 1\nbuffers 0\n")?;
    writeln!(text, "sinks {SINKS}")?;
    for id in 0..SINKS {
        writeln!(text, "sink {id} {} {} 1", id % 100, id / 1_000)?;
    }
    writeln!(text, "blocks {}", BUFFER_BLOCKS + ALL_BLOCKS)?;
    repeat(text, BUFFER_BLOCKS, "block buffer 0 0 9 9\n")?;
    repeat(text, ALL_BLOCKS, "block all 0 0 0 9\n")?;
    text.push_str("end\n")?;
    Ok(())
}

/// Prints how many sinks and blocks are read of an instance that has as many as there may be.
pub(crate) fn read<R: AllocGlobal + Print>(rt: &R) -> io::Result<()> {
    let mut text = String::new(rt.alloc());
    write_instance(&mut text)?;
    print_counts(rt, text.as_bytes())
}

fn print_counts<R: AllocGlobal + Print>(rt: &R, text: &[u8]) -> io::Result<()> {
    if text.len() > 4_194_304 {
        return Ok(());
    }
    match read_instance(rt.alloc(), text) {
        Ok(taken) => {
            let (sinks, blocks) = (taken.instance.sinks(), taken.instance.blocks());
            println!(rt; "read {} sinks and {} blocks", sinks.len(), blocks.len())
        }
        Err(stop) => println!(rt; "{stop:?}"),
    }
}

/// A line after as many steps as there may be, by what it is.
const MORE_STEPS: [(&str, &str); 6] = [
    ("65537 steps", "1 tree\nend\n"),
    (
        "65536 steps and one of 10 digits",
        "2 cap 1000000000 1\nend\n",
    ),
    ("65536 steps and one without a load", "2 cap 1 x\nend\n"),
    ("65536 steps and one of three words", "2 cap 1\nend\n"),
    ("65536 steps and one of no caller", "two tree\nend\n"),
    ("65536 steps and no end", ""),
];

/// Prints how the forms that read a script end on as many steps as there may be, and on what may follow them.
pub(crate) fn steps<R: AllocGlobal + Threads + Wait + Sync + Print>(rt: &R) -> io::Result<()> {
    let mut text = String::new(rt.alloc());
    text.push_str("cts 1\ndie 0 0 20 20\nsource 0 0 0\nwire 1 1\nlimits 1 1 1\nbuffers 0\n")?;
    text.push_str("sinks 1\nsink 1 3 4 5\nblocks 0\nend\ncallers 1\n")?;
    repeat(&mut text, STEPS, "1 tree\n")?;
    end_with(rt, "edit", text.as_bytes(), "65536 steps", "end\n")?;
    for (name, more) in MORE_STEPS {
        end_with(rt, "edit", text.as_bytes(), name, more)?;
        end_with(rt, "replay", text.as_bytes(), name, more)?;
    }
    Ok(())
}

/// Prints how a form ends on a text and what follows it.
fn end_with<R: AllocGlobal + Threads + Wait + Sync + Print>(
    rt: &R,
    form: &str,
    text: &[u8],
    name: &str,
    more: &str,
) -> io::Result<()> {
    let text = alike::joined(rt.alloc(), text, more.as_bytes())?;
    alike::end(rt, form, name, &text)
}
