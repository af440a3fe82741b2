//! What a case gives, printed.

use cts_instance::{Instance, Version};
use cts_read::{Taken, read_instance};
use std::{io, str};

/// A text, with a line end of its own where it has none.
pub(crate) fn text<R: Print>(rt: &R, bytes: &[u8]) -> io::Result<()> {
    let text = str::from_utf8(bytes).unwrap_or("not UTF-8");
    if text.is_empty() || text.ends_with('\n') {
        print!(rt; "{text}")
    } else {
        println!(rt; "{text}")
    }
}

/// What reading a text gives: why it is refused, or all of the instance, with the number of its last line and the
/// bytes that it takes.
pub(crate) fn reading<R: AllocGlobal + Print>(rt: &R, text: &[u8]) -> io::Result<()> {
    if text.len() > 65_536 {
        return Ok(());
    }
    match read_instance(rt.alloc(), text) {
        Ok(taken) => print_taken(rt, &taken),
        Err(stop) => println!(rt; "{stop:?}"),
    }
}

/// The number of an instance's last line, the bytes that it takes, and every field, in the units of its parts.
fn print_taken<R: Print>(rt: &R, taken: &Taken) -> io::Result<()> {
    println!(rt; "instance of {} lines, {} bytes", taken.lines, taken.used)?;
    let instance = &taken.instance;
    source(rt, instance)?;
    params(rt, instance)?;
    sinks(rt, instance)?;
    blocks(rt, instance)
}

fn source<R: Print>(rt: &R, instance: &Instance) -> io::Result<()> {
    let die = instance.die();
    println!(rt; "die {} {} {} {}", die.x1, die.y1, die.x2, die.y2)?;
    let (x, y, r) = (
        instance.source_x(),
        instance.source_y(),
        instance.source_r(),
    );
    println!(rt; "source {x} {y} {r}")
}

fn params<R: Print>(rt: &R, instance: &Instance) -> io::Result<()> {
    let params = instance.params();
    println!(rt; "wire {} {}", params.wire.r, params.wire.c)?;
    let (load, slew) = (instance.load_limit(), instance.slew_limit());
    println!(rt; "limits {} {load} {slew}", params.insert_at)?;
    for buffer in params.library.items() {
        println!(rt;
            "buffer {} {} {}",
            buffer.cin, buffer.rout, buffer.intrinsic
        )?;
    }
    Ok(())
}

fn sinks<R: Print>(rt: &R, instance: &Instance) -> io::Result<()> {
    for sink in instance.sinks() {
        print!(rt; "sink {} {} {} {}", sink.id, sink.x, sink.y, sink.cap)?;
        match instance.version() {
            Version::One => println!(rt; "")?,
            Version::Two => println!(rt; " {}", sink.offset)?,
        }
    }
    Ok(())
}

fn blocks<R: Print>(rt: &R, instance: &Instance) -> io::Result<()> {
    for block in instance.blocks() {
        println!(rt;
            "block {:?} {} {} {} {}",
            block.kind, block.x1, block.y1, block.x2, block.y2
        )?;
    }
    Ok(())
}
