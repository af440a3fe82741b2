//! Sources and sinks of the host and in memory, whole texts, and lines.

ghost use Rattle.std.specs.Prelude.{◌≡◌, ◌++◌, ◌<◌, ◌^◌, codes, Ok, Err};
ghost use Rattle.cts_io.specs.Text.{Puts, Writes};

use cts_io::{
    ByteSink, ByteSource, HostSink, HostSource, Lines, MemSink, MemSource, ReadEnd, SinkBuffer,
    WriteEnd, read_all, write_all,
};
use std::alloc::Global;
use std::io;
use std::io::{ErrorKind, Read, Write};
use std::process::Abort;
use std::test::Fail;

const TEXT: &[u8] = b"cts 1\ndie 0 0 20 20\nsource 0 0 0\nwire 1 1\n";

/// A source of the text, which fails at these calls and gives at least 1 and at most `most` bytes a call.
fn source(alloc: Global, failing: &[u64], most: usize) -> Result<MemSource, Fail> {
    let bytes = Vec::from_slice(alloc, TEXT)?;
    Ok(MemSource::new(bytes, failing.to_vec(alloc)?, most.max(1)))
}

/// A sink with room for so many bytes, which fails at these calls and takes at least 1 and at most `most` bytes a call.
fn sink(alloc: Global, room: usize, failing: &[u64], most: usize) -> Result<MemSink, Fail> {
    let failing = failing.to_vec(alloc)?;
    Ok(MemSink::new(alloc, room, failing, most.max(1))?)
}

/// Compares bytes.
fn are(rt: &impl Abort, found: &[u8], want: &[u8]) {
    assert_eq!(rt; found, want);
}

/// Compares counts of bytes or calls.
fn is(rt: &impl Abort, found: u64, want: u64) {
    assert_eq!(rt; found, want);
}

/// Whether a source is read whole, or why not.
fn end_of<S: ByteSource>(alloc: Global, source: &mut S, limit: usize) -> Option<ReadEnd>
    requires { limit < 2 ^ 32 }
{
    read_all(alloc, source, limit).err()
}

/// Compares how many calls it takes to read the text.
fn is_read_in(rt: &impl Abort, alloc: Global, most: usize, calls: u64) -> Result<(), Fail> {
    let mut source = source(alloc, &[], most)?;
    let all = read_all(alloc, &mut source, 42)?;
    are(rt, all.as_slice(), TEXT);
    is(rt, source.calls(), calls);
    Ok(())
}

#[test]
fn reads_all(rt: HostRuntime) -> Result<(), Fail> {
    // The last call of each finds the end.
    is_read_in(&rt, rt.alloc(), 1, 43)?;
    is_read_in(&rt, rt.alloc(), 2, 22)?;
    is_read_in(&rt, rt.alloc(), 7, 7)?;
    is_read_in(&rt, rt.alloc(), 42, 2)?;
    is_read_in(&rt, rt.alloc(), 1000, 2)
}

/// Compares what is left of a source in memory.
fn rest_is(
    rt: &impl Abort,
    alloc: Global,
    source: &mut MemSource,
    want: &[u8],
) -> Result<(), Fail> {
    let rest = read_all(alloc, source, 42)?;
    are(rt, rest.as_slice(), want);
    Ok(())
}

#[test]
fn tells_why_not_all_was_read(rt: HostRuntime) -> Result<(), Fail> {
    let mut long = source(rt.alloc(), &[], 7)?;
    let end = end_of(rt.alloc(), &mut long, 41);
    assert!(rt; matches!(end, Some(ReadEnd::TooLong)));
    is(&rt, long.calls(), 6);
    // The third read fails, and a later call goes on behind the first two.
    let mut failing = source(rt.alloc(), &[2], 7)?;
    let end = end_of(rt.alloc(), &mut failing, 42);
    assert!(rt; matches!(end, Some(ReadEnd::ReadFault)));
    is(&rt, failing.calls(), 3);
    let rest = b"20 20\nsource 0 0 0\nwire 1 1\n";
    rest_is(&rt, rt.alloc(), &mut failing, rest.as_slice())
}

/// Compares how much of the text a sink takes, and what it holds then.
fn is_written(rt: &impl Abort, mut sink: MemSink, written: usize) {
    let count = match write_all(&mut sink, TEXT) {
        Ok(()) => TEXT.len(),
        Err(end) => end.written(),
    };
    is(rt, count as u64, written as u64);
    are(rt, sink.bytes(), TEXT.get(..written).unwrap_or(b"none"));
}

#[test]
fn writes_all(rt: HostRuntime) -> Result<(), Fail> {
    is_written(&rt, sink(rt.alloc(), 42, &[9], 7)?, 42);
    is_written(&rt, sink(rt.alloc(), 50, &[1], 7)?, 7);
    is_written(&rt, sink(rt.alloc(), 5, &[9], 7)?, 5);
    is_written(&rt, sink(rt.alloc(), 42, &[0], 7)?, 0);
    let mut none = sink(rt.alloc(), 0, &[], 1)?;
    write_all(&mut none, b"")?;
    is(&rt, none.calls(), 0);
    Ok(())
}

/// A device that fails at every read, and at every write where it does not take nothing.
#[derive(Drop)]
struct Broken {
    is_idle: bool,
}

impl Read for Broken {
    fn read(&mut self, _buf: &mut [u8]) -> io::Result<usize> {
        Err(io::Error::from(ErrorKind::Other))
    }
}

impl Write for Broken {
    fn write(&mut self, _bytes: &[u8]) -> io::Result<usize> {
        if self.is_idle {
            Ok(0)
        } else {
            Err(io::Error::from(ErrorKind::Other))
        }
    }

    fn flush(&mut self) -> io::Result<()> {
        Ok(())
    }
}

/// A writer that takes at most 3 bytes a call.
#[derive(Drop)]
struct Narrow<'a> {
    held: &'a mut Vec<u8>,
    calls: u32,
}

impl Write for Narrow<'_> {
    fn write(&mut self, bytes: &[u8]) -> io::Result<usize> {
        self.calls = self.calls.saturating_add(1);
        self.held.write(&bytes[..bytes.len().min(3)])
    }

    fn flush(&mut self) -> io::Result<()> {
        Ok(())
    }
}

#[test]
fn writes_whole_over_short_writes(rt: HostRuntime) -> Result<(), Fail> {
    let mut held = Vec::new(rt.alloc());
    let mut device = Narrow {
        held: &mut held,
        calls: 0,
    };
    let mut sink = HostSink::new(&mut device);
    write_all(&mut sink, TEXT)?;
    is(&rt, u64::from(device.calls), 14);
    are(&rt, held.as_slice(), TEXT);
    Ok(())
}

/// Bytes of a prime period, so that no byte of a block stands for that of another one.
fn long_text(alloc: Global) -> Result<Vec<u8>, Fail> {
    let mut bytes = Vec::with_capacity(alloc, 200_000)?;
    for place in 0..200_000u32 {
        bytes.push((place % 251) as u8)?;
    }
    Ok(bytes)
}

/// What a source of the host reads of these bytes.
fn read_from_the_host(alloc: Global, mut bytes: &[u8], limit: usize) -> Result<Vec<u8>, Fail>
    requires { limit < 2 ^ 32 }
{
    let mut source = HostSource::new(&mut bytes);
    Ok(read_all(alloc, &mut source, limit)?)
}

#[test]
fn reads_whole_over_many_blocks(rt: HostRuntime) -> Result<(), Fail> {
    let bytes = long_text(rt.alloc())?;
    let all = read_from_the_host(rt.alloc(), &bytes, 200_000)?;
    is(&rt, all.len() as u64, 200_000);
    assert!(rt; all.as_slice() == bytes.as_slice());
    Ok(())
}

/// Compares what happens at a device that fails, and at one that takes nothing.
fn fails_at_once(rt: &impl Abort, is_idle: bool) {
    let mut device = Broken { is_idle };
    let mut sink = HostSink::new(&mut device);
    let end = write_all(&mut sink, TEXT);
    assert!(rt; matches!(end, Err(WriteEnd::WriteFault { written: 0 })));
}

#[test]
fn reads_and_writes_the_host(rt: HostRuntime) -> Result<(), Fail> {
    let all = read_from_the_host(rt.alloc(), TEXT, 1000)?;
    are(&rt, all.as_slice(), TEXT);

    let mut held = Vec::new(rt.alloc());
    let mut sink = HostSink::new(&mut held);
    write_all(&mut sink, TEXT)?;
    are(&rt, held.as_slice(), TEXT);

    let mut device = Broken { is_idle: false };
    let end = end_of(rt.alloc(), &mut HostSource::new(&mut device), 9);
    assert!(rt; matches!(end, Some(ReadEnd::ReadFault)));
    fails_at_once(&rt, false);
    fails_at_once(&rt, true);
    Ok(())
}

fn put_line<K: ByteSink>(out: &mut SinkBuffer, sink: &mut K, name: &[u8], value: &[u8])
    ensures { Puts K.ByteSink (sink.old, out.old) (sink.new, out.new)
        (name.now ++ codes " " ++ value.now ++ codes "\n") }
{
    out.put(sink, name);
    out.put(sink, b" ");
    out.put(sink, value);
    out.put(sink, b"\n");
}

/// A text of two lines, as the layers above write theirs.
fn write_lines<K: ByteSink>(sink: &mut K, name: &[u8], value: &[u8]) -> Result<(), WriteEnd>
    ensures { Writes K.held K.faults sink.old sink.new
        (name.now ++ codes " " ++ value.now ++ codes "\n"
        ++ (value.now ++ codes " " ++ name.now ++ codes "\n")) result }
{
    let mut out = SinkBuffer::new();
    put_line(&mut out, sink, name, value);
    put_line(&mut out, sink, value, name);
    out.finish(sink)
}

/// 8,000 pieces of 42 bytes, of which 1,560 fit the buffer, and one that is longer than the buffer.
fn write_many(sink: &mut MemSink, long: &[u8]) -> Result<(), WriteEnd> {
    let mut out = SinkBuffer::new();
    for _ in 0..8_000 {
        out.put(sink, TEXT);
    }
    out.put(sink, long);
    out.finish(sink)
}

/// Writes the many pieces to a sink that fails at these calls, compares how many bytes it takes in how many calls, and
/// tells the end.
fn end_of_many(
    rt: &impl Abort,
    alloc: Global,
    failing: &[u64],
    written: u64,
    calls: u64,
) -> Result<Result<(), WriteEnd>, Fail> {
    let long = vec![in alloc; b'x'; 160_000]?;
    let mut sink = sink(alloc, 496_000, failing, 1_000_000)?;
    let end = write_many(&mut sink, &long);
    is(rt, sink.bytes().len() as u64, written);
    is(rt, sink.calls(), calls);
    Ok(end)
}

#[test]
fn writes_through_a_buffer(rt: HostRuntime) -> Result<(), Fail> {
    let mut small = sink(rt.alloc(), 14, &[], 3)?;
    write_lines(&mut small, b"wire", b"1")?;
    are(&rt, small.bytes(), b"wire 1\n1 wire\n");
    end_of_many(&rt, rt.alloc(), &[], 496_000, 7)??;
    let end = end_of_many(&rt, rt.alloc(), &[2], 131_040, 3)?;
    assert!(rt; matches!(end, Err(WriteEnd::WriteFault { written: 131_040 })));
    Ok(())
}

/// The lines of a text, which have the numbers from 7 on, with a bar behind each.
fn barred(rt: &impl Abort, alloc: Global, lines: &mut Lines) -> Result<Vec<u8>, Fail> {
    let mut barred = Vec::new(alloc);
    for number in 7..10 {
        if let Some((at, line)) = lines.next() {
            is(rt, u64::from(at), number);
            barred.extend_from_slice(line)?;
            barred.push(b'|')?;
        }
    }
    Ok(barred)
}

/// Compares the lines of a text behind line 6, with a bar behind each, and the number of the last one.
fn compare_lines(
    rt: &impl Abort,
    alloc: Global,
    text: &[u8],
    want: &[u8],
    last: u64,
) -> Result<(), Fail> {
    assert!(rt; text.len() <= 100);
    let mut lines = Lines::new(text, 6);
    let barred = barred(rt, alloc, &mut lines)?;
    are(rt, &barred, want);
    is(rt, u64::from(lines.line()), last);
    are(rt, lines.rest(), b"");
    Ok(())
}

#[test]
fn gives_lines(rt: HostRuntime) -> Result<(), Fail> {
    let cases: [(&[u8], &[u8], u64); 9] = [
        (b"", b"", 6),
        (b"cts 1\nend", b"cts 1|end|", 8),
        (b"cts 1\r\nend\r\n", b"cts 1|end|", 8),
        (b"a\n\nb\n", b"a||b|", 9),
        (b"\n\r", b"||", 8),
        (b"end\r", b"end|", 7),
        (b"end\r\r", b"end\r|", 7),
        (b"x\r\r\n", b"x\r|", 7),
        (b"a\rb \r \n", b"a\rb \r |", 7),
    ];
    for (text, want, last) in cases {
        compare_lines(&rt, rt.alloc(), text, want, last)?;
    }
    Ok(())
}
