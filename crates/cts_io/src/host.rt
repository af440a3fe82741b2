//! The edge to the host: std's readers and writers as a source and a sink.

ghost use Rattle.std.specs.Prelude.{◌≡◌, ℕ, [], None, ◌<◌, ◌≤◌, length, IfOk, OnOk, OnErr, IsOk};
ghost use Rattle.std.specs.Io.KnownBytes.{ReadConsumes, WriteAppends};
ghost use Rattle.cts_io.specs.Faults.{Rose, next_count};

use crate::device::{ByteSink, ByteSource, Failed};
use std::io::{Read, Write};
use std::marker::Model;

/// A reader of std as a source. Contracts see the reader and a count of faults, which rises where a
/// read of the host failed, until it stands at 2^64 - 1.
///
/// As a source it tells no bytes, since the host's streams don't. Where its reader does, a read takes
/// exactly what the reader gave.
#[derive(Drop)]
pub struct HostSource<R> {
    reader: R,
    faults: u64,
}

impl<R> Model for HostSource<R> {
    ghost use Rattle.cts_io.specs.Host.{HostState};

    ghost Value = { HostState R };

    ghost view = { λ s. record { device = s.reader; faults = s.faults } };
}

impl<R> HostSource<R> {
    /// A source before this reader, without a fault so far.
    pub fn new(reader: R) -> HostSource<R>
        ensures { result ≡ record { device = reader; faults = 0 } }
    {
        HostSource { reader, faults: 0 }
    }
}

impl<R: Read> ByteSource for HostSource<R> {
    ghost left = { λ _. None };

    ghost faults = { λ s. s.faults };

    fn read(&mut self, buf: &mut [u8]) -> Result<usize, Failed>
        ensures bound { IfOk result (λ n. n ≤ length buf.new) }
        ensures failed { OnErr result (Rose self.old.faults self.new.faults) }
        ensures counted { self.old.faults ≤ self.new.faults }

        // What the reader gave is at the front of the buffer, and nothing else was taken of it.
        ensures bytes { ReadConsumes (R.remaining self.old.device) (R.remaining self.new.device) result buf.new }
        ensures ok { OnOk result (self.new.faults ≡ self.old.faults) }
        ensures err { OnErr result (self.new.faults ≡ next_count self.old.faults) }
    {
        match self.reader.read(buf) {
            Ok(count) => Ok(count),
            Err(_) => {
                self.faults = self.faults.saturating_add(1);
                Err(Failed)
            }
        }
    }
}

/// A writer of std as a sink. Contracts see the writer and a count of faults, which rises where a
/// write of the host failed or took nothing, until it stands at 2^64 - 1. A piece of no bytes does not
/// go to the host, and counts no fault.
///
/// As a sink it tells no bytes, since the host's streams don't. Where its writer does, a write hands
/// over exactly what it says.
#[derive(Drop)]
pub struct HostSink<W> {
    writer: W,
    faults: u64,
}

impl<W> Model for HostSink<W> {
    ghost use Rattle.cts_io.specs.Host.{HostState};

    ghost Value = { HostState W };

    ghost view = { λ s. record { device = s.writer; faults = s.faults } };
}

impl<W> HostSink<W> {
    /// A sink before this writer, without a fault so far.
    pub fn new(writer: W) -> HostSink<W>
        ensures { result ≡ record { device = writer; faults = 0 } }
    {
        HostSink { writer, faults: 0 }
    }
}

impl<W: Write> ByteSink for HostSink<W> {
    ghost held = { λ _. None };

    ghost faults = { λ s. s.faults };

    fn write(&mut self, bytes: &[u8]) -> Result<usize, Failed>
        ensures bound { IfOk result (λ n. n ≤ length bytes.now) }
        ensures some { IfOk result (λ n. 0 < length bytes.now → 0 < n) }
        ensures failed { OnErr result (Rose self.old.faults self.new.faults) }
        ensures counted { self.old.faults ≤ self.new.faults }

        // The writer took as many bytes of the piece as is answered.
        ensures bytes { WriteAppends (W.contents self.old.device) (W.contents self.new.device) result bytes.now }
        ensures ok { OnOk result (self.new.faults ≡ self.old.faults) }
        ensures err { OnErr result (self.new.faults ≡ next_count self.old.faults) }

        // A piece of no bytes is taken, and counts no fault.
        ensures empty { bytes.now ≡ [] → IsOk result }
        ensures untouched { bytes.now ≡ [] → self.new ≡ self.old }
    {
        if bytes.is_empty() {
            return Ok(0);
        }
        match self.writer.write(bytes) {
            Ok(count) if count > 0 => Ok(count),
            _ => {
                self.faults = self.faults.saturating_add(1);
                Err(Failed)
            }
        }
    }
}
