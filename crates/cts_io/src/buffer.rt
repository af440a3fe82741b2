//! A buffer between a text that is made of many small pieces and its sink.

ghost use Rattle.std.specs.Prelude.{◌≡◌, ℕ, ◌+◌, ◌^◌, ◌<◌, ◌≤◌, [], ◌++◌, length, take};
ghost use Rattle.cts_num.specs.Decimal.{decimal_text};
ghost use Rattle.cts_io.specs.Pending.{Pending, fresh};
ghost use Rattle.cts_io.specs.Text.{Finishes, Puts};

use crate::device::ByteSink;
use crate::write::{WriteEnd, write_all};
use cts_num::{decimal, write_decimal};
use std::marker::Model;

/// The bytes that a buffer holds: 64 KiB.
const ROOM: usize = 65_536;

/// The bytes of the longest number: 38 digits and a point.
const LONGEST_NUMBER: usize = 39;

/// A buffer before a sink, for a text that comes in many pieces. The sink gets some 64 KiB at a time,
/// and no memory is taken.
///
/// A failure of the sink is kept until `finish` tells it. After it nothing goes to the sink any
/// more, so that `put` has no answer to look at. One buffer serves one text and one sink.
#[derive(Drop)]
pub struct SinkBuffer {
    bytes: [u8; ROOM],
    len: usize,
    written: usize,
    failed: bool,
}

impl Model for SinkBuffer {
    ghost use Rattle.std.specs.Prelude.{◌≤◌, take};
    ghost use Rattle.cts_io.specs.Pending.{Pending};

    ghost Value = { Pending };

    ghost view = { λ s. record { waiting = take s.len s.bytes; written = s.written; failed = s.failed } };

    ghost invariant = { λ s. s.len ≤ 65536 };
}

impl SinkBuffer {
    /// An empty buffer, for a text of which nothing is written yet.
    pub fn new() -> SinkBuffer
        ensures { result ≡ fresh }
    {
        SinkBuffer {
            bytes: [0; ROOM],
            len: 0,
            written: 0,
            failed: false,
        }
    }

    /// Gives `piece` to the sink, now or later.
    #[inline(always)]
    pub fn put<K: ByteSink>(&mut self, sink: &mut K, piece: &[u8])
        ensures { Puts K.ByteSink (sink.old, self.old) (sink.new, self.new) piece.now }
    {
        if piece.len() <= ROOM - self.len {
            self.keep(piece);
        } else {
            self.put_over(sink, piece);
        }
    }

    /// Gives the canonical decimal text of `value`, which counts units of 10^-`places`, to the sink, now
    /// or later.
    #[inline(always)]
    pub fn put_decimal<K: ByteSink>(&mut self, sink: &mut K, value: u128, places: u32)
        requires value { value < 10 ^ 38 }
        requires places { places ≤ 16 }
        ensures { Puts K.ByteSink (sink.old, self.old) (sink.new, self.new) (decimal_text places value) }
    {
        if LONGEST_NUMBER <= ROOM - self.len {
            self.keep_decimal(value, places);
        } else {
            self.put_decimal_over(sink, value, places);
        }
    }

    /// Gives a label and then a number, as [`put`](Self::put) and [`put_decimal`](Self::put_decimal) do
    /// one after the other.
    #[inline(always)]
    pub fn put_labelled<K: ByteSink>(
        &mut self,
        sink: &mut K,
        label: &[u8],
        value: u128,
        places: u32,
    )
        requires value { value < 10 ^ 38 }
        requires places { places ≤ 16 }
        ensures { Puts K.ByteSink (sink.old, self.old) (sink.new, self.new) (label.now ++ decimal_text places value) }
    {
        let room = ROOM - self.len;
        if LONGEST_NUMBER <= room && label.len() <= room - LONGEST_NUMBER {
            self.keep(label);
            self.keep_decimal(value, places);
        } else {
            self.put_labelled_over(sink, label, value, places);
        }
    }

    /// Gives what waits to the sink, and tells how the writing of the whole text ended.
    pub fn finish<K: ByteSink>(mut self, sink: &mut K) -> Result<(), WriteEnd>
        ensures { Finishes K.ByteSink (sink.old, self) sink.new result }
    {
        self.send(sink);
        if self.failed {
            Err(WriteEnd::WriteFault {
                written: self.written,
            })
        } else {
            Ok(())
        }
    }

    /// Makes room by a write, and then gives `piece`, which may be longer than the buffer.
    #[cold]
    #[inline(never)]
    fn put_over<K: ByteSink>(&mut self, sink: &mut K, piece: &[u8])
        ensures { Puts K.ByteSink (sink.old, self.old) (sink.new, self.new) piece.now }
    {
        self.send(sink);
        if piece.len() <= ROOM {
            self.keep(piece);
        } else {
            self.pass(sink, piece);
        }
    }

    /// As `put_decimal`, by a text of its own.
    #[cold]
    #[inline(never)]
    fn put_decimal_over<K: ByteSink>(&mut self, sink: &mut K, value: u128, places: u32)
        requires value { value < 10 ^ 38 }
        requires places { places ≤ 16 }
        ensures { Puts K.ByteSink (sink.old, self.old) (sink.new, self.new) (decimal_text places value) }
    {
        self.put_over(sink, decimal(value, places).bytes());
    }

    /// As `put_labelled`, by a write between.
    #[cold]
    #[inline(never)]
    fn put_labelled_over<K: ByteSink>(
        &mut self,
        sink: &mut K,
        label: &[u8],
        value: u128,
        places: u32,
    )
        requires value { value < 10 ^ 38 }
        requires places { places ≤ 16 }
        ensures { Puts K.ByteSink (sink.old, self.old) (sink.new, self.new) (label.now ++ decimal_text places value) }
    {
        self.put_over(sink, label);
        self.put_decimal(sink, value, places);
    }

    /// Writes a number behind what waits.
    #[inline(always)]
    fn keep_decimal(&mut self, value: u128, places: u32)
        requires value { value < 10 ^ 38 }
        requires places { places ≤ 16 }
        requires room { length self.old.waiting + 39 ≤ 65536 }
        ensures { self.new ≡ record self.old { waiting = self.old.waiting ++ decimal_text places value } }
    {
        self.len = store_decimal(&mut self.bytes, self.len, value, places);
    }

    /// Copies `piece` behind what waits.
    #[inline(always)]
    fn keep(&mut self, piece: &[u8])
        requires { length self.old.waiting + length piece.now ≤ 65536 }
        ensures { self.new ≡ record self.old { waiting = self.old.waiting ++ piece.now } }
    {
        store(&mut self.bytes, self.len, piece);
        self.len += piece.len();
    }

    /// Gives a long piece to the sink at once.
    fn pass<K: ByteSink>(&mut self, sink: &mut K, piece: &[u8])
        requires { self.old.waiting ≡ [] }
        ensures { Puts K.ByteSink (sink.old, self.old) (sink.new, self.new) piece.now }
    {
        hand_over(sink, piece, &mut self.written, &mut self.failed);
    }

    /// Gives all that waits to the sink.
    fn send<K: ByteSink>(&mut self, sink: &mut K)
        ensures given { Puts K.ByteSink (sink.old, self.old) (sink.new, self.new) [] }
        ensures none { self.new.waiting ≡ [] }
    {
        hand_over(
            sink,
            &self.bytes[..self.len],
            &mut self.written,
            &mut self.failed,
        );
        self.len = 0;
    }
}

/// Writes bytes that waited, unless the sink has failed before.
fn hand_over<K: ByteSink>(sink: &mut K, bytes: &[u8], written: &mut usize, failed: &mut bool)
    ensures { Puts K.ByteSink
        (sink.old, record { waiting = bytes.now; written = written.old; failed = failed.old })
        (sink.new, record { waiting = []; written = written.new; failed = failed.new }) [] }
{
    if *failed {
        return;
    }
    match write_all(sink, bytes) {
        Ok(()) => *written = written.saturating_add(bytes.len()),
        Err(end) => {
            *written = written.saturating_add(end.written());
            *failed = true;
        }
    }
}

/// Writes a number to the place `at` of `bytes`, and returns where its text ends.
#[inline(always)]
fn store_decimal(bytes: &mut [u8], at: usize, value: u128, places: u32) -> usize
    requires value { value < 10 ^ 38 }
    requires places { places ≤ 16 }
    requires room { at + 39 ≤ length bytes.old }
    ensures end { result ≤ at + 39 }
    ensures written { take result bytes.new ≡ take at bytes.old ++ decimal_text places value }
{
    at + write_decimal(value, places, &mut bytes[at..])
}

/// Copies `piece` to the place `at` of `bytes`.
#[inline(always)]
fn store(bytes: &mut [u8], at: usize, piece: &[u8])
    requires { at + length piece.now ≤ length bytes.old }
    ensures { take (at + length piece.now) bytes.new ≡ take at bytes.old ++ piece.now }
{
    bytes[at..at + piece.len()].copy_from_slice(piece);
}
