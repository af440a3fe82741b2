//! Pages, into which the lines of a stretch are written.

ghost use Rattle.std.specs.Prelude.{◌≡◌, ℕ, Some, [], ◌++◌, ◌<◌, ◌≤◌, length, take, IfOk, IfSome, OnErr};
ghost use Rattle.std.specs.Io.KnownBytes.{Appends};
ghost use Rattle.cts_io.specs.Faults.{Rose};
ghost use Rattle.cts_report_workers.specs.Stretches.{Says, stretch_text, IsPrintableBody};

use crate::body::{Body, put_lines};
use cts_io::{ByteSink, Failed, SinkBuffer};
use cts_num::NoMemory;
use std::alloc::Global;

/// A sink over reserved room. It takes each piece whole, or fails where there is no room for it.
#[derive(Drop)]
pub(crate) struct Page {
    text: Vec<u8>,
    faults: u64,
}

impl ByteSink for Page {
    ghost held = { λ page. Some page.text.items };

    ghost faults = { λ page. page.faults };

    fn write(&mut self, bytes: &[u8]) -> Result<usize, Failed> {
        if bytes.len() > self.text.capacity() - self.text.len() {
            self.faults = self.faults.saturating_add(1);
            return Err(Failed);
        }
        self.text.extend_from_slice(bytes).unwrap();
        Ok(bytes.len())
    }
}

impl Page {
    /// An empty page with room for so many bytes, so that no write takes memory.
    pub(crate) fn new(alloc: Global, room: usize) -> Result<Page, NoMemory> {
        Ok(Page {
            text: Vec::with_capacity(alloc, room)?,
            faults: 0,
        })
    }

    /// Empties the page. Its room stays.
    fn clear(&mut self)
        ensures text { self.new.text.items ≡ [] }
        ensures faults { self.new.faults ≡ 0 }
    {
        self.text.clear();
        self.faults = 0;
    }

    /// Writes the lines of so many nodes from the number `first` on to the empty page, as far as they fit.
    pub(crate) fn fill(&mut self, body: &Body<'_>, first: usize, count: usize)
        requires { IsPrintableBody body.now }
        ensures { Says self.new (stretch_text body.now first count) }
    {
        self.clear();
        let mut out = SinkBuffer::new();
        put_lines(&mut out, self, body, first, count);
        drop(out.finish(self));
    }

    /// Its text, if all that was written to it fitted.
    pub(crate) fn text(&self) -> Option<&[u8]>
        ensures { IfSome result (λ text. (self.now.faults ≡ 0) × (text.now ≡ self.now.text.items)) }
    {
        if self.faults == 0 {
            Some(self.text.as_slice())
        } else {
            None
        }
    }
}
