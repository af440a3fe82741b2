//! The reason that this program alone has to stop, and the status of a run.

ghost use Rattle.std.specs.Prelude.{◌≡◌, Result};
ghost use Rattle.cts_io.specs.Text.{Puts};
ghost use Rattle.cts_notes.specs.declared.status.Status.TheVariants.{Refused};
ghost use Rattle.cts_draw.specs.Drawing.{status_of};
ghost use Rattle.cts_draw.specs.Notes.{not_text_note};

use cts_io::{ByteSink, SinkBuffer};
use cts_notes::{Reason, Status, Stop, put_numbered};

/// What follows the instance is no text of a report: the first line with which none begins, counted from 1
/// after the instance.
#[derive(Clone, Copy, Debug)]
pub struct NotText {
    pub line: u32,
}

impl Reason for NotText {
    ghost note = { not_text_note };

    ghost status = { λ _. Refused };

    #[tactic(auto, unfolding(crate::specs::Notes::not_text_note))]
    fn put_note<N: ByteSink>(&self, out: &mut SinkBuffer, notes: &mut N)
        ensures { Puts N.ByteSink (notes.old, out.old) (notes.new, out.new) (not_text_note self.now) }
    {
        put_numbered(out, notes, b"refused: report line ", self.line as u64);
        out.put(notes, b"\n");
    }

    fn status(&self) -> Status
        ensures { result ≡ Refused }
    {
        Status::Refused
    }
}

/// The status of a run that ended so.
pub fn status_of(ending: &Result<(), Stop<NotText>>) -> Status
    ensures { result ≡ status_of ending.now }
{
    match ending {
        Ok(()) => Status::Done,
        Err(stop) => stop.status(),
    }
}
