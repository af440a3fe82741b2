//! The reason that this program alone has to stop, and the status of a run.

ghost use Rattle.std.specs.Prelude.{◌≡◌, Result};
ghost use Rattle.cts_io.specs.Text.{Puts};
ghost use Rattle.cts_notes.specs.declared.status.Status.TheVariants.{Refused};
ghost use Rattle.cts_after.specs.After.{status_of};
ghost use Rattle.cts_after.specs.Notes.{not_history_note};

use crate::outcome::Answer;
use cts_io::{ByteSink, SinkBuffer};
use cts_notes::{Reason, Status, Stop, put_numbered};

/// What follows the instance begins with no history: the first line with which none begins, counted from 1
/// after the instance.
#[derive(Clone, Copy, Debug)]
pub struct NotHistory {
    pub line: u64,
}

impl Reason for NotHistory {
    ghost note = { not_history_note };

    ghost status = { λ _. Refused };

    #[tactic(auto, unfolding(crate::specs::Notes::not_history_note))]
    fn put_note<N: ByteSink>(&self, out: &mut SinkBuffer, notes: &mut N)
        ensures { Puts N.ByteSink (notes.old, out.old) (notes.new, out.new) (not_history_note self.now) }
    {
        put_numbered(out, notes, b"refused: history line ", self.line);
        out.put(notes, b"\n");
    }

    fn status(&self) -> Status
        ensures { result ≡ Refused }
    {
        Status::Refused
    }
}

/// The status of a run that ended so.
pub fn status_of(ending: &Result<Answer, Stop<NotHistory>>) -> Status
    ensures { result ≡ status_of ending.now }
{
    match ending {
        Ok(Answer::After) => Status::Done,
        Ok(Answer::No) => Status::No,
        Err(stop) => stop.status(),
    }
}
