//! What the notes say where a run wrote nothing whole.

ghost use Rattle.cts_io.specs.Text.{Puts, Writes};
ghost use Rattle.cts_top.specs.Notes.{note_of, stop_note};

use crate::stop::{Answer, Stop};
use cts_io::{ByteSink, SinkBuffer, WriteEnd};
use cts_notes::put_refusal;

/// Writes what the notes get of a run that ended so: one line, or nothing. It takes no memory.
pub fn write_note<N: ByteSink>(notes: &mut N, ending: &Result<Answer, Stop>) -> Result<(), WriteEnd>
    ensures { Writes N.held N.faults notes.old notes.new (note_of ending.now) result }
{
    let mut out = SinkBuffer::new();
    put_ending(&mut out, notes, ending);
    out.finish(notes)
}

#[tactic(auto, unfolding(crate::specs::Notes::note_of))]
fn put_ending<N: ByteSink>(out: &mut SinkBuffer, notes: &mut N, ending: &Result<Answer, Stop>)
    ensures { Puts N.ByteSink (notes.old, out.old) (notes.new, out.new) (note_of ending.now) }
{
    match ending {
        Ok(_) => out.put(notes, b""),
        Err(stop) => put_stop(out, notes, stop),
    }
}

#[tactic(auto, unfolding(crate::specs::Notes::stop_note))]
fn put_stop<N: ByteSink>(out: &mut SinkBuffer, notes: &mut N, stop: &Stop)
    ensures { Puts N.ByteSink (notes.old, out.old) (notes.new, out.new) (stop_note stop.now) }
{
    match stop {
        Stop::Words => out.put(
            notes,
            b"usage: cts synth W, check, edit, make SEED N, job SEED N W, trunk STEP J, near, replay\n",
        ),
        Stop::TooLong => out.put(notes, b"refused: input longer than 67108864 bytes\n"),
        Stop::Many => out.put(notes, b"refused: more than 2048 sinks for near\n"),
        Stop::Refused { line, cause } => put_refusal(out, notes, *line, cause),
        Stop::ReadFault => out.put(notes, b"read fault\n"),
        Stop::WriteFault => out.put(notes, b"write fault\n"),
        Stop::NoMemory => out.put(notes, b"no memory\n"),
    }
}
