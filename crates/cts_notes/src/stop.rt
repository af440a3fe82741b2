//! Why a run wrote nothing whole, with its status and its note.

ghost use Rattle.std.specs.Prelude.{◌≡◌, ℕ, List};
ghost use Rattle.cts_io.specs.Text.{Puts, Writes};
ghost use Rattle.cts_notes.specs.Stops.{ending_note, stop_note, stop_of_read, stop_of_text, stop_status};
ghost use Rattle.cts_notes.specs.declared.stop.Stop.TheVariants.{WriteFault};

use crate::notes::put_refusal;
use crate::status::Status;
use cts_io::{ByteSink, ReadEnd, SinkBuffer, WriteEnd};
use cts_num::NoMemory;
use cts_read::{Cause, ReadStop};

/// A reason that a program alone has to stop at an input.
pub trait Reason {
    ghost use Rattle.cts_notes.specs.declared.status.Status.{Status};

    /// What the notes say of it.
    ghost note: { Self → List ℕ };

    /// The status of a run that stopped for it.
    ghost status: { Self → Status };

    /// Puts its note.
    fn put_note<N: ByteSink>(&self, out: &mut SinkBuffer, notes: &mut N)
        ensures { Puts N.ByteSink (notes.old, out.old) (notes.new, out.new) (note self.now) };

    /// The status of a run that stopped for it.
    fn status(&self) -> Status
        ensures { result ≡ status self.now };
}

/// Why a run wrote nothing whole: the ends that all programs have, and a program's own reasons.
#[derive(Clone, Copy, Debug)]
pub enum Stop<E> {
    /// The words are not served.
    Words,
    /// The input is longer than is accepted.
    TooLong,
    /// The input begins with no instance, or what may follow it is none: its first line that offends, and the
    /// first cause of that line.
    Refused { line: u32, cause: Cause },
    /// The program has a reason of its own.
    Own(E),
    /// Reading the input failed.
    ReadFault,
    /// Writing the text failed.
    WriteFault,
    /// Memory ran out.
    NoMemory,
}

impl<E> From<ReadEnd> for Stop<E> {
    ghost from_gives = { λ end stop. stop ≡ stop_of_read end };

    fn from(end: ReadEnd) -> Stop<E> {
        match end {
            ReadEnd::ReadFault => Stop::ReadFault,
            ReadEnd::TooLong => Stop::TooLong,
            ReadEnd::NoMemory => Stop::NoMemory,
        }
    }
}

impl<E> From<ReadStop> for Stop<E> {
    ghost from_gives = { λ end stop. stop ≡ stop_of_text end };

    fn from(end: ReadStop) -> Stop<E> {
        match end {
            ReadStop::Refused { line, cause } => Stop::Refused { line, cause },
            ReadStop::NoMemory => Stop::NoMemory,
        }
    }
}

impl<E> From<NoMemory> for Stop<E> {
    ghost use Rattle.cts_notes.specs.declared.stop.Stop.TheVariants.{NoMemory};

    ghost from_gives = { λ _ stop. stop ≡ NoMemory };

    fn from(_error: NoMemory) -> Stop<E> {
        Stop::NoMemory
    }
}

impl<E> From<WriteEnd> for Stop<E> {
    ghost from_gives = { λ _ stop. stop ≡ WriteFault };

    fn from(_end: WriteEnd) -> Stop<E> {
        Stop::WriteFault
    }
}

impl<E: Reason> Stop<E> {
    /// The status of a run that stopped so.
    pub fn status(&self) -> Status
        ensures { result ≡ stop_status E.status self.now }
    {
        match self {
            Stop::Words => Status::Words,
            Stop::TooLong => Status::Refused,
            Stop::Refused { .. } => Status::Refused,
            Stop::Own(reason) => reason.status(),
            Stop::ReadFault => Status::ReadFault,
            Stop::WriteFault => Status::WriteFault,
            Stop::NoMemory => Status::NoMemory,
        }
    }
}

/// Writes what the notes get of a run that ended so: one line, or nothing where something was written whole. The
/// usage is the line that tells which words are served. It takes no memory.
pub fn write_note<T, E: Reason, N: ByteSink>(
    notes: &mut N,
    usage: &[u8],
    ending: &Result<T, Stop<E>>,
) -> Result<(), WriteEnd>
    ensures { Writes N.held N.faults notes.old notes.new (ending_note usage.now E.note ending.now) result }
{
    let mut out = SinkBuffer::new();
    put_ending(&mut out, notes, usage, ending);
    out.finish(notes)
}

#[tactic(auto, unfolding(crate::specs::Stops::ending_note))]
fn put_ending<T, E: Reason, N: ByteSink>(
    out: &mut SinkBuffer,
    notes: &mut N,
    usage: &[u8],
    ending: &Result<T, Stop<E>>,
)
    ensures { Puts N.ByteSink (notes.old, out.old) (notes.new, out.new) (ending_note usage.now E.note ending.now) }
{
    match ending {
        Ok(_) => out.put(notes, b""),
        Err(stop) => put_stop(out, notes, usage, stop),
    }
}

#[tactic(auto, unfolding(crate::specs::Stops::stop_note))]
fn put_stop<E: Reason, N: ByteSink>(
    out: &mut SinkBuffer,
    notes: &mut N,
    usage: &[u8],
    stop: &Stop<E>,
)
    ensures { Puts N.ByteSink (notes.old, out.old) (notes.new, out.new) (stop_note usage.now E.note stop.now) }
{
    match stop {
        Stop::Words => out.put(notes, usage),
        Stop::TooLong => out.put(notes, b"refused: input longer than 67108864 bytes\n"),
        Stop::Refused { line, cause } => put_refusal(out, notes, *line, cause),
        Stop::Own(reason) => reason.put_note(out, notes),
        Stop::ReadFault => out.put(notes, b"read fault\n"),
        Stop::WriteFault => out.put(notes, b"write fault\n"),
        Stop::NoMemory => out.put(notes, b"no memory\n"),
    }
}
