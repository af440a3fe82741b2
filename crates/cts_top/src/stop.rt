//! How a run ended, with what the notes say of it.

ghost use Rattle.std.specs.Prelude.{◌≡◌, Result};
ghost use Rattle.cts_top.specs.Outcome.{status_of, stop_of_read, stop_of_text};
ghost use Rattle.cts_top.specs.Written.{ended_of};
ghost use Rattle.cts_top.specs.declared.stop.Stop.TheVariants.{WriteFault};

use cts_io::{ReadEnd, WriteEnd};
use cts_notes::Status;
use cts_num::NoMemory;
use cts_read::{Cause, ReadStop};
use thiserror::Error;

/// What a run wrote whole.
#[derive(Clone, Copy)]
pub enum Answer {
    /// The text that the words ask for.
    Text,
    /// That the report is not right.
    No,
    /// That there is no tree.
    NoTree,
    /// That the tree has no trunk with the repeaters that are asked for.
    NoTrunk,
}

/// Why a run wrote nothing whole.
#[derive(Clone, Copy, Debug, Error)]
pub enum Stop {
    /// The words are not served.
    #[error("the words are not served")]
    Words,
    /// The input is longer than is accepted.
    #[error("the input is too long")]
    TooLong,
    /// The instance has too many sinks for a nearest-pair topology.
    #[error("more than 2048 sinks for near")]
    Many,
    /// The input is no instance: its first line that offends, and the first cause of that line.
    #[error("line {line}: {cause}")]
    Refused { line: u32, cause: Cause },
    /// Reading the input failed.
    #[error("read fault")]
    ReadFault,
    /// Writing the report failed.
    #[error("write fault")]
    WriteFault,
    /// Memory ran out.
    #[error("no memory")]
    NoMemory,
}

impl From<ReadEnd> for Stop {
    ghost from_gives = { λ end stop. stop ≡ stop_of_read end };

    fn from(end: ReadEnd) -> Stop {
        match end {
            ReadEnd::ReadFault => Stop::ReadFault,
            ReadEnd::TooLong => Stop::TooLong,
            ReadEnd::NoMemory => Stop::NoMemory,
        }
    }
}

impl From<ReadStop> for Stop {
    ghost from_gives = { λ end stop. stop ≡ stop_of_text end };

    fn from(end: ReadStop) -> Stop {
        match end {
            ReadStop::Refused { line, cause } => Stop::Refused { line, cause },
            ReadStop::NoMemory => Stop::NoMemory,
        }
    }
}

impl From<NoMemory> for Stop {
    ghost use Rattle.cts_top.specs.declared.stop.Stop.TheVariants.{NoMemory};

    ghost from_gives = { λ _ stop. stop ≡ NoMemory };

    fn from(_error: NoMemory) -> Stop {
        Stop::NoMemory
    }
}

impl From<WriteEnd> for Stop {
    ghost from_gives = { λ _ stop. stop ≡ WriteFault };

    fn from(_end: WriteEnd) -> Stop {
        Stop::WriteFault
    }
}

/// How a run ends that wrote a text of this kind.
pub fn ended(written: Result<(), WriteEnd>, kind: Answer) -> Result<Answer, Stop>
    ensures { result ≡ ended_of written kind }
{
    written?;
    Ok(kind)
}

/// The status of a run that ended so.
pub fn status_of(ending: &Result<Answer, Stop>) -> Status
    ensures { result ≡ status_of ending.now }
{
    match ending {
        Ok(Answer::Text) => Status::Done,
        Ok(Answer::No) => Status::No,
        Ok(Answer::NoTree) => Status::NoTree,
        Ok(Answer::NoTrunk) => Status::NoTrunk,
        Err(Stop::Words) => Status::Words,
        Err(Stop::TooLong | Stop::Refused { .. }) => Status::Refused,
        Err(Stop::Many) => Status::Refused,
        Err(Stop::ReadFault) => Status::ReadFault,
        Err(Stop::WriteFault) => Status::WriteFault,
        Err(Stop::NoMemory) => Status::NoMemory,
    }
}
