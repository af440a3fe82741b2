//! Why a text is not read.

use cts_instance::Fault;
use cts_num::{DecimalFault, NoMemory};
use std::alloc::{AllocError, AllocFailed};
use thiserror::Error;

/// Why a line is refused: the first cause of the line, in this order but for the numbers and the
/// kinds, which go from left to right.
#[derive(Clone, Copy, Debug, Error)]
pub enum Cause {
    /// The line holds a byte that is neither printable ASCII nor a tab.
    #[error("not ascii")]
    NotAscii,
    /// A word is not the one that stands there.
    #[error("unexpected word")]
    Word,
    /// The line has too many words, or too few.
    #[error("wrong count of words")]
    Count,
    /// A word is no number of its places.
    #[error(transparent)]
    Number(DecimalFault),
    /// The line is not there.
    #[error("missing")]
    Missing,
    /// The line is at odds with the limits, or with the lines before it.
    #[error(transparent)]
    Fault(Fault),
}

/// Why a text is not read.
#[derive(Clone, Copy, Debug, Error)]
pub enum ReadStop {
    /// The first line that offends, counted from 1 over the whole input, and its first cause.
    #[error("line {line}: {cause}")]
    Refused { line: u32, cause: Cause },
    /// Memory ran out.
    #[error("no memory")]
    NoMemory,
}

impl From<NoMemory> for ReadStop {
    ghost use Rattle.std.specs.Prelude.{◌≡◌};
    ghost use Rattle.cts_read.specs.declared.stop.ReadStop.TheVariants.{NoMemory};

    ghost from_gives = { λ _ stop. stop ≡ NoMemory };

    fn from(_error: NoMemory) -> ReadStop {
        ReadStop::NoMemory
    }
}

impl From<AllocError> for ReadStop {
    ghost use Rattle.std.specs.Prelude.{◌≡◌};
    ghost use Rattle.cts_read.specs.declared.stop.ReadStop.TheVariants.{NoMemory};

    ghost from_gives = { λ _ stop. stop ≡ NoMemory };

    fn from(_error: AllocError) -> ReadStop {
        ReadStop::NoMemory
    }
}

impl<T: Drop> From<AllocFailed<T>> for ReadStop {
    ghost use Rattle.std.specs.Prelude.{◌≡◌};
    ghost use Rattle.cts_read.specs.declared.stop.ReadStop.TheVariants.{NoMemory};

    ghost from_gives = { λ _ stop. stop ≡ NoMemory };

    fn from(_error: AllocFailed<T>) -> ReadStop {
        ReadStop::NoMemory
    }
}
