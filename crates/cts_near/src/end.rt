//! Why sinks have no nearest-pair topology.

use cts_num::NoMemory;
use std::alloc::{AllocError, AllocFailed};
use thiserror::Error;

/// Why sinks have no nearest-pair topology.
#[derive(Clone, Copy, Debug, PartialEq, Eq, Error)]
pub enum NearEnd {
    /// There are more than 2,048 sinks.
    #[error("more than 2048 sinks")]
    Many,
    /// The first step, from 1, whose pair is over the limits of wires, loads or delays.
    #[error("beyond the limits at step {step}")]
    Beyond { step: u32 },
    /// Memory ran out.
    #[error("no memory")]
    NoMemory,
}

impl From<NoMemory> for NearEnd {
    ghost use Rattle.std.specs.Prelude.{◌≡◌};
    ghost use Rattle.cts_near.specs.declared.end.NearEnd.TheVariants.{NoMemory};

    ghost from_gives = { λ _ end. end ≡ NoMemory };

    fn from(_error: NoMemory) -> NearEnd {
        NearEnd::NoMemory
    }
}

impl From<AllocError> for NearEnd {
    ghost use Rattle.std.specs.Prelude.{◌≡◌};
    ghost use Rattle.cts_near.specs.declared.end.NearEnd.TheVariants.{NoMemory};

    ghost from_gives = { λ _ end. end ≡ NoMemory };

    fn from(_error: AllocError) -> NearEnd {
        NearEnd::NoMemory
    }
}

impl<T: Drop> From<AllocFailed<T>> for NearEnd {
    ghost use Rattle.std.specs.Prelude.{◌≡◌};
    ghost use Rattle.cts_near.specs.declared.end.NearEnd.TheVariants.{NoMemory};

    ghost from_gives = { λ _ end. end ≡ NoMemory };

    fn from(_error: AllocFailed<T>) -> NearEnd {
        NearEnd::NoMemory
    }
}
