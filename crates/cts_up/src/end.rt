//! Why the upward pass gives no plan.

use cts_num::NoMemory;
use std::alloc::{AllocError, AllocFailed};
use thiserror::Error;

/// Why the upward pass gives no plan.
#[derive(Clone, Copy, Debug, PartialEq, Eq, Error)]
pub enum UpEnd {
    /// The least number of a node that is over the limits of wires, loads or delays, and whose two
    /// children are finished.
    #[error("beyond the limits at node {node}")]
    Beyond { node: u32 },
    /// Memory ran out.
    #[error("no memory")]
    NoMemory,
}

impl From<NoMemory> for UpEnd {
    ghost use Rattle.std.specs.Prelude.{◌≡◌};
    ghost use Rattle.cts_up.specs.declared.end.UpEnd.TheVariants.{NoMemory};

    ghost from_gives = { λ _ end. end ≡ NoMemory };

    fn from(_error: NoMemory) -> UpEnd {
        UpEnd::NoMemory
    }
}

impl From<AllocError> for UpEnd {
    ghost use Rattle.std.specs.Prelude.{◌≡◌};
    ghost use Rattle.cts_up.specs.declared.end.UpEnd.TheVariants.{NoMemory};

    ghost from_gives = { λ _ end. end ≡ NoMemory };

    fn from(_error: AllocError) -> UpEnd {
        UpEnd::NoMemory
    }
}

impl<T: Drop> From<AllocFailed<T>> for UpEnd {
    ghost use Rattle.std.specs.Prelude.{◌≡◌};
    ghost use Rattle.cts_up.specs.declared.end.UpEnd.TheVariants.{NoMemory};

    ghost from_gives = { λ _ end. end ≡ NoMemory };

    fn from(_error: AllocFailed<T>) -> UpEnd {
        UpEnd::NoMemory
    }
}
