//! Why there is no tree.

use cts_num::NoMemory;
use std::alloc::{AllocError, AllocFailed};
use thiserror::Error;

/// Why a plan is not embedded.
#[derive(Clone, Copy, Debug, PartialEq, Eq, Error)]
pub enum EmbedEnd {
    /// The greatest number of a node that no route reaches.
    #[error("cut at node {node}")]
    Cut { node: u32 },
    /// Memory ran out.
    #[error("no memory")]
    NoMemory,
}

impl From<NoMemory> for EmbedEnd {
    ghost use Rattle.std.specs.Prelude.{◌≡◌};
    ghost use Rattle.cts_embed.specs.declared.end.EmbedEnd.TheVariants.{NoMemory};

    ghost from_gives = { λ _ end. end ≡ NoMemory };

    fn from(_error: NoMemory) -> EmbedEnd {
        EmbedEnd::NoMemory
    }
}

impl From<AllocError> for EmbedEnd {
    ghost use Rattle.std.specs.Prelude.{◌≡◌};
    ghost use Rattle.cts_embed.specs.declared.end.EmbedEnd.TheVariants.{NoMemory};

    ghost from_gives = { λ _ end. end ≡ NoMemory };

    fn from(_error: AllocError) -> EmbedEnd {
        EmbedEnd::NoMemory
    }
}

impl<T: Drop> From<AllocFailed<T>> for EmbedEnd {
    ghost use Rattle.std.specs.Prelude.{◌≡◌};
    ghost use Rattle.cts_embed.specs.declared.end.EmbedEnd.TheVariants.{NoMemory};

    ghost from_gives = { λ _ end. end ≡ NoMemory };

    fn from(_error: AllocFailed<T>) -> EmbedEnd {
        EmbedEnd::NoMemory
    }
}

/// Why a placed tree is not balanced.
#[derive(Clone, Copy, Debug, PartialEq, Eq, Error)]
pub enum BalanceEnd {
    /// The least number of a node that is over the limits of wires, loads or delays.
    #[error("beyond the limits at node {node}")]
    Beyond { node: u32 },
    /// Memory ran out.
    #[error("no memory")]
    NoMemory,
}

impl From<NoMemory> for BalanceEnd {
    ghost use Rattle.std.specs.Prelude.{◌≡◌};
    ghost use Rattle.cts_embed.specs.declared.end.BalanceEnd.TheVariants.{NoMemory};

    ghost from_gives = { λ _ end. end ≡ NoMemory };

    fn from(_error: NoMemory) -> BalanceEnd {
        BalanceEnd::NoMemory
    }
}

impl From<AllocError> for BalanceEnd {
    ghost use Rattle.std.specs.Prelude.{◌≡◌};
    ghost use Rattle.cts_embed.specs.declared.end.BalanceEnd.TheVariants.{NoMemory};

    ghost from_gives = { λ _ end. end ≡ NoMemory };

    fn from(_error: AllocError) -> BalanceEnd {
        BalanceEnd::NoMemory
    }
}

impl<T: Drop> From<AllocFailed<T>> for BalanceEnd {
    ghost use Rattle.std.specs.Prelude.{◌≡◌};
    ghost use Rattle.cts_embed.specs.declared.end.BalanceEnd.TheVariants.{NoMemory};

    ghost from_gives = { λ _ end. end ≡ NoMemory };

    fn from(_error: AllocFailed<T>) -> BalanceEnd {
        BalanceEnd::NoMemory
    }
}
