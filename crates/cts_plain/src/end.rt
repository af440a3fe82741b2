//! Why an instance has no tree.

ghost use Rattle.std.specs.Prelude.{◌≡◌};
ghost use Rattle.cts_plain.specs.EndsOf.{of_plan, of_places, of_balance};

use cts_embed::{BalanceEnd, EmbedEnd};
use cts_num::NoMemory;
use cts_up::UpEnd;
use thiserror::Error;

/// Why an instance has no tree.
#[derive(Clone, Copy, Debug, Error)]
pub enum NoTree {
    /// The number of a node that is over the limits of wires, loads or delays.
    #[error("beyond at node {node}")]
    Beyond { node: u32 },
    /// The greatest number of a node that no route reaches.
    #[error("cut at node {node}")]
    Cut { node: u32 },
    /// Memory ran out.
    #[error("no memory")]
    NoMemory,
}

impl From<NoMemory> for NoTree {
    ghost use Rattle.cts_plain.specs.declared.end.NoTree.TheVariants.{NoMemory};

    ghost from_gives = { λ _ end. end ≡ NoMemory };

    fn from(_error: NoMemory) -> NoTree {
        NoTree::NoMemory
    }
}

impl From<UpEnd> for NoTree {
    ghost from_gives = { λ was end. end ≡ of_plan was };

    fn from(end: UpEnd) -> NoTree {
        match end {
            UpEnd::Beyond { node } => NoTree::Beyond { node },
            UpEnd::NoMemory => NoTree::NoMemory,
        }
    }
}

impl From<EmbedEnd> for NoTree {
    ghost from_gives = { λ was end. end ≡ of_places was };

    fn from(end: EmbedEnd) -> NoTree {
        match end {
            EmbedEnd::Cut { node } => NoTree::Cut { node },
            EmbedEnd::NoMemory => NoTree::NoMemory,
        }
    }
}

impl From<BalanceEnd> for NoTree {
    ghost from_gives = { λ was end. end ≡ of_balance was };

    fn from(end: BalanceEnd) -> NoTree {
        match end {
            BalanceEnd::Beyond { node } => NoTree::Beyond { node },
            BalanceEnd::NoMemory => NoTree::NoMemory,
        }
    }
}
