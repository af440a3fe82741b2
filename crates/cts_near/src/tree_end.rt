//! Why an instance has no tree over its nearest-pair topology.

ghost use Rattle.std.specs.Prelude.{◌≡◌};
ghost use Rattle.cts_near.specs.TreeEnds.{of_shape};
ghost use Rattle.cts_near.specs.declared.tree_end.NoNearTree.TheVariants.{Over};

use crate::end::NearEnd;
use cts_plain::NoTree;
use thiserror::Error;

/// Why an instance has no tree over its nearest-pair topology.
#[derive(Clone, Copy, Debug, Error)]
pub enum NoNearTree {
    /// There are more than 2,048 sinks.
    #[error("more than 2048 sinks")]
    Many,
    /// The first step, from 1, whose pair is over the limits of wires, loads or delays.
    #[error("beyond at step {step}")]
    AtStep { step: u32 },
    /// There is a shape and no tree over it; or memory ran out.
    #[error(transparent)]
    Over(NoTree),
}

impl From<NearEnd> for NoNearTree {
    ghost from_gives = { λ was end. end ≡ of_shape was };

    fn from(end: NearEnd) -> NoNearTree {
        match end {
            NearEnd::Many => NoNearTree::Many,
            NearEnd::Beyond { step } => NoNearTree::AtStep { step },
            NearEnd::NoMemory => NoNearTree::Over(NoTree::NoMemory),
        }
    }
}

impl From<NoTree> for NoNearTree {
    ghost from_gives = { λ was end. end ≡ Over was };

    fn from(end: NoTree) -> NoNearTree {
        NoNearTree::Over(end)
    }
}
