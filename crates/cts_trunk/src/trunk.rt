//! The trunk of a tree with repeaters. Lengths are in nm, loads in zF, and delays and stages doubled, in 10^-27 s.

ghost use Rattle.std.specs.Prelude.{◌≡◌};

use cts_geom::Spot;
use cts_list::Items;
use cts_num::NoMemory;
use std::alloc::{AllocError, AllocFailed};
use thiserror::Error;

/// A repeater on the trunk.
#[derive(Clone, Copy, Debug, PartialEq, Eq)]
pub struct Repeater {
    pub place: Spot,
    /// The length of the wire from the source to it.
    pub length: u64,
    /// The load that it drives.
    pub load: u64,
    /// The delay from the source to its input.
    pub delay: u128,
    /// The delay of the stage that ends at its input.
    pub stage: u128,
}

/// Repeaters, from the source to the root.
pub type Repeaters = Items<Repeater>;

/// The trunk of a tree with repeaters, and what they make of the whole tree.
#[derive(Drop)]
pub struct Trunk {
    pub repeaters: Repeaters,
    /// The load that the source drives.
    pub source_load: u64,
    /// The delay from the source to the tree's root.
    pub root_delay: u128,
    /// The delay of the stage that ends at the root.
    pub root_stage: u128,
    /// The greatest delay of a leaf.
    pub greatest: u128,
    /// The least delay of a leaf.
    pub least: u128,
    /// The greatest arrival of a leaf less the least, which is the tree's own.
    pub skew: u128,
    /// Whether neither the source, nor a repeater, nor a buffer of the tree drives more than the load limit.
    pub load_met: bool,
    /// Whether no repeater, no leaf and no buffer of the tree has a slew above the slew limit.
    pub slew_met: bool,
}

/// Why a tree has no trunk with repeaters.
#[derive(Clone, Copy, Debug, PartialEq, Eq, Error)]
pub enum TrunkEnd {
    /// The library has no buffer of this index.
    #[error("buffer")]
    Buffer,
    /// There would be more than 65,536 repeaters.
    #[error("many")]
    Many,
    /// A sum of delays is over the limit.
    #[error("beyond")]
    Beyond,
    /// Memory ran out.
    #[error("no memory")]
    NoMemory,
}

impl From<NoMemory> for TrunkEnd {
    ghost use Rattle.cts_trunk.specs.declared.trunk.TrunkEnd.TheVariants.{NoMemory};

    ghost from_gives = { λ _ end. end ≡ NoMemory };

    fn from(_error: NoMemory) -> TrunkEnd {
        TrunkEnd::NoMemory
    }
}

impl From<AllocError> for TrunkEnd {
    ghost use Rattle.cts_trunk.specs.declared.trunk.TrunkEnd.TheVariants.{NoMemory};

    ghost from_gives = { λ _ end. end ≡ NoMemory };

    fn from(_error: AllocError) -> TrunkEnd {
        TrunkEnd::NoMemory
    }
}

impl<T: Drop> From<AllocFailed<T>> for TrunkEnd {
    ghost use Rattle.cts_trunk.specs.declared.trunk.TrunkEnd.TheVariants.{NoMemory};

    ghost from_gives = { λ _ end. end ≡ NoMemory };

    fn from(_error: AllocFailed<T>) -> TrunkEnd {
        TrunkEnd::NoMemory
    }
}
