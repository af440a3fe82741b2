//! Why there is no route.

use cts_num::NoMemory;
use std::alloc::{AllocError, AllocFailed};
use thiserror::Error;

/// Why there is no route.
#[derive(Clone, Copy, Debug, PartialEq, Eq, Error)]
pub enum RouteEnd {
    /// No path of the grid joins the two points.
    #[error("no path joins the two points")]
    Cut,
    /// Memory ran out.
    #[error("no memory")]
    NoMemory,
}

impl From<NoMemory> for RouteEnd {
    ghost use Rattle.std.specs.Prelude.{◌≡◌};
    ghost use Rattle.cts_route.specs.declared.end.RouteEnd.TheVariants.{NoMemory};

    ghost from_gives = { λ _ end. end ≡ NoMemory };

    fn from(_error: NoMemory) -> RouteEnd {
        RouteEnd::NoMemory
    }
}

impl From<AllocError> for RouteEnd {
    ghost use Rattle.std.specs.Prelude.{◌≡◌};
    ghost use Rattle.cts_route.specs.declared.end.RouteEnd.TheVariants.{NoMemory};

    ghost from_gives = { λ _ end. end ≡ NoMemory };

    fn from(_error: AllocError) -> RouteEnd {
        RouteEnd::NoMemory
    }
}

impl<T: Drop> From<AllocFailed<T>> for RouteEnd {
    ghost use Rattle.std.specs.Prelude.{◌≡◌};
    ghost use Rattle.cts_route.specs.declared.end.RouteEnd.TheVariants.{NoMemory};

    ghost from_gives = { λ _ end. end ≡ NoMemory };

    fn from(_error: AllocFailed<T>) -> RouteEnd {
        RouteEnd::NoMemory
    }
}
