//! What is prepared once for an instance.

use cts_block::FreeMap;
use cts_route::Grid;

/// The free points of an instance, and its routes.
#[derive(Drop)]
pub struct Ground {
    pub(crate) free: FreeMap,
    pub(crate) grid: Grid,
}
