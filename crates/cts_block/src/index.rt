//! Blocks with a raster and with their exposed edges.

use crate::edge::Edge;
use crate::raster::Raster;
use cts_list::Items;

/// Blocks in a raster, and their exposed edges on both sides.
#[derive(Drop)]
pub struct Index {
    pub raster: Raster,
    pub lefts: Items<Edge>,
    pub rights: Items<Edge>,
}
