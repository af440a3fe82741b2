//! The parts of an instance, valid or not.

use crate::version::Version;
use cts_block::Block;
use cts_geom::Die;
use cts_list::Items;
use cts_units::{Params, Sink};

/// The sinks of an instance, in their order.
pub type Sinks = Items<Sink>;

/// The blocks of an instance, in their order.
pub type Blocks = Items<Block>;

/// The parts of an instance. Any values make `Parts`; `check_instance` says whether they are valid.
#[derive(Drop)]
pub struct Parts {
    /// The version of the instance, which says whether sinks may want offsets.
    pub version: Version,
    /// The outline of the chip.
    pub die: Die,
    /// The place of the clock source, in nm.
    pub source_x: i64,
    /// The place of the clock source, in nm.
    pub source_y: i64,
    /// The output resistance of the clock source, in µΩ.
    pub source_r: u64,
    /// The wire, the buffers and the insertion threshold.
    pub params: Params,
    /// The limit on the load at one point, in zF.
    pub load_limit: u64,
    /// The limit on the slew at one point, in 10^-27 s, not doubled.
    pub slew_limit: u64,
    /// The clock pins to reach.
    pub sinks: Sinks,
    /// The blocked rectangles.
    pub blocks: Blocks,
}
