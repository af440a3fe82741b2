//! What a clock instance says of sinks, wires and buffers.

ghost use Rattle.std.specs.Prelude.{◌≡◌, IfOk};

use cts_list::Items;
use cts_num::NoMemory;
use std::alloc::Global;

/// A sink: a clock pin that the tree must reach.
#[derive(Clone, Copy)]
pub struct Sink {
    /// Its number in the instance, at most 999,999,999.
    pub id: u32,
    /// Its place in nm, from 0 to 10^8.
    pub x: i64,
    /// Its place in nm, from 0 to 10^8.
    pub y: i64,
    /// Its input capacitance in zF, at most 10^12.
    pub cap: u64,
    /// How much earlier than the others its edge is wanted, in 10^-27 s, not doubled, below 10^18. Delay and offset
    /// together are what the tree balances (useful skew).
    pub offset: u64,
}

/// The wire of every edge of the tree.
#[derive(Clone, Copy)]
pub struct Wire {
    /// Resistance in µΩ per nm, from 1 to 10^6.
    pub r: u64,
    /// Capacitance in zF per nm, from 1 to 10^6.
    pub c: u64,
}

/// A buffer of the library, linear in its load.
#[derive(Clone, Copy)]
pub struct Buffer {
    /// Input capacitance in zF, at most 10^12.
    pub cin: u64,
    /// Output resistance in µΩ, below 10^18.
    pub rout: u64,
    /// Intrinsic delay in 10^-27 s, not doubled, below 10^18.
    pub intrinsic: u64,
}

/// The buffers that a tree may use, named by their index from 0.
pub type Library = Items<Buffer>;

/// The electrical parameters of an instance.
#[derive(Drop)]
pub struct Params {
    /// The wire of every edge.
    pub wire: Wire,
    /// The buffers that may be placed.
    pub library: Library,
    /// The insertion threshold in zF, below 10^18: a pair whose load is above it takes a buffer.
    pub insert_at: u64,
}

impl Params {
    /// The same parameters again. Answers NoMemory where an allocation fails.
    pub fn try_clone(&self, alloc: Global) -> Result<Params, NoMemory>
        ensures { IfOk result (λ copy. copy ≡ self.now) }
    {
        Ok(Params {
            wire: self.wire,
            library: Library::of(self.library.items().to_vec(alloc)?),
            insert_at: self.insert_at,
        })
    }
}
