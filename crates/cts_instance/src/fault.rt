//! What can be wrong with the parts of an instance, and where.

use cts_num::NoMemory;
use thiserror::Error;

/// The part of an instance, or of a script of edits, that a fault is about. Lists are counted from 0.
#[derive(Clone, Copy, Debug)]
pub enum Item {
    Die,
    Source,
    Wire,
    Limits,
    Buffers,
    Buffer(u32),
    Sinks,
    Sink(u32),
    Blocks,
    Block(u32),
    Callers,
    Step(u32),
}

/// What is wrong with the parts of an instance.
#[derive(Clone, Copy, Debug, Error)]
pub enum Fault {
    /// There are no sinks.
    #[error("no sink")]
    NoSink,
    /// An earlier sink has the same id.
    #[error("sink {id} twice")]
    TwiceSink { id: u32 },
    /// A source, a sink or a block that isn't wholly in the closed die.
    #[error("outside the die: {item:?}")]
    Outside { item: Item },
    /// A block of kind `All` with the source or a sink strictly inside.
    #[error("source or sink in block: {item:?}")]
    InBlock { item: Item },
    /// A number is beyond its limits, or two corners are in the wrong order.
    #[error("out of range: {item:?}")]
    Range { item: Item },
    /// There are more of these than an instance may have.
    #[error("too many: {item:?}")]
    TooMany { item: Item },
}

/// Why the parts of an instance were refused.
#[derive(Clone, Copy, Debug, Error)]
pub enum CheckEnd {
    /// The first fault of the parts.
    #[error(transparent)]
    Fault(Fault),
    /// Memory ran out.
    #[error("no memory")]
    NoMemory,
}

impl From<NoMemory> for CheckEnd {
    ghost use Rattle.std.specs.Prelude.{◌≡◌};
    ghost use Rattle.cts_instance.specs.declared.fault.CheckEnd.TheVariants.{NoMemory};

    ghost from_gives = { λ _ end. end ≡ NoMemory };

    fn from(_error: NoMemory) -> CheckEnd {
        CheckEnd::NoMemory
    }
}
