//! How many blocks of each kind there are.

use cts_block::Kind;

/// How many blocks of each kind there are.
#[derive(Clone, Copy)]
pub struct BlockCounts {
    /// Blocks of kind `Buffer`.
    pub buffer: u32,
    /// Blocks of kind `All`.
    pub all: u32,
}

impl BlockCounts {
    ghost use Rattle.std.specs.Prelude.{◌≡◌, ◌+◌, ◌-◌, ◌^◌, ◌<◌, []};
    ghost use Rattle.cts_instance.specs.FirstFault.{counts_of, counts_with};

    /// The counts where there is no block.
    #[tactic(auto, unfolding(crate::specs::FirstFault::counts_of))]
    pub fn none() -> BlockCounts
        ensures { result ≡ counts_of [] }
    {
        BlockCounts { buffer: 0, all: 0 }
    }

    /// The counts after one more block of this kind.
    #[tactic(auto, unfolding(crate::specs::FirstFault::counts_with))]
    pub fn with(self, kind: Kind) -> BlockCounts
        requires { self.buffer + self.all < 2 ^ 32 - 1 }
        ensures { result ≡ counts_with self kind }
    {
        match kind {
            Kind::Buffer => BlockCounts {
                buffer: self.buffer + 1,
                all: self.all,
            },
            Kind::All => BlockCounts {
                buffer: self.buffer,
                all: self.all + 1,
            },
        }
    }
}
