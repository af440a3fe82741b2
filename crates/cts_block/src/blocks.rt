//! Blocks and their kinds.

ghost use Rattle.std.specs.Prelude.{◌≡◌};
ghost use Rattle.cts_block.specs.FreePoints.{stops_wires};

/// What a block keeps out.
#[derive(Clone, Copy, PartialEq, Eq, Debug)]
pub enum Kind {
    /// Buffers alone.
    Buffer,
    /// Buffers and wires.
    All,
}

impl Kind {
    /// Whether a block of this kind keeps wires out of its inside, and not buffers alone.
    pub fn stops_wires(self) -> bool
        ensures { result ≡ stops_wires self }
    {
        match self {
            Kind::Buffer => false,
            Kind::All => true,
        }
    }
}

/// A blocked rectangle from (x1, y1) to (x2, y2), in nm.
///
/// It is open: its edges are free, and a block of no width or no height blocks nothing.
#[derive(Clone, Copy)]
pub struct Block {
    pub kind: Kind,
    pub x1: i64,
    pub y1: i64,
    pub x2: i64,
    pub y2: i64,
}
