//! What a subtree is known by.

use cts_merge::Finished;
use cts_units::Sink;

/// What a subtree is known by: a leaf by its sink's place, capacitance and wanted offset, a pair by the
/// numbers of its two parts.
#[derive(Clone, Copy, Debug, PartialEq, Eq, Hash)]
pub enum Key {
    /// A sink's place in nm, its capacitance in zF and its wanted offset in 10^-27 s, not doubled.
    Leaf {
        x: i64,
        y: i64,
        cap: u64,
        offset: u64,
    },
    /// The numbers of a pair's left and right part.
    Pair {
        left: u32,
        right: u32,
    },
}

impl Key {
    ghost use Rattle.std.specs.Prelude.{◌≡◌};
    ghost use Rattle.cts_merge.specs.Merge.{IsLeaf};
    ghost use Rattle.cts_units.specs.declared.params.Sink.{Sink};
    ghost use Rattle.cts_memo.specs.Keys.{IsNarrow, leaf_key, pair_key};

    /// The key of a sink's leaf.
    pub fn of_sink(sink: &Sink) -> Key
        ensures { result ≡ leaf_key sink.now }
    {
        Key::Leaf {
            x: sink.x,
            y: sink.y,
            cap: sink.cap,
            offset: sink.offset,
        }
    }

    /// The key of the leaf that a finished node is: the place of its sink is the point of its region.
    #[inline]
    pub fn of_leaf(leaf: &Finished) -> Key
        requires narrow { IsNarrow leaf.now.side }
        ensures { (sink : Sink) → IsLeaf sink leaf.now → result ≡ leaf_key sink }
    {
        let side = &leaf.side;
        let (u, v) = (side.region.u1, side.region.v1);
        Key::Leaf {
            x: (u + v) / 2,
            y: (u - v) / 2,
            cap: side.load,
            offset: (side.greatest / 2) as u64,
        }
    }

    /// The key of a pair whose two parts have these numbers, or `None` where one has none.
    #[inline]
    pub fn of_pair(left: Option<u32>, right: Option<u32>) -> Option<Key>
        ensures { result ≡ pair_key left right }
    {
        Some(Key::Pair {
            left: left?,
            right: right?,
        })
    }
}
