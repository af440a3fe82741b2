//! Points of whole nm.

ghost use Rattle.std.specs.Prelude.{◌≡◌};

/// A point of whole nm.
#[derive(Clone, Copy)]
pub struct Whole {
    pub x: i64,
    pub y: i64,
}

/// The whole numbers from `low` to `high`.
#[derive(Clone, Copy)]
pub struct Range {
    pub low: i64,
    pub high: i64,
}

/// A vertical segment, from its lower end to its upper one.
#[derive(Clone, Copy)]
pub struct Segment {
    pub bottom: Whole,
    pub top: Whole,
    pub ghost vertical: { top.x ≡ bottom.x },
}

/// A side of a block or of the die, in x.
#[derive(Clone, Copy)]
pub enum Side {
    Left,
    Right,
}
