//! Rectangles that keep wires out.

ghost use Rattle.std.specs.Prelude.{pos, ◌+ℤ◌, ◌<ℤ◌};

/// A block that stops wires and has an inside, in half nm. Its edges are free.
#[derive(Clone, Copy)]
pub struct Wall {
    pub x1: i64,
    pub y1: i64,
    pub x2: i64,
    pub y2: i64,
    ghost wide: { (x1 +ℤ pos 1) <ℤ x2 },
    ghost tall: { (y1 +ℤ pos 1) <ℤ y2 },
}
