//! The outline of the chip.

/// The outline of the chip, in nm: the closed rectangle from (x1, y1) to (x2, y2).
///
/// Any four numbers make a `Die`. A call that needs x1 ≤ x2 and y1 ≤ y2 says so.
#[derive(Clone, Copy)]
pub struct Die {
    pub x1: i64,
    pub y1: i64,
    pub x2: i64,
    pub y2: i64,
}
