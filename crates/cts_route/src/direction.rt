//! The four directions of a grid.

/// The direction of a step on the grid. A route prefers them in this order.
#[derive(Clone, Copy, Debug, PartialEq, Eq)]
pub enum Direction {
    /// To greater x.
    East,
    /// To lesser x.
    West,
    /// To greater y.
    North,
    /// To lesser y.
    South,
}

/// All directions, in the order in which a route prefers them.
pub const DIRECTIONS: [Direction; 4] = [
    Direction::East,
    Direction::West,
    Direction::North,
    Direction::South,
];
