//! The steps between the points of a window, by number: column after column, each from low y to high.

ghost use Rattle.std.specs.Prelude.{◌≡◌, ◌^◌, ◌<◌, ◌≤◌, length, vec_len, IfSome, IfNone};
ghost use Rattle.cts_route.specs.Search.{IsStep, HasNoStep, IsGraph};

use crate::direction::Direction;

/// The lengths of the steps between neighbouring points, in half nm.
#[derive(Drop)]
pub struct Graph {
    /// For each point the length of the step to the next greater x, or 0 where there is none.
    pub east: Vec<u64>,
    /// For each point the length of the step to the next greater y, or 0 where there is none.
    pub north: Vec<u64>,
    /// The number of points in a column.
    pub height: usize,
}

/// A step to a point.
#[derive(Clone, Copy)]
pub struct Step {
    pub to: usize,
    pub len: u64,
}

/// The step of this length, if it has one.
fn step_of(to: usize, len: u64) -> Option<Step>
    ensures some { IfSome result (λ step. (step ≡ record { to = to; len = len }) × (0 < len)) }
    ensures none { IfNone result (len ≡ 0) }
{
    if len == 0 {
        return None;
    }
    Some(Step { to, len })
}

impl Graph {
    /// The step from a point in a direction.
    pub fn step(&self, from: usize, direction: Direction) -> Option<Step>
        requires graph { IsGraph self.now }
        requires from { from < vec_len self.now.east }
        ensures some { IfSome result (λ step. IsStep self.now direction from step.to step.len) }
        ensures inside { IfSome result (λ step. step.to < vec_len self.now.east) }
        ensures short { IfSome result (λ step. step.len ≤ 2 ^ 43) }
        ensures none { IfNone result (HasNoStep self.now direction from) }
    {
        match direction {
            Direction::East => step_of(from + self.height, self.east[from]),
            Direction::West => {
                let to = from.checked_sub(self.height)?;
                step_of(to, self.east[to])
            }
            Direction::North => step_of(from + 1, self.north[from]),
            Direction::South => {
                let to = from.checked_sub(1)?;
                step_of(to, self.north[to])
            }
        }
    }
}
