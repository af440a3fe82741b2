//! The frame of a window, and how it grows.

ghost use Rattle.std.specs.Prelude.{◌↔◌, ◌^◌, pos, neg_ℤ, ◌≤ℤ◌, IsTrue};
ghost use Rattle.std.specs.Bool.{OnTrue};
ghost use Rattle.cts_geom.specs.Points.{IsSpotInRange};
ghost use Rattle.cts_route.specs.WindowOf.{IsNearFrame, IsFrameOf, EndsAt, IsWhole, IsWider, AreNone};

use crate::clear::span;
use crate::direction::Direction;
use cts_geom::{Half, Spot, halves};

/// No line is further than this from 0, in half nm.
const FAR: i64 = 1 << 41;

/// A rectangle whose sides run along the axes.
#[derive(Clone, Copy)]
pub struct Frame {
    pub low: Half,
    pub high: Half,
}

/// Some sides of a frame.
#[derive(Clone, Copy)]
pub struct Sides {
    pub east: bool,
    pub west: bool,
    pub north: bool,
    pub south: bool,
}

impl Sides {
    /// Whether no side is among them.
    pub fn are_none(&self) -> bool
        ensures { OnTrue result (AreNone self.now) }
    {
        !(self.east || self.west || self.north || self.south)
    }
}

/// A bound below, moved down where it is open: to the next line but for so many, or to the least
/// possible one where fewer are there.
fn moved_down(lines: &[i64], bound: i64, open: bool, skipped: usize) -> i64
    requires { neg_ℤ (pos (2 ^ 41)) ≤ℤ bound }
    ensures near { neg_ℤ (pos (2 ^ 41)) ≤ℤ result }
    ensures below { result ≤ℤ bound }
{
    if !open {
        return bound;
    }
    let mut below = 0;
    for line in lines {
        if *line < bound {
            below += 1;
        }
    }
    if below <= skipped {
        return -FAR;
    }
    lines[below - skipped - 1].max(-FAR).min(bound)
}

/// A bound above, moved up where it is open: to the next line but for so many, or to the greatest
/// possible one where fewer are there.
fn moved_up(lines: &[i64], bound: i64, open: bool, skipped: usize) -> i64
    requires { bound ≤ℤ pos (2 ^ 41) }
    ensures near { result ≤ℤ pos (2 ^ 41) }
    ensures above { bound ≤ℤ result }
{
    if !open {
        return bound;
    }
    let mut above = 0;
    for line in lines {
        if bound < *line {
            above += 1;
        }
    }
    if above <= skipped {
        return FAR;
    }
    lines[lines.len() - above + skipped].min(FAR).max(bound)
}

impl Frame {
    /// The least frame round two points.
    pub fn around(from: Spot, to: Spot) -> Frame
        requires from { IsSpotInRange from }
        requires to { IsSpotInRange to }
        ensures { IsFrameOf from to result }
    {
        let (low, high) = span(halves(from), halves(to));
        Frame { low, high }
    }

    /// The frame of all lines.
    pub fn whole() -> Frame
        ensures { IsWhole result }
    {
        Frame {
            low: Half { x: -FAR, y: -FAR },
            high: Half { x: FAR, y: FAR },
        }
    }

    /// Whether no line can be past the frame on this side.
    pub fn ends_at(&self, direction: Direction) -> bool
        ensures { OnTrue result (EndsAt self.now direction) }
    {
        match direction {
            Direction::East => self.high.x == FAR,
            Direction::West => self.low.x == -FAR,
            Direction::North => self.high.y == FAR,
            Direction::South => self.low.y == -FAR,
        }
    }

    /// The frame with more lines on these sides: the next one but for so many.
    pub fn widened(&self, xs: &[i64], ys: &[i64], sides: Sides, skipped: usize) -> Frame
        requires { IsNearFrame self.now }
        ensures { IsWider self.now result }
    {
        Frame {
            low: Half {
                x: moved_down(xs, self.low.x, sides.west, skipped),
                y: moved_down(ys, self.low.y, sides.south, skipped),
            },
            high: Half {
                x: moved_up(xs, self.high.x, sides.east, skipped),
                y: moved_up(ys, self.high.y, sides.north, skipped),
            },
        }
    }
}
