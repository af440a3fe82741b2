//! The measures of a picture.

ghost use Rattle.std.specs.Prelude.{◌≡◌, ◌*◌, ◌≤◌, ◌^◌, pos, ◌*ℤ◌, ◌≤ℤ◌};
ghost use Rattle.cts_instance.specs.Validity.{IsDie};
ghost use Rattle.cts_picture.specs.Frame.{IsFrame, bar_of, drawn, frame_of, height, height_on_page, longer, margin, width, wires_across};

use cts_geom::Die;

/// The measures of a picture, in 10^-4 µm.
#[derive(Clone, Copy, Debug, PartialEq, Eq)]
pub struct Frame {
    /// The corners of the die, lower left and upper right.
    pub x1: u64,
    pub y1: u64,
    pub x2: u64,
    pub y2: u64,
    /// How wide the outline of the die is drawn.
    pub line: u64,
    /// How wide the thinnest wire is drawn.
    pub stroke: u64,
    /// How long the scale bar is.
    pub bar: u64,
}

/// A coordinate in nm, which is not below 0, in 10^-4 µm.
pub fn drawn(x: i64) -> u64
    requires low { pos 0 ≤ℤ x }
    requires high { x ≤ℤ pos (10 ^ 8) }
    ensures same { result ≡ drawn x }

    // The same as numbers.
    ensures number { pos result ≡ pos 10 *ℤ x }
    ensures bound { result ≤ 10 ^ 9 }
{
    10 * x.unsigned_abs()
}

/// How many of the thinnest wires side by side are as wide as the die's longer side is long.
fn wires_across(sinks: usize) -> u64
    ensures { result ≡ wires_across sinks }
{
    if sinks <= 64 {
        600
    } else if sinks <= 2_048 {
        1_200
    } else {
        3_000
    }
}

/// A bar that is ten times as long, where the longer side is twice that at least.
fn longer(bar: u64, side: u64) -> u64
    requires bar { bar ≤ 10 ^ 9 }
    requires side { side ≤ 10 ^ 9 }
    ensures same { result ≡ longer bar side }
    ensures high { result ≤ 10 ^ 9 }
{
    if 20 * bar <= side { 10 * bar } else { bar }
}

/// The length of the scale bar for a die of this longer side.
fn bar_of(side: u64) -> u64
    requires { side ≤ 10 ^ 9 }
    ensures same { result ≡ bar_of side }
    ensures high { result ≤ 10 ^ 10 }
{
    let mut bar = 10;
    for _times in 0..8u64 {
        bar = longer(bar, side);
    }
    bar
}

/// The measures of the picture of a die with so many sinks.
pub fn frame_of(die: Die, sinks: usize) -> Frame
    requires { IsDie die }
    ensures same { result ≡ frame_of die sinks }
    ensures frame { IsFrame result }
{
    let x1 = drawn(die.x1);
    let y1 = drawn(die.y1);
    let x2 = drawn(die.x2);
    let y2 = drawn(die.y2);
    let side = (x2 - x1).max(y2 - y1);
    Frame {
        x1,
        y1,
        x2,
        y2,
        line: side / 500 + 1,
        stroke: side / wires_across(sinks) + 1,
        bar: bar_of(side),
    }
}

impl Frame {
    /// The free space around the die, on each side.
    pub fn margin(&self) -> u64
        requires { IsFrame self.now }
        ensures { result ≡ margin self.now }
    {
        25 * self.line
    }

    /// The width of what is drawn, with its margins.
    pub fn width(&self) -> u64
        requires { IsFrame self.now }
        ensures { result ≡ width self.now }
    {
        (self.x2 - self.x1) + 2 * self.margin()
    }

    /// The height of what is drawn, with its margins.
    pub fn height(&self) -> u64
        requires { IsFrame self.now }
        ensures { result ≡ height self.now }
    {
        (self.y2 - self.y1) + 2 * self.margin()
    }

    /// The height of what is drawn on the page, which has a width of 1000.
    pub fn height_on_page(&self) -> u64
        requires { IsFrame self.now }
        ensures same { result ≡ height_on_page self.now }
        ensures high { result ≤ 1000 }
    {
        (1_000 * self.height() / self.width() + 1).min(1_000)
    }
}
