//! What is prepared once for a die with blocks, and the routes on it.

ghost use Rattle.std.specs.Prelude.{◌≡◌, ◌≤◌, List, length, Contains, IfOk, IsErr, IfSome};
ghost use Rattle.cts_geom.specs.declared.bounds.Die.{Die};
ghost use Rattle.cts_geom.specs.Points.{IsSpotInRange, point_of};
ghost use Rattle.cts_block.specs.declared.blocks.Block.{Block};
ghost use Rattle.cts_route.specs.Grids.{IsGrid, IsGridOf, IsRouteOn, IsCutOn};
ghost use Rattle.cts_route.specs.Laws.{RunsAlongXFirst};
ghost use Rattle.cts_block.specs.NearestFree.{IsDieInRange};
ghost use Rattle.cts_route.specs.Limits.{AreBlocksInRange};
ghost use Rattle.cts_route.specs.LineLists.{IsNumberOf};
ghost use Rattle.cts_route.specs.Routes.{IsRoute, IsCut};
ghost use Rattle.cts_route.specs.WindowOf.{IsFrameOf, IsWindowOf, IsView};
ghost use Rattle.cts_route.specs.Windows.{Stands};

use crate::clear::{is_clear, walls_of};
use crate::end::RouteEnd;
use crate::frame::Frame;
use crate::lines::{fixed_xs, fixed_ys, lines_between};
use crate::table::Table;
use crate::view::{View, Window};
use crate::wall::Wall;
use crate::window::graph_of;
use cts_block::Block;
use cts_geom::{Die, Half, Spot, distance, halves};
use cts_num::NoMemory;
use cts_tree::{Corners, Route};
use std::alloc::{AllocError, Global};

/// How many lines a side of a window passes over where it moves out, from one window to the next.
const SKIPPED: [usize; 5] = [3, 9, 27, 81, 130];

/// What the routes among the blocks of a die share: the walls, and the lines that every grid has.
#[derive(Drop)]
pub struct Grid {
    walls: Vec<Wall>,
    xs: Vec<i64>,
    ys: Vec<i64>,
}

/// The number of a line.
fn number_of(lines: &[i64], line: i64) -> usize
    requires { Contains lines.now line }
    ensures { IsNumberOf lines.now line result }
{
    for (number, other) in lines.iter().enumerate() {
        if *other == line {
            return number;
        }
    }
    lines.len()
}

/// The number of a point.
fn cell_of(xs: &[i64], ys: &[i64], point: Half) -> usize
    requires few_x { length xs.now ≤ 132 }
    requires few_y { length ys.now ≤ 132 }
    requires x { Contains xs.now point.x }
    requires y { Contains ys.now point.y }
    ensures { Stands xs.now ys.now point result }
{
    number_of(xs, point.x) * ys.len() + number_of(ys, point.y)
}

/// The route along x first and then along y.
fn along_x_first(from: Spot, to: Spot) -> Route
    requires from { IsSpotInRange from }
    requires to { IsSpotInRange to }
    ensures { RunsAlongXFirst (point_of from) (point_of to) result }
{
    let (start, goal) = (halves(from), halves(to));
    let length = distance(from, to);
    if start.x == goal.x || start.y == goal.y {
        return Route {
            corners: Corners::none(),
            length,
        };
    }
    let bend = Half {
        x: goal.x,
        y: start.y,
    };
    Route {
        corners: Corners::one(bend),
        length,
    }
}

impl Grid {
    /// Prepares the routes among these blocks. Takes at most 64 blocks of kind `All`, a die with x1 ≤ x2
    /// and y1 ≤ y2, and coordinates of at most 2^40 nm in size.
    ///
    /// Answers `NoMemory` where an allocation fails.
    pub fn of(alloc: Global, blocks: &[Block], die: &Die) -> Result<Grid, NoMemory>
        requires blocks { AreBlocksInRange blocks.now }
        requires die { IsDieInRange die.now }
        ensures grid { IfOk result IsGrid }
        ensures prepared { IfOk result (IsGridOf blocks.now die.now) }
    {
        Ok(Grid {
            walls: walls_of(alloc, blocks)?,
            xs: fixed_xs(alloc, blocks, die)?,
            ys: fixed_ys(alloc, blocks, die)?,
        })
    }

    /// The part of the grid of two points that lies in a frame.
    fn window(
        &self,
        alloc: Global,
        from: Spot,
        to: Spot,
        frame: &Frame,
    ) -> Result<Window, AllocError>
        requires grid { IsGrid self.now }
        requires from { IsSpotInRange from }
        requires to { IsSpotInRange to }
        requires frame { IsFrameOf from to frame.now }
        ensures { IfOk result (IsWindowOf self.now from to frame.now) }
    {
        let (start, goal) = (halves(from), halves(to));
        let (low, high) = (frame.low, frame.high);
        let xs = lines_between(
            alloc,
            self.xs.as_slice(),
            (start.x, goal.x),
            (low.x, high.x),
        )?;
        let ys = lines_between(
            alloc,
            self.ys.as_slice(),
            (start.y, goal.y),
            (low.y, high.y),
        )?;
        let graph = graph_of(alloc, self.walls.as_slice(), xs.as_slice(), ys.as_slice())?;
        Ok(Window { xs, ys, graph })
    }

    /// The search between two points in a frame.
    fn view(&self, alloc: Global, from: Spot, to: Spot, frame: &Frame) -> Result<View, AllocError>
        requires grid { IsGrid self.now }
        requires from { IsSpotInRange from }
        requires to { IsSpotInRange to }
        requires frame { IsFrameOf from to frame.now }
        ensures { IfOk result (IsView self.now from to frame.now) }
    {
        let window = self.window(alloc, from, to, frame)?;
        let (xs, ys) = (window.xs.as_slice(), window.ys.as_slice());
        let start = cell_of(xs, ys, halves(from));
        let goal = cell_of(xs, ys, halves(to));
        let table = Table::find(alloc, &window.graph, start, goal)?;
        Ok(View {
            window,
            table,
            start,
        })
    }

    /// The route by a search in a frame, if no shorter path leaves it, and else a wider frame.
    fn search_in(
        &self,
        alloc: Global,
        from: Spot,
        to: Spot,
        frame: &mut Frame,
        skipped: usize,
    ) -> Result<Option<Route>, RouteEnd>
        requires grid { IsGrid self.now }
        requires from { IsSpotInRange from }
        requires to { IsSpotInRange to }
        requires frame { IsFrameOf from to frame.old }
        ensures frame { IsFrameOf from to frame.new }
        ensures route { IfOk result (λ found. IfSome found (IsRouteOn self.now from to)) }
        ensures cut { result ≡ Err RouteEnd.Cut → IsCutOn self.now from to }
    {
        let view = self.view(alloc, from, to, frame)?;
        let open = view.open_sides(frame);
        if open.are_none() {
            return Ok(Some(view.route(alloc)?));
        }
        *frame = frame.widened(self.xs.as_slice(), self.ys.as_slice(), open, skipped);
        Ok(None)
    }

    /// The route by a search over the whole grid.
    fn search_all(&self, alloc: Global, from: Spot, to: Spot) -> Result<Route, RouteEnd>
        requires grid { IsGrid self.now }
        requires from { IsSpotInRange from }
        requires to { IsSpotInRange to }
        ensures route { IfOk result (IsRouteOn self.now from to) }
        ensures cut { result ≡ Err RouteEnd.Cut → IsCutOn self.now from to }
    {
        let view = self.view(alloc, from, to, &Frame::whole())?;
        view.route(alloc)
    }

    /// The route by searches in windows, each wider than the one before where a path through its edge
    /// might be shorter.
    fn search(&self, alloc: Global, from: Spot, to: Spot) -> Result<Route, RouteEnd>
        requires grid { IsGrid self.now }
        requires from { IsSpotInRange from }
        requires to { IsSpotInRange to }
        ensures route { IfOk result (IsRouteOn self.now from to) }
        ensures cut { result ≡ Err RouteEnd.Cut → IsCutOn self.now from to }
    {
        let mut frame = Frame::around(from, to);
        'windows: for skipped in SKIPPED {
            if let Some(route) = self.search_in(alloc, from, to, &mut frame, skipped)? {
                return Ok(route);
            }
        }
        self.search_all(alloc, from, to)
    }

    /// The route between two points among the blocks of this grid, as [`route`] tells it.
    ///
    /// It runs along x first and then along y where this way is clear, and else a search finds it.
    pub fn route(&self, alloc: Global, from: Spot, to: Spot) -> Result<Route, RouteEnd>
        requires grid { IsGrid self.now }
        requires from { IsSpotInRange from }
        requires to { IsSpotInRange to }
        ensures route { IfOk result (IsRouteOn self.now from to) }
        ensures cut { result ≡ Err RouteEnd.Cut → IsCutOn self.now from to }
        ensures cut_is_told { (blocks : List Block) (die : Die) → IsGridOf blocks die self.now
            → IsCut blocks die (point_of from) (point_of to) → IsErr result }
    {
        let (start, goal) = (halves(from), halves(to));
        let bend = Half {
            x: goal.x,
            y: start.y,
        };
        let walls = self.walls.as_slice();
        if is_clear(walls, start, bend) && is_clear(walls, bend, goal) {
            return Ok(along_x_first(from, to));
        }
        self.search(alloc, from, to)
    }
}

/// The route of a wire between two points of a die with blocks, or `Cut` where there is none.
///
/// The x lines of the routing grid are the die's two x edges, the x edges of all blocks of kind `All`
/// and the x of the two points; the y lines are made likewise. Neighbouring points of the grid are
/// joined where no point at or between them lies strictly inside a block of kind `All`. The route is a
/// shortest path of this grid that steps, from each of its points, to the first neighbour, in the order
/// +x, -x, +y, -y, that comes next on a shortest path to its end. Answers `Cut` exactly where no path
/// joins the two points, and `NoMemory` where an allocation fails. Takes coordinates of at most 2^40 nm
/// in size and at most 64 blocks of kind `All`. A caller that wants many routes makes one [`Grid`].
pub fn route(
    alloc: Global,
    blocks: &[Block],
    die: &Die,
    from: Spot,
    to: Spot,
) -> Result<Route, RouteEnd>
    requires blocks { AreBlocksInRange blocks.now }
    requires die { IsDieInRange die.now }
    requires from { IsSpotInRange from }
    requires to { IsSpotInRange to }
    ensures route { IfOk result (IsRoute blocks.now die.now (point_of from) (point_of to)) }
    ensures cut { result ≡ Err RouteEnd.Cut → IsCut blocks.now die.now (point_of from) (point_of to) }
    ensures cut_is_told { IsCut blocks.now die.now (point_of from) (point_of to) → IsErr result }
{
    let grid = Grid::of(alloc, blocks, die)?;
    grid.route(alloc, from, to)
}
