//! What a search in a window of the grid sees.

ghost use Rattle.std.specs.Prelude.{◌≡◌, ◌<◌, ◌≤◌, vec_len, IfOk};
ghost use Rattle.std.specs.Bool.{OnFalse};
ghost use Rattle.cts_geom.specs.declared.points.Spot.{Spot};
ghost use Rattle.cts_route.specs.declared.grid.Grid.{Grid};
ghost use Rattle.cts_route.specs.declared.frame.Frame.{Frame};
ghost use Rattle.cts_route.specs.Grids.{IsRouteOn, IsCutOn};
ghost use Rattle.cts_route.specs.WindowOf.{IsSearched, IsNoDetour, IsEdge, IsShutTo, AreOpenSides, IsDone};

use crate::direction::Direction;
use crate::end::RouteEnd;
use crate::frame::{Frame, Sides};
use crate::graph::Graph;
use crate::table::{Table, UNREACHED};
use crate::walk::corners_down;
use crate::window::point_at;
use cts_tree::{Corners, Route};
use std::alloc::Global;

/// The part of a grid that lies in a frame.
#[derive(Drop)]
pub struct Window {
    pub xs: Vec<i64>,
    pub ys: Vec<i64>,
    pub graph: Graph,
}

/// A window with the labels of a search from one end to the other.
#[derive(Drop)]
pub struct View {
    pub window: Window,
    pub table: Table,
    pub start: usize,
}

/// The points of a line by number: so many from the first one on, the same step apart.
#[derive(Clone, Copy)]
struct Edge {
    first: usize,
    step: usize,
    count: usize,
}

/// The outermost line on a side, in columns of this many points.
fn edge_of(columns: usize, height: usize, direction: Direction) -> Edge
    requires columns { (0 < columns) × (columns ≤ 132) }
    requires height { (0 < height) × (height ≤ 132) }
    ensures { IsEdge columns height direction result }
{
    let (first, step, count) = match direction {
        Direction::East => ((columns - 1) * height, 1, height),
        Direction::West => (0, 1, height),
        Direction::North => (height - 1, height, columns),
        Direction::South => (0, height, columns),
    };
    Edge { first, step, count }
}

impl View {
    /// Whether a path over this point can be shorter than the one that was found.
    fn leads_out(&self, cell: usize) -> bool
        requires view { IsSearched self.now }
        requires cell { cell < vec_len self.now.table.labels }
        ensures { OnFalse result (IsNoDetour self.now cell) }
    {
        let (xs, ys) = (self.window.xs.as_slice(), self.window.ys.as_slice());
        let (p, q) = (point_at(xs, ys, self.start), point_at(xs, ys, cell));
        let found = self.table.labels[self.start];
        found.saturating_sub(self.table.labels[cell]) > p.x.abs_diff(q.x) + p.y.abs_diff(q.y)
    }

    /// Whether a path that leaves the window on a side can be shorter than the one that was found.
    fn is_open(&self, frame: &Frame, direction: Direction) -> bool
        requires { IsSearched self.now }
        ensures { OnFalse result (IsShutTo frame.now self.now direction) }
    {
        if frame.ends_at(direction) {
            return false;
        }
        let edge = edge_of(self.window.xs.len(), self.window.ys.len(), direction);
        for k in 0..edge.count {
            if self.leads_out(edge.first + k * edge.step) {
                return true;
            }
        }
        false
    }

    /// The sides on which a shorter path can leave the window.
    pub fn open_sides(&self, frame: &Frame) -> Sides
        requires { IsSearched self.now }
        ensures { AreOpenSides frame.now self.now result }
    {
        Sides {
            east: self.is_open(frame, Direction::East),
            west: self.is_open(frame, Direction::West),
            north: self.is_open(frame, Direction::North),
            south: self.is_open(frame, Direction::South),
        }
    }

    /// The route, where no shorter path leaves the window.
    pub fn route(&self, alloc: Global) -> Result<Route, RouteEnd>
        requires { IsSearched self.now }
        ensures route { (grid : Grid) (from to : Spot) (frame : Frame) → IsDone grid from to frame self.now → IfOk result (IsRouteOn grid from to) }
        ensures cut { result ≡ Err RouteEnd.Cut → (grid : Grid) (from to : Spot) (frame : Frame) → IsDone grid from to frame self.now → IsCutOn grid from to }
    {
        let label = self.table.labels[self.start];
        if label == UNREACHED {
            return Err(RouteEnd::Cut);
        }
        let (xs, ys) = (self.window.xs.as_slice(), self.window.ys.as_slice());
        let corners = corners_down(alloc, xs, ys, &self.window.graph, &self.table, self.start)?;
        Ok(Route {
            corners: Corners::of(alloc, corners)?,
            length: label / 2,
        })
    }
}
