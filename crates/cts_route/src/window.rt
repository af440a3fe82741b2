//! The grid with given lines, its points numbered column after column.

ghost use Rattle.std.specs.Prelude.{◌≡◌, ◌+◌, ◌*◌, ◌<◌, List, length, IfOk, OnOk};
ghost use Rattle.cts_route.specs.Search.{IsGraph};
ghost use Rattle.cts_route.specs.Walks.{LeadsAhead};
ghost use Rattle.cts_route.specs.declared.wall.Wall.{Wall};
ghost use Rattle.cts_route.specs.Windows.{point_at as spec_point_at, AreOrdered, IsStepLength, IsEastLength, IsNorthLength, IsGraphUpTo, IsGraphOf, AreShortLines, AreWallsBeside, IsSpanOf};

use crate::clear::{gather_between, is_clear};
use crate::graph::Graph;
use crate::wall::Wall;
use cts_geom::Half;
use std::alloc::{AllocError, Global};

/// The point with this number.
pub fn point_at(xs: &[i64], ys: &[i64], cell: usize) -> Half
    requires { cell < length xs.now * length ys.now }
    ensures { result ≡ spec_point_at xs.now ys.now cell }
{
    Half {
        x: xs[cell / ys.len()],
        y: ys[cell % ys.len()],
    }
}

/// The length of the step up from `p` to `q`, or 0 where a wall is in the way.
fn step_length(walls: &[Wall], p: Half, q: Half) -> u64
    requires { AreOrdered p q }
    ensures { IsStepLength walls.now p q result }
{
    if is_clear(walls, p, q) {
        q.x.abs_diff(p.x) + q.y.abs_diff(p.y)
    } else {
        0
    }
}

/// The length of the step from a point to the next column, or 0 where there is none.
fn east_length(walls: &[Wall], xs: &[i64], ys: &[i64], cell: usize) -> u64
    requires xs { AreShortLines xs.now }
    requires ys { AreShortLines ys.now }
    requires cell { cell < length xs.now * length ys.now }
    ensures { IsEastLength walls.now xs.now ys.now cell result }
{
    let next = cell + ys.len();
    if next >= xs.len() * ys.len() {
        return 0;
    }
    step_length(walls, point_at(xs, ys, cell), point_at(xs, ys, next))
}

/// The length of the step from a point to the next one in its column, or 0 where there is none.
fn north_length(walls: &[Wall], xs: &[i64], ys: &[i64], cell: usize) -> u64
    requires xs { AreShortLines xs.now }
    requires ys { AreShortLines ys.now }
    requires cell { cell < length xs.now * length ys.now }
    ensures { IsNorthLength walls.now xs.now ys.now cell result }
{
    if cell % ys.len() + 1 >= ys.len() {
        return 0;
    }
    step_length(walls, point_at(xs, ys, cell), point_at(xs, ys, cell + 1))
}

/// The least and the greatest x of the steps from a column.
fn span_of(xs: &[i64], column: usize) -> (i64, i64)
    requires { column < length xs.now }
    ensures { IsSpanOf xs.now column result.0 result.1 }
{
    if column + 1 < xs.len() {
        (xs[column], xs[column + 1])
    } else {
        (xs[column], xs[column])
    }
}

/// Adds the steps from the points of a column, which can meet these walls alone.
fn push_column(
    graph: &mut Graph,
    near: &[Wall],
    xs: &[i64],
    ys: &[i64],
    column: usize,
) -> Result<(), AllocError>
    requires xs { AreShortLines xs.now }
    requires ys { AreShortLines ys.now }
    requires column { column < length xs.now }
    ensures { (walls : List Wall) → AreWallsBeside walls xs.now column near.now
        → IsGraphUpTo walls xs.now ys.now (column * length ys.now) graph.old
        → OnOk result (IsGraphUpTo walls xs.now ys.now (column * length ys.now + length ys.now) graph.new) }
{
    let first = column * ys.len();
    for row in 0..ys.len() {
        let cell = first + row;
        graph.east.push(east_length(near, xs, ys, cell))?;
        graph.north.push(north_length(near, xs, ys, cell))?;
    }
    Ok(())
}

/// The steps of the grid with these lines.
pub fn graph_of(alloc: Global, walls: &[Wall], xs: &[i64], ys: &[i64]) -> Result<Graph, AllocError>
    requires xs { AreShortLines xs.now }
    requires ys { AreShortLines ys.now }
    ensures graph { IfOk result IsGraph }
    ensures steps { IfOk result (IsGraphOf walls.now xs.now ys.now) }
    ensures ahead { IfOk result (LeadsAhead xs.now ys.now) }
{
    let cells = xs.len() * ys.len();
    let mut graph = Graph {
        east: Vec::with_capacity(alloc, cells)?,
        north: Vec::with_capacity(alloc, cells)?,
        height: ys.len(),
    };
    let mut near = Vec::new(alloc);
    for column in 0..xs.len() {
        gather_between(&mut near, walls, span_of(xs, column))?;
        push_column(&mut graph, near.as_slice(), xs, ys, column)?;
    }
    Ok(graph)
}
