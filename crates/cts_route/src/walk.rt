//! The way down along the labels of a table, and where it turns.

ghost use Rattle.std.specs.Prelude.{◌≡◌, ◌-◌, ◌*◌, ◌^◌, ◌<◌, length, vec_len, slice_index, IfOk};
ghost use Rattle.std.specs.Bool.{OnTrue, OnFalse};
ghost use Rattle.cts_route.specs.Search.{IsGraph, AreLabels, IsSettled};
ghost use Rattle.cts_route.specs.Walks.{IsTurn, IsNoTurn, LeadsAhead, IsWayDown};

use crate::direction::Direction;
use crate::graph::Graph;
use crate::table::Table;
use crate::window::point_at;
use cts_geom::Half;
use std::alloc::{AllocError, Global};

/// Whether a step turns from the direction of the step before it.
fn turns(last: Option<Direction>, direction: Direction) -> bool
    ensures turned { OnTrue result (IsTurn last direction) }
    ensures straight { OnFalse result (IsNoTurn last direction) }
{
    match last {
        None => false,
        Some(last) => last != direction,
    }
}

/// The points where the way down from a point to the goal of the table turns.
pub fn corners_down(
    alloc: Global,
    xs: &[i64],
    ys: &[i64],
    graph: &Graph,
    table: &Table,
    start: usize,
) -> Result<Vec<Half>, AllocError>
    requires graph { IsGraph graph.now }
    requires labels { AreLabels graph.now table.now.goal table.now.labels.items }
    requires settled { IsSettled graph.now table.now.labels.items start }
    requires cells { vec_len table.now.labels ≡ length xs.now * length ys.now }
    requires ahead { LeadsAhead xs.now ys.now graph.now }
    requires start { start < vec_len table.now.labels }
    requires reached { slice_index table.now.labels.items start < 2 ^ 64 - 1 }
    ensures { IfOk result (λ corners. IsWayDown xs.now ys.now graph.now table.now start corners.items) }
{
    let mut corners = Vec::new(alloc);
    let mut last = None;
    let mut cell = start;
    'steps: while let Some(fall) = table.first_fall(graph, cell) {
        if turns(last, fall.direction) {
            corners.push(point_at(xs, ys, cell))?;
        }
        last = Some(fall.direction);
        cell = fall.to;
    }
    Ok(corners)
}
