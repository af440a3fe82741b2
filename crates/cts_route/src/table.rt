//! The lengths of the shortest paths to a goal, found by Dijkstra's method and checked step by step.

ghost use Rattle.std.specs.Prelude.{◌≡◌, ◌-◌, ◌^◌, ◌<◌, vec_len, slice_index, IfSome, IfNone, IfOk, OnSome};
ghost use Rattle.std.specs.Bool.{OnTrue, OnFalse};
ghost use Rattle.cts_route.specs.Search.{IsGraph, AreLabels, IsSettledAt, IsSettledFrom, IsSettledBelow, IsSettled, total, IsFall, HasNoFall, IsFirstFall};

use crate::direction::{DIRECTIONS, Direction};
use crate::graph::Graph;
use std::alloc::{AllocError, Global};
use std::cmp::Reverse;
use std::collections::BinaryHeap;

/// The label of a point from which no path was found.
pub const UNREACHED: u64 = u64::MAX;

/// A label for each point: the length of a path to the goal in half nm.
#[derive(Drop)]
pub struct Table {
    pub labels: Vec<u64>,
    pub goal: usize,
}

/// A step by the whole of whose length the label falls.
#[derive(Clone, Copy)]
pub struct Fall {
    pub direction: Direction,
    pub to: usize,
    pub len: u64,
}

impl Table {
    /// Takes a step backwards from the neighbour that it leads to, if that makes the neighbour's path
    /// shorter, and tells the neighbour.
    fn relax(&mut self, graph: &Graph, from: usize, direction: Direction) -> Option<usize>
        requires graph { IsGraph graph.now }
        requires labels { AreLabels graph.now self.old.goal self.old.labels.items }
        requires from { from < vec_len self.old.labels }
        ensures labels { AreLabels graph.now self.new.goal self.new.labels.items }
        ensures goal { self.new.goal ≡ self.old.goal }
        ensures len { vec_len self.new.labels ≡ vec_len self.old.labels }
        ensures next { IfSome result (λ to. to < vec_len self.new.labels) }
        ensures shorter { OnSome result (total self.new.labels.items < total self.old.labels.items) }
        ensures kept { IfNone result (self.new.labels.items ≡ self.old.labels.items) }
        ensures settled { IfNone result (IsSettledAt graph.now self.old.labels.items direction from) }
    {
        let label = self.labels[from];
        if label == UNREACHED {
            return None;
        }
        let step = graph.step(from, direction)?;
        if self.labels[step.to] <= label + step.len {
            return None;
        }
        self.labels[step.to] = label + step.len;
        Some(step.to)
    }

    /// Takes all steps backwards from a point, and tells whether one made a path shorter.
    fn relax_all(&mut self, graph: &Graph, from: usize) -> bool
        requires graph { IsGraph graph.now }
        requires labels { AreLabels graph.now self.old.goal self.old.labels.items }
        requires from { from < vec_len self.old.labels }
        ensures labels { AreLabels graph.now self.new.goal self.new.labels.items }
        ensures goal { self.new.goal ≡ self.old.goal }
        ensures shorter { OnTrue result (total self.new.labels.items < total self.old.labels.items) }
        ensures kept { OnFalse result (self.new.labels.items ≡ self.old.labels.items) }
        ensures settled { OnFalse result (IsSettledFrom graph.now self.old.labels.items from) }
    {
        let east = self.relax(graph, from, Direction::East).is_some();
        let west = self.relax(graph, from, Direction::West).is_some();
        let north = self.relax(graph, from, Direction::North).is_some();
        let south = self.relax(graph, from, Direction::South).is_some();
        east || west || north || south
    }

    /// Takes all steps backwards from a point that is no farther from the goal than the start is, and
    /// tells whether one made a path shorter.
    fn relax_below(&mut self, graph: &Graph, start: usize, from: usize) -> bool
        requires graph { IsGraph graph.now }
        requires labels { AreLabels graph.now self.old.goal self.old.labels.items }
        requires start { start < vec_len self.old.labels }
        requires from { from < vec_len self.old.labels }
        ensures labels { AreLabels graph.now self.new.goal self.new.labels.items }
        ensures goal { self.new.goal ≡ self.old.goal }
        ensures shorter { OnTrue result (total self.new.labels.items < total self.old.labels.items) }
        ensures kept { OnFalse result (self.new.labels.items ≡ self.old.labels.items) }
        ensures settled { OnFalse result (IsSettledBelow graph.now self.old.labels.items start from) }
    {
        if self.labels[from] > self.labels[start] {
            return false;
        }
        self.relax_all(graph, from)
    }

    /// Takes all steps once, from the points that are no farther from the goal than the start is, and
    /// tells whether one made a path shorter.
    fn sweep(&mut self, graph: &Graph, start: usize) -> bool
        requires graph { IsGraph graph.now }
        requires labels { AreLabels graph.now self.old.goal self.old.labels.items }
        requires start { start < vec_len self.old.labels }
        ensures labels { AreLabels graph.now self.new.goal self.new.labels.items }
        ensures goal { self.new.goal ≡ self.old.goal }
        ensures shorter { OnTrue result (total self.new.labels.items < total self.old.labels.items) }
        ensures settled { OnFalse result (IsSettled graph.now self.new.labels.items start) }
    {
        let mut changed = false;
        for from in 0..self.labels.len() {
            if self.relax_below(graph, start, from) {
                changed = true;
            }
        }
        changed
    }

    /// Takes all steps from the points that are no farther from the goal than the start is, until none
    /// makes a path shorter.
    fn settle(&mut self, graph: &Graph, start: usize)
        requires graph { IsGraph graph.now }
        requires labels { AreLabels graph.now self.old.goal self.old.labels.items }
        requires start { start < vec_len self.old.labels }
        ensures labels { AreLabels graph.now self.new.goal self.new.labels.items }
        ensures goal { self.new.goal ≡ self.old.goal }
        ensures settled { IsSettled graph.now self.new.labels.items start }
    {
        'sweeps: while self.sweep(graph, start) {}
    }

    /// Takes steps backwards from the goal, from the nearest point on, as Dijkstra's method does, until
    /// the start is reached. What is left to do is left to `settle`.
    fn spread(&mut self, alloc: Global, graph: &Graph, start: usize) -> Result<(), AllocError>
        requires graph { IsGraph graph.now }
        requires labels { AreLabels graph.now self.old.goal self.old.labels.items }
        requires start { start < vec_len self.old.labels }
        ensures labels { AreLabels graph.now self.new.goal self.new.labels.items }
        ensures goal { self.new.goal ≡ self.old.goal }
    {
        let mut heap = BinaryHeap::new(alloc);
        heap.push((Reverse(0u64), self.goal))?;
        'points: for _ in 0..4 * self.labels.len() + 1 {
            let Some((Reverse(label), from)) = heap.pop() else {
                break;
            };
            if label > self.labels[start] {
                break;
            }
            if from >= self.labels.len() || self.labels[from] < label {
                continue;
            }
            for direction in DIRECTIONS {
                if let Some(to) = self.relax(graph, from, direction) {
                    heap.push((Reverse(self.labels[to]), to))?;
                }
            }
        }
        Ok(())
    }

    /// A table that knows no path but that from the goal to itself.
    fn new(alloc: Global, graph: &Graph, goal: usize) -> Result<Table, AllocError>
        requires graph { IsGraph graph.now }
        requires goal { goal < vec_len graph.now.east }
        ensures labels { IfOk result (λ table. AreLabels graph.now table.goal table.labels.items) }
        ensures goal { IfOk result (λ table. table.goal ≡ goal) }
    {
        let mut labels = vec![in alloc; UNREACHED; graph.east.len()]?;
        labels[goal] = 0;
        Ok(Table { labels, goal })
    }

    /// The lengths of the shortest paths to a goal, from a start and from all points that are no farther.
    pub fn find(
        alloc: Global,
        graph: &Graph,
        start: usize,
        goal: usize,
    ) -> Result<Table, AllocError>
        requires graph { IsGraph graph.now }
        requires start { start < vec_len graph.now.east }
        requires goal { goal < vec_len graph.now.east }
        ensures labels { IfOk result (λ table. AreLabels graph.now table.goal table.labels.items) }
        ensures settled { IfOk result (λ table. IsSettled graph.now table.labels.items start) }
        ensures goal { IfOk result (λ table. table.goal ≡ goal) }
    {
        let mut table = Table::new(alloc, graph, goal)?;
        table.spread(alloc, graph, start)?;
        table.settle(graph, start);
        Ok(table)
    }

    /// The step in a direction, if the label falls by the whole of its length.
    fn fall(&self, graph: &Graph, from: usize, direction: Direction) -> Option<Fall>
        requires graph { IsGraph graph.now }
        requires labels { AreLabels graph.now self.now.goal self.now.labels.items }
        requires settled { IsSettled graph.now self.now.labels.items from }
        requires from { from < vec_len self.now.labels }
        ensures some { IfSome result (λ fall. IsFall graph.now self.now.labels.items fall.direction from fall.to fall.len) }
        ensures direction { IfSome result (λ fall. fall.direction ≡ direction) }
        ensures inside { IfSome result (λ fall. fall.to < vec_len self.now.labels) }
        ensures none { IfNone result (HasNoFall graph.now self.now.labels.items direction from) }
    {
        let step = graph.step(from, direction)?;
        let label = self.labels[step.to];
        if label == UNREACHED {
            return None;
        }
        if label + step.len != self.labels[from] {
            return None;
        }
        Some(Fall {
            direction,
            to: step.to,
            len: step.len,
        })
    }

    /// The first step, in the order of directions, by the whole of whose length the label falls. There
    /// is none at the goal alone.
    pub fn first_fall(&self, graph: &Graph, from: usize) -> Option<Fall>
        requires graph { IsGraph graph.now }
        requires labels { AreLabels graph.now self.now.goal self.now.labels.items }
        requires settled { IsSettled graph.now self.now.labels.items from }
        requires from { from < vec_len self.now.labels }
        requires reached { slice_index self.now.labels.items from < 2 ^ 64 - 1 }
        ensures some { IfSome result (λ fall. IsFirstFall graph.now self.now.labels.items fall.direction from fall.to fall.len) }
        ensures inside { IfSome result (λ fall. fall.to < vec_len self.now.labels) }
        ensures none { IfNone result (from ≡ self.now.goal) }
    {
        if let Some(fall) = self.fall(graph, from, Direction::East) {
            return Some(fall);
        }
        if let Some(fall) = self.fall(graph, from, Direction::West) {
            return Some(fall);
        }
        if let Some(fall) = self.fall(graph, from, Direction::North) {
            return Some(fall);
        }
        self.fall(graph, from, Direction::South)
    }
}
