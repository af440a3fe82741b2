//! Shapes over a few sinks.

ghost use Rattle.std.specs.Prelude.{◌≡◌};

use crate::instances::{Given, instance, sink};
use cts_topo::{Shape, ShapeNode, topology};
use cts_units::Sink;
use std::alloc::Global;
use std::process::Abort;
use std::test::Fail;

fn leaf(sink: u32) -> ShapeNode
    ensures { result ≡ ShapeNode.Leaf sink }
{
    ShapeNode::Leaf { sink }
}

fn pair(left: u32, right: u32) -> ShapeNode
    ensures { result ≡ ShapeNode.Pair left right }
{
    ShapeNode::Pair { left, right }
}

/// The shape over these sinks, which are within the limits.
fn shape_of(alloc: Global, sinks: &[Sink]) -> Result<Shape, Fail> {
    let instance = instance(alloc, &Given::of(300, 1, sinks))?;
    Ok(topology(alloc, instance.sinks())?)
}

/// Compares the shape over these sinks.
fn compare(
    rt: &impl Abort,
    alloc: Global,
    sinks: &[Sink],
    nodes: &[ShapeNode],
) -> Result<(), Fail> {
    let shape = shape_of(alloc, sinks)?;
    assert_eq!(rt; shape.nodes(), nodes);
    Ok(())
}

/// A sink of 1 zF.
fn pin(id: u32, x: i64, y: i64) -> Sink {
    sink(id, x, y, 1)
}

#[test]
fn sinks_are_divided(rt: HostRuntime) -> Result<(), Fail> {
    // At one place the ids decide.
    let sinks = [pin(4, 0, 0), pin(3, 0, 0), pin(2, 0, 0), pin(1, 0, 0)];
    let nodes = [
        leaf(3),
        leaf(2),
        pair(0, 1),
        leaf(1),
        leaf(0),
        pair(3, 4),
        pair(2, 5),
    ];
    compare(&rt, rt.alloc(), &sinks, &nodes)?;
    // Two sinks that run further in y than in x are divided along y.
    let upright = [pin(1, 3, 9), pin(2, 5, 4)];
    compare(&rt, rt.alloc(), &upright, &[leaf(1), leaf(0), pair(0, 1)])
}

#[test]
fn three_of_five_sinks_on_a_line_go_to_the_left(rt: HostRuntime) -> Result<(), Fail> {
    let sinks = [
        pin(1, 0, 0),
        pin(2, 1, 0),
        pin(3, 2, 0),
        pin(4, 3, 0),
        pin(5, 4, 0),
    ];
    let nodes = [
        leaf(0),
        leaf(1),
        pair(0, 1),
        leaf(2),
        pair(2, 3),
        leaf(3),
        leaf(4),
        pair(5, 6),
        pair(4, 7),
    ];
    compare(&rt, rt.alloc(), &sinks, &nodes)
}

/// Compares the leaves with the places of sinks on a line, and tells how many leaves there are.
fn count_leaves(rt: &impl Abort, nodes: &[ShapeNode]) -> u64 {
    let mut place: u64 = 0;
    for node in nodes {
        if let ShapeNode::Leaf { sink } = node {
            assert_eq!(rt; u64::from(*sink) * 7 % 300, place);
            place = place.saturating_add(1);
        }
    }
    place
}

#[test]
fn many_sinks_on_a_line_stand_in_its_order(rt: HostRuntime) -> Result<(), Fail> {
    // Seven has no common divisor with 300, so that each place from 0 to 299 is taken once.
    let mut sinks = Vec::new(rt.alloc());
    for id in 0..300u32 {
        sinks.push(pin(id, i64::from(id * 7 % 300), 0))?;
    }
    let shape = shape_of(rt.alloc(), &sinks)?;
    let leaves = count_leaves(&rt, shape.nodes());
    assert_eq!(rt; (shape.nodes().len(), leaves), (599, 300));
    Ok(())
}

#[test]
#[tactic(auto, unfolding(cts_postorder::specs::PostOrder::IsPostOrderFrom))]
fn a_shape_lends_its_nodes(rt: HostRuntime) -> Result<(), Fail> {
    let mut nodes = Vec::new(rt.alloc());
    nodes.push(leaf(0))?;
    nodes.push(leaf(1))?;
    nodes.push(pair(0, 1))?;
    let shape = Shape::of(nodes);
    assert_eq!(rt; shape.nodes().len(), 3);
    Ok(())
}
