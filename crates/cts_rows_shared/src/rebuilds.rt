//! Trees over two sinks, with a gate that counts the nodes that are made.

ghost use Rattle.std.specs.Prelude.{◌≡◌, ◌<◌, length};
ghost use Rattle.cts_topo.specs.Shape.{IsShapeOver};
ghost use Rattle.cts_topo.specs.Sinks.{AreSinks};
ghost use Rattle.cts_up.specs.Sinks.{AreSinksInRange};
ghost use Rattle.cts_memo.specs.Passes.{IsPassOf};

use crate::compare::same;
use crate::instances::sink;
use crate::leaves::{begin, put_leaf};
use cts_memo::{Memo, MemoPass, PutEnd};
use cts_merge::{Finished, Steps};
use cts_topo::{Shape, topology};
use cts_units::Sink;
use cts_up::UpEnd;
use cts_work::{Gate, rebuild};
use std::alloc::Global;
use std::marker::Brand;
use std::process::Abort;
use std::sync::Wait;
use std::sync::atomic::{AtomicU64, Ordering};
use std::sync::ledger::{Blank, Ledger};
use std::test::Fail;

/// A gate that counts the nodes that are made.
#[derive(Drop)]
pub(crate) struct Counter {
    made: AtomicU64,
}

impl Counter {
    pub(crate) fn new() -> Counter {
        Counter {
            made: AtomicU64::new(0),
        }
    }
}

impl Gate for Counter {
    fn piece(&self, _number: u32) {}

    fn between(&self, _number: u32) {
        self.made.fetch_add(1, Ordering::SeqCst);
    }
}

fn counted<L: Ledger, R: Wait>(
    rt: &R,
    alloc: Global,
    blank: Blank,
    memo: &Memo,
    pass: &mut MemoPass,
    gate: &Counter,
    sinks: &[Sink],
    shape: &Shape,
) -> Result<Vec<Finished>, UpEnd>
    requires name { blank.name ≡ L.name }
    requires parts { blank.parts ≡ L.parts }
    requires some { 0 < L.parts }
    requires own { IsPassOf memo.now pass.old }
    requires sinks { AreSinksInRange sinks.now }
    requires shape { IsShapeOver (length sinks.now) shape.now }
    ensures own { IsPassOf memo.now pass.new }
{
    let mut steps = Steps::<L>::open(blank);
    rebuild(rt, alloc, memo, pass, gate, 1, sinks, shape, &mut steps)
}

/// The plan of the topology of these sinks, whose merges nobody counts.
fn plan_of<R: Wait>(
    rt: &R,
    alloc: Global,
    memo: &Memo,
    pass: &mut MemoPass,
    gate: &Counter,
    sinks: &[Sink],
) -> Result<Vec<Finished>, UpEnd>
    requires own { IsPassOf memo.now pass.old }
    requires sinks { AreSinks sinks.now }
    requires in_range { AreSinksInRange sinks.now }
    ensures own { IsPassOf memo.now pass.new }
{
    let shape = topology(alloc, sinks)?;
    counted::<Brand, R>(rt, alloc, Blank::new(1), memo, pass, gate, sinks, &shape)
}

/// What is told of a tree over two sinks: the wires to both in nm, the greatest doubled delay in 10^-27 s, the
/// load in zF, and how many nodes were made by then.
pub(crate) type Built = ((u32, u32), u128, u64, u64);

/// What is told of the root of a plan over two sinks.
fn built(plan: &[Finished], gate: &Counter) -> Option<Built> {
    match plan {
        [_, _, root] => Some((
            (root.ea, root.eb),
            root.side.greatest,
            root.side.load,
            gate.made.load(Ordering::SeqCst),
        )),
        _ => None,
    }
}

/// Builds the tree of a sink at 0 nm with 5 zF and one at 10 nm with this capacitance.
pub(crate) fn build<R: Wait>(
    rt: &R,
    alloc: Global,
    memo: &Memo,
    pass: &mut MemoPass,
    gate: &Counter,
    cap: u8,
) -> Result<Option<Built>, Fail>
    requires own { IsPassOf memo.now pass.old }
    ensures own { IsPassOf memo.now pass.new }
{
    let sinks = [sink(1, 0, 0, 5), sink(2, 10, 0, cap as u64)];
    let plan = plan_of(rt, alloc, memo, pass, gate, &sinks)?;
    Ok(built(&plan, gate))
}

/// The tree of 5 and 10 zF, when so many nodes were made: 6 nm and 4 nm, with 96 doubled on both sides.
fn five_and_ten(made: u64) -> Option<Built> {
    Some(((6, 4), 96, 25, made))
}

/// The tree of 5 and 6 zF, when so many nodes were made: 5 nm to each, with 75 and 85 doubled.
fn five_and_six(made: u64) -> Option<Built> {
    Some(((5, 5), 85, 21, made))
}

#[test]
fn a_tree_is_made_once(rt: HostRuntime) -> Result<(), Fail> {
    let (memo, mut pass) = begin(rt.alloc())?;
    let gate = Counter::new();
    let first = build(&rt, rt.alloc(), &memo, &mut pass, &gate, 10)?;
    same(&rt, "all three nodes", first, five_and_ten(3));
    let again = build(&rt, rt.alloc(), &memo, &mut pass, &gate, 10)?;
    same(&rt, "none again", again, five_and_ten(3));
    let other = build(&rt, rt.alloc(), &memo, &mut pass, &gate, 6)?;
    same(&rt, "a leaf and the root", other, five_and_six(5));
    Ok(())
}

/// Publishes as many leaves as a memo can have.
fn fill<R: Wait>(rt: &R, memo: &Memo, pass: &mut MemoPass)
    requires own { IsPassOf memo.now pass.old }
    ensures own { IsPassOf memo.now pass.new }
{
    for x in 0..2_097_152u32 {
        put_leaf(rt, memo, pass, x as i64, 1);
    }
}

/// A full memo takes no new leaf, and tells the number of one that it has.
fn is_full<R: Wait + Abort>(rt: &R, memo: &Memo, pass: &mut MemoPass)
    requires own { IsPassOf memo.now pass.old }
    ensures own { IsPassOf memo.now pass.new }
{
    let new = put_leaf(rt, memo, pass, 2_097_152, 1);
    same(rt, "a new leaf", new, PutEnd::Full);
    let known = put_leaf(rt, memo, pass, 77, 1);
    same(rt, "a known leaf", known, PutEnd::At { number: 77 });
}

#[test]
fn above_a_full_memo_nothing_is_asked(rt: HostRuntime) -> Result<(), Fail> {
    let (memo, mut pass) = begin(rt.alloc())?;
    fill(&rt, &memo, &mut pass);
    is_full(&rt, &memo, &mut pass);
    let gate = Counter::new();
    let tree = build(&rt, rt.alloc(), &memo, &mut pass, &gate, 10)?;
    // The leaves, for which there was no room. The pair above them has no key.
    same(&rt, "two nodes", tree, five_and_ten(2));
    Ok(())
}
