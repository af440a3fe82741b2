//! Trees built by many workers, with gates that count pieces and hold them up.

ghost use Rattle.std.specs.Prelude.{◌≡◌, ◌<◌, ◌≤◌, length, IfOk};
ghost use Rattle.cts_topo.specs.Shape.{IsShapeOver};
ghost use Rattle.cts_topo.specs.Sinks.{AreSinks};
ghost use Rattle.cts_units.specs.Limits.{IsParams};
ghost use Rattle.cts_up.specs.Sinks.{AreSinksInRange, IsSinkInRange};

use crate::compare::same;
use crate::gates::{Meeting, bit};
use crate::instances::sink;
use crate::leaves::{closed, params};
use cts_memo::Memo;
use cts_merge::{Finished, Steps};
use cts_script::make_instance;
use cts_topo::{Shape, topology};
use cts_turn::Object;
use cts_units::{Params, Sink};
use cts_up::{UpEnd, up};
use cts_work::{Gate, OpenGate, build_all};
use std::alloc::{AllocError, Global};
use std::marker::Brand;
use std::process::Abort;
use std::sync::Wait;
use std::sync::atomic::{AtomicU64, Ordering};
use std::sync::ledger::{Blank, Ledger};
use std::test::Fail;
use std::thread::Threads;

/// A gate that counts the pieces, and keeps which of the numbers below 64 they had, and how many nodes were published
/// with each number below 16.
#[derive(Drop)]
struct Pieces {
    count: AtomicU64,
    numbers: AtomicU64,
    published: AtomicU64,
}

impl Pieces {
    fn new() -> Pieces {
        Pieces {
            count: AtomicU64::new(0),
            numbers: AtomicU64::new(0),
            published: AtomicU64::new(0),
        }
    }

    /// How many pieces came, a bit for each number, and how many nodes were published with each number, in 4 bits each,
    /// the least number last.
    fn counted(&self) -> (u64, u64, u64) {
        let count = self.count.load(Ordering::SeqCst);
        let numbers = self.numbers.load(Ordering::SeqCst);
        (count, numbers, self.published.load(Ordering::SeqCst))
    }
}

impl Gate for Pieces {
    fn piece(&self, number: u32) {
        self.count.fetch_add(1, Ordering::SeqCst);
        self.numbers.fetch_or(bit(number), Ordering::SeqCst);
    }

    fn between(&self, number: u32) {
        self.published
            .fetch_add(1u64 << (4 * (number % 16)), Ordering::SeqCst);
    }
}

/// A gate that lets a piece go once the next one has entered, as long as there is a next one.
#[derive(Drop)]
struct Backwards {
    last: u64,
    entered: AtomicU64,
}

impl Gate for Backwards {
    fn piece(&self, number: u32) {
        self.entered.fetch_max(number as u64, Ordering::SeqCst);
        for _ in 0..1_000_000u32 {
            let entered = self.entered.load(Ordering::SeqCst);
            if entered > number as u64 || entered == self.last {
                return;
            }
        }
    }

    fn between(&self, _number: u32) {}
}

/// The sink of this number on the line.
fn sink_on_line(number: u32) -> Sink
    requires { number < 65536 }
    ensures id { result.id ≡ number }
    ensures range { IsSinkInRange result }
{
    sink(number, number as i64, 0, 5 + (number % 7) as u64)
}

/// So many sinks on a line, 1 nm apart, with 5 to 11 zF.
fn line(alloc: Global, count: u32) -> Result<Vec<Sink>, AllocError>
    requires some { 0 < count }
    requires few { count ≤ 65536 }
    ensures sinks { IfOk result (λ sinks. AreSinks sinks.items) }
    ensures range { IfOk result (λ sinks. AreSinksInRange sinks.items) }
{
    let mut sinks = Vec::new(alloc);
    for number in 0..count {
        sinks.push(sink_on_line(number))?;
    }
    Ok(sinks)
}

/// The plan by one thread, without a memo.
fn plan_counted<L: Ledger>(
    alloc: Global,
    blank: Blank,
    params: &Params,
    sinks: &[Sink],
    shape: &Shape,
) -> Result<Vec<Finished>, UpEnd>
    requires name { blank.name ≡ L.name }
    requires parts { blank.parts ≡ L.parts }
    requires some { 0 < L.parts }
    requires params { IsParams params.now }
    requires sinks { AreSinksInRange sinks.now }
    requires shape { IsShapeOver (length sinks.now) shape.now }
{
    let mut steps = Steps::<L>::open(blank);
    up(alloc, params, sinks, shape, &mut steps)
}

fn plan_alone(
    alloc: Global,
    params: &Params,
    sinks: &[Sink],
    shape: &Shape,
) -> Result<Vec<Finished>, UpEnd>
    requires params { IsParams params.now }
    requires sinks { AreSinksInRange sinks.now }
    requires shape { IsShapeOver (length sinks.now) shape.now }
{
    plan_counted::<Brand>(alloc, Blank::new(1), params, sinks, shape)
}

/// Whether two plans have the same lengths and sides.
fn are_same(a: &[Finished], b: &[Finished]) -> bool {
    a.len() == b.len()
        && a.iter().zip(b.iter()).all(|(a, b)| {
            a.ea == b.ea
                && a.eb == b.eb
                && a.side.load == b.side.load
                && a.side.greatest == b.side.greatest
        })
}

/// Whether workers make this plan, and publish each node of it.
fn make<R: Threads + Wait + Abort + Sync, G: Gate>(
    rt: &R,
    alloc: Global,
    gate: &G,
    params: &Params,
    sinks: &[Sink],
    shape: &Shape,
    workers: u32,
    expected: &[Finished],
) -> Result<bool, Fail>
    requires one { 1 ≤ workers }
    requires most { workers ≤ 64 }
    requires params { IsParams params.now }
    requires sinks { AreSinksInRange sinks.now }
    requires shape { IsShapeOver (length sinks.now) shape.now }
{
    let (memo, pass) = Memo::start(alloc, params)?;
    let (plan, pass) = build_all(rt, alloc, &memo, pass, gate, sinks, shape, workers);
    let share = pass.share();
    let entries = closed(rt, memo, pass).len();
    let are_published = share == 65_536 && entries + 1 == 2 * sinks.len() as u64;
    Ok(are_published && are_same(&plan?, expected))
}

/// The wires to both parts of a root in nm, its greatest doubled delay in 10^-27 s and its load in zF.
type Root = ((u32, u32), u128, u64);

/// The root of a plan.
fn root_of(plan: &[Finished]) -> Option<Root> {
    let root = plan.last()?;
    Some(((root.ea, root.eb), root.side.greatest, root.side.load))
}

/// The root of the plan of these sinks, where workers make the plan that one thread makes, and publish each node.
fn agreed<R: Threads + Wait + Abort + Sync, G: Gate>(
    rt: &R,
    alloc: Global,
    gate: &G,
    params: &Params,
    sinks: &[Sink],
    workers: u32,
) -> Result<Option<Root>, Fail>
    requires one { 1 ≤ workers }
    requires most { workers ≤ 64 }
    requires params { IsParams params.now }
    requires sinks { AreSinks sinks.now }
    requires range { AreSinksInRange sinks.now }
{
    let shape = topology(alloc, sinks)?;
    let alone = plan_alone(alloc, params, sinks, &shape)?;
    if make(rt, alloc, gate, params, sinks, &shape, workers, &alone)? {
        Ok(root_of(&alone))
    } else {
        Ok(None)
    }
}

/// Whether workers make the plan of so many sinks on a line.
fn agree_on_line<R: Threads + Wait + Abort + Sync, G: Gate>(
    rt: &R,
    alloc: Global,
    gate: &G,
    count: u32,
    workers: u32,
) -> Result<bool, Fail>
    requires some { 0 < count }
    requires few { count ≤ 65536 }
    requires one { 1 ≤ workers }
    requires most { workers ≤ 64 }
{
    let params = params(alloc);
    let sinks = line(alloc, count)?;
    Ok(agreed(rt, alloc, gate, &params, &sinks, workers)?.is_some())
}

/// Whether two workers make the plan of sinks that one worker made before, over the same memo. The gate is that of the
/// second time.
fn make_again<R: Threads + Wait + Abort + Sync, G: Gate>(
    rt: &R,
    alloc: Global,
    gate: &G,
    params: &Params,
    sinks: &[Sink],
    shape: &Shape,
) -> Result<bool, Fail>
    requires params { IsParams params.now }
    requires sinks { AreSinksInRange sinks.now }
    requires shape { IsShapeOver (length sinks.now) shape.now }
{
    let (memo, pass) = Memo::start(alloc, params)?;
    let (first, pass) = build_all(rt, alloc, &memo, pass, &OpenGate, sinks, shape, 1);
    let (second, pass) = build_all(rt, alloc, &memo, pass, gate, sinks, shape, 2);
    let entries = closed(rt, memo, pass).len();
    Ok(are_same(&first?, &second?) && entries + 1 == 2 * sinks.len() as u64)
}

/// Whether workers make the plan of sixteen sinks on a line over a memo that has it.
fn agree_again_on_line<R: Threads + Wait + Abort + Sync, G: Gate>(
    rt: &R,
    alloc: Global,
    gate: &G,
) -> Result<bool, Fail> {
    let params = params(alloc);
    let sinks = line(alloc, 16)?;
    let shape = topology(alloc, &sinks)?;
    make_again(rt, alloc, gate, &params, &sinks, &shape)
}

/// Whether workers make the plan of the instance of seed 14 with 64 sinks.
pub(crate) fn agree_on_made<R: Threads + Wait + Abort + Sync, G: Gate>(
    rt: &R,
    alloc: Global,
    gate: &G,
    workers: u32,
) -> Result<bool, Fail>
    requires one { 1 ≤ workers }
    requires most { workers ≤ 64 }
{
    let made = make_instance(alloc, 14, 64)?;
    Ok(agreed(rt, alloc, gate, made.params(), made.sinks(), workers)?.is_some())
}

/// The root above a sink at 0 nm with 5 zF and one at 10 nm with 10 zF, which two workers build.
fn root_of_two<R: Threads + Wait + Abort + Sync>(
    rt: &R,
    alloc: Global,
    gate: &Meeting,
) -> Result<Option<Root>, Fail> {
    let params = params(alloc);
    let sinks = [sink(1, 0, 0, 5), sink(2, 10, 0, 10)];
    agreed(rt, alloc, gate, &params, &sinks, 2)
}

#[test]
fn two_workers_build_a_leaf_each(rt: HostRuntime) -> Result<(), Fail> {
    let gate = Meeting::of(0, 1);
    let root = root_of_two(&rt, rt.alloc(), &gate)?;
    // 6 nm to the left sink and 4 nm to the right one, with 96 on both sides.
    same(&rt, "the root", root, Some(((6, 4), 96, 25)));
    same(&rt, "both came, none late", gate.counted(), (0b11, 0, 0));
    // The leaf of piece 0 and the pair above it, and the leaf of piece 1.
    same(&rt, "published once", gate.made(), 0x0001_0002);
    Ok(())
}

#[test]
fn two_workers_build_eight_pieces_of_two_sinks(rt: HostRuntime) -> Result<(), Fail> {
    let gate = Pieces::new();
    let agree = agree_on_line(&rt, rt.alloc(), &gate, 16, 2)?;
    same(&rt, "the same plan", agree, true);
    // Each piece has three nodes. Pairs of two pieces begin at 0, 2, 4 and 6, those of four at 0 and 4, and the root at 0.
    same(&rt, "eight pieces", gate.counted(), (8, 0xff, 0x3435_3436));
    Ok(())
}

#[test]
fn sixty_four_workers_build_each_leaf(rt: HostRuntime) -> Result<(), Fail> {
    let gate = Pieces::new();
    let agree = agree_on_line(&rt, rt.alloc(), &gate, 16, 64)?;
    same(&rt, "the same plan", agree, true);
    // Each piece is a leaf, and the pairs above them begin at 0, 2, 4 and so on.
    let pieces = (16, 0xffff, 0x1213_1214_1213_1215);
    same(&rt, "sixteen pieces", gate.counted(), pieces);
    Ok(())
}

#[test]
fn a_known_tree_is_not_published_again(rt: HostRuntime) -> Result<(), Fail> {
    let gate = Pieces::new();
    let agree = agree_again_on_line(&rt, rt.alloc(), &gate)?;
    same(&rt, "the same plan", agree, true);
    same(&rt, "eight pieces, no node", gate.counted(), (8, 0xff, 0));
    Ok(())
}

#[test]
fn two_workers_meet(rt: HostRuntime) -> Result<(), Fail> {
    let gate = Meeting::of(0, 1);
    let agree = agree_on_made(&rt, rt.alloc(), &gate, 2)?;
    same(&rt, "the same plan", agree, true);
    same(&rt, "eight came, none late", gate.counted(), (0xff, 0, 0));
    Ok(())
}

#[test]
fn pieces_may_be_held_up_in_any_order(rt: HostRuntime) -> Result<(), Fail> {
    let gate = Backwards {
        last: 15,
        entered: AtomicU64::new(0),
    };
    let agree = agree_on_made(&rt, rt.alloc(), &gate, 4)?;
    same(&rt, "the same plan", agree, true);
    Ok(())
}

#[test]
fn every_count_of_workers_makes_the_same_plan(rt: HostRuntime) -> Result<(), Fail> {
    for workers in 1..65u32 {
        let agree = agree_on_line(&rt, rt.alloc(), &OpenGate, 100, workers)?;
        assert!(rt; agree, "with {workers} workers");
    }
    Ok(())
}
