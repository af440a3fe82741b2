//! The text for the synthesis of an instance by many workers, over a memo.

ghost use Rattle.std.specs.Prelude.{◌≡◌, ◌≤◌, ◌↔◌, length, IfSome, IsSome};
ghost use Rattle.cts_topo.specs.Shape.{IsShapeOver};
ghost use Rattle.cts_topo.specs.Topology.{shape_of};
ghost use Rattle.cts_up.specs.Ends.{Ends};
ghost use Rattle.cts_turn.specs.Passes.{share_of};
ghost use Rattle.cts_memo.specs.Passes.{IsPassOf, params_of};
ghost use Rattle.cts_memo.specs.Sound.{IsSound};
ghost use Rattle.cts_memo.specs.Tables.{base_of, told_by as entries_told};
ghost use Rattle.cts_tree_workers.specs.Rooms.{AreFor, AreReady};
ghost use Rattle.cts_top.specs.Memos.{IsKeptFor, IsMemoOf, IsPlanned, TellsOfTree};
ghost use Rattle.cts_top.specs.Outcome.{status_of};
ghost use Rattle.cts_top.specs.Text.{TellsSynthesis, told_by};
ghost use Rattle.cts_top.specs.Written.{Answers};

use crate::answer::{Telling, answer_no_tree, answer_synthesis_by};
use crate::stop::{Answer, Stop};
use crate::valid::instance_is_valid;
use crate::workers::{Planned, closed, finish_and_publish, make_plan, make_shape};
use cts_instance::Instance;
use cts_io::ByteSink;
use cts_memo::{Memo, MemoPass, Secret, Table};
use cts_num::NoMemory;
use cts_plain::NoTree;
use cts_topo::Shape;
use cts_tree_workers::Rooms;
use cts_up::UpEnd;
use cts_work::Gate;
use std::alloc::Global;
use std::sync::Wait;
use std::thread::Threads;

/// How a run by workers ends, and the table of its memo, unless memory ran out.
type Ended = (Result<Answer, Stop>, Option<Table>);

/// The table of a run that ends so, unless it wrote nothing.
fn kept(answer: &Result<Answer, Stop>, table: Table) -> Option<Table>
    ensures kept { IsKeptFor answer.now result }
    ensures same { IfSome result (λ kept. kept ≡ table) }
{
    match answer {
        Ok(_) | Err(Stop::WriteFault) => Some(table),
        Err(_) => None,
    }
}

/// Writes the text for the plan of an instance, once so many workers have made what it comes to and it is published in the
/// memo, which is then closed.
fn answer_planned<R: Threads + Wait + Sync, K: ByteSink, G: Gate>(
    rt: &R,
    alloc: Global,
    gate: &G,
    sink: &mut K,
    telling: Telling,
    planned: Planned<'_>,
    memo: Memo,
    pass: MemoPass,
    rooms: Rooms,
    workers: u32,
) -> Ended
    requires planned { IsPlanned planned }
    requires params { params_of memo ≡ planned.instance.now.params }
    requires own { IsPassOf memo pass }
    requires whole { share_of pass ≡ 65536 }
    requires rooms { AreReady planned.instance.now planned.shape.now rooms }
    requires few { workers ≤ 64 }
    ensures answers { Answers (TellsSynthesis (told_by telling) planned.entry.instance.now) K.held K.faults sink.old sink.new result.0 }
    ensures kept { IsSome result.1 ↔ TellsOfTree (status_of result.0) }
    ensures memo { IfSome result.1 (IsMemoOf planned.entry.instance.now) }
{
    let instance = planned.instance;
    let (synthesis, published, pass) = finish_and_publish(
        rt, alloc, gate, &memo, pass, planned, rooms, workers,
    );
    let table = closed(memo, pass);
    match published {
        Ok(()) => {
            let answer = answer_synthesis_by(
                rt, alloc, workers, sink, telling, instance, synthesis,
            );
            let memo = kept(&answer, table);
            (answer, memo)
        }
        Err(NoMemory) => (Err(Stop::NoMemory), None),
    }
}

/// Writes the text for an instance that has no plan, and gives the table of its memo.
fn answer_unplanned<K: ByteSink>(
    sink: &mut K,
    telling: Telling,
    instance: &Instance,
    shape: &Shape,
    table: Table,
    end: UpEnd,
) -> Ended
    requires definition { shape.now ≡ shape_of instance.now.sinks }
    requires base { base_of table ≡ instance.now.params }
    requires sound { IsSound (base_of table) (entries_told table) }
    requires ends { Ends instance.now.params instance.now.sinks shape.now end }
    ensures answers { Answers (TellsSynthesis (told_by telling) instance.now) K.held K.faults sink.old sink.new result.0 }
    ensures kept { IsSome result.1 ↔ TellsOfTree (status_of result.0) }
    ensures memo { IfSome result.1 (IsMemoOf instance.now) }
{
    instance_is_valid(instance);
    match end {
        UpEnd::Beyond { node } => {
            let answer = answer_no_tree(sink, instance, NoTree::Beyond { node });
            (answer, Some(table))
        }
        UpEnd::NoMemory => (Err(Stop::NoMemory), None),
    }
}

/// Writes the text for the synthesis of an instance over its shape, and gives the table of its memo. The memo has room
/// for all nodes of the shape from the start.
fn answer_over<R: Threads + Wait + Sync, K: ByteSink, G: Gate>(
    rt: &R,
    alloc: Global,
    gate: &G,
    sink: &mut K,
    telling: Telling,
    instance: &Instance,
    shape: &Shape,
    rooms: Rooms,
    secret: Secret,
    workers: u32,
) -> Ended
    requires definition { shape.now ≡ shape_of instance.now.sinks }
    requires shape { IsShapeOver (length instance.now.sinks) shape.now }
    requires rooms { AreFor (length shape.now) rooms }
    requires some { 1 ≤ workers }
    requires few { workers ≤ 64 }
    ensures answers { Answers (TellsSynthesis (told_by telling) instance.now) K.held K.faults sink.old sink.new result.0 }
    ensures kept { IsSome result.1 ↔ TellsOfTree (status_of result.0) }
    ensures memo { IfSome result.1 (IsMemoOf instance.now) }
{
    let nodes = shape.nodes().len();
    let Ok((memo, pass)) = Memo::start_with_room(alloc, instance.params(), secret, nodes) else {
        return (Err(Stop::NoMemory), None);
    };
    let (plan, rooms) = make_plan(rt, alloc, gate, &memo, instance, shape, rooms, workers);
    match (plan, rooms) {
        (Ok(plan), Ok(rooms)) => {
            let plan = &plan;
            let planned = Planned {
                instance,
                shape,
                plan,
            };
            answer_planned(
                rt, alloc, gate, sink, telling, planned, memo, pass, rooms, workers,
            )
        }
        (Err(end), _) => answer_unplanned(sink, telling, instance, shape, closed(memo, pass), end),
        (Ok(_), Err(NoMemory)) => (Err(Stop::NoMemory), None),
    }
}

/// Writes the text for the synthesis of an instance by so many workers, who share a memo of its subtrees, and gives the
/// table of this memo, unless memory ran out.
pub fn answer_by_workers<R: Threads + Wait + Sync, K: ByteSink, G: Gate>(
    rt: &R,
    alloc: Global,
    gate: &G,
    sink: &mut K,
    telling: Telling,
    instance: &Instance,
    workers: u32,
) -> Ended
    requires some { 1 ≤ workers }
    requires few { workers ≤ 64 }
    ensures answers { Answers (TellsSynthesis (told_by telling) instance.now) K.held K.faults sink.old sink.new result.0 }
    ensures kept { IsSome result.1 ↔ TellsOfTree (status_of result.0) }
    ensures memo { IfSome result.1 (IsMemoOf instance.now) }
{
    let (made, secret) = make_shape(rt, alloc, instance.sinks(), workers);
    match made {
        Ok((shape, rooms)) => answer_over(
            rt, alloc, gate, sink, telling, instance, &shape, rooms, secret, workers,
        ),
        Err(NoMemory) => (Err(Stop::NoMemory), None),
    }
}
