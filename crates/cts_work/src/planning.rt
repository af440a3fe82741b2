//! The plan of a shape, whose pieces workers make.

ghost use Rattle.std.specs.Prelude.{◌≡◌, ◌+◌, ◌-◌, ◌<◌, ◌≤◌, ◌++◌, ℕ, [], All, drop, length, IfOk, IfErr};
ghost use Rattle.cts_topo.specs.Shape.{IsShapeOver};
ghost use Rattle.cts_up.specs.Ends.{Ends};
ghost use Rattle.cts_up.specs.Plan.{IsPlan};
ghost use Rattle.cts_up.specs.Sinks.{AreSinksInRange};
ghost use Rattle.cts_memo.specs.Passes.{params_of};
ghost use Rattle.cts_work.specs.Done.{AreOnce, ArePieces, HavePieces, IsDone, IsSlot, numbers_of};
ghost use Rattle.cts_work.specs.Pieces.{AreInOrder, begins_at};
ghost use Rattle.cts_work.specs.Plans.{joined, nodes_of};
ghost use Rattle.cts_work.specs.Work.{AreMade, EndsIn, IsPart, IsReady};

use crate::gate::Gate;
use crate::making::{Made, make_node};
use crate::pieces::{Piece, pieces_for};
use crate::plan::{Plan, PlanPart};
use crate::work::Work;
use crate::workers::{Done, make_pieces};
use cts_memo::Memo;
use cts_merge::{Finished, Steps};
use cts_topo::Shape;
use cts_units::Sink;
use cts_up::UpEnd;
use std::alloc::{AllocError, Global};
use std::marker::Brand;
use std::sync::ledger::{Blank, Ledger};
use std::thread::Threads;

/// The pieces by their numbers.
fn by_number(
    alloc: Global,
    count: usize,
    mut done: Vec<Done>,
) -> Result<Vec<Option<Done>>, AllocError>
    requires once { AreOnce count (numbers_of done.items) }
    ensures long { IfOk result (λ slots. length slots.items ≡ count) }
    ensures slots { IfOk result (λ slots. (n : ℕ) → n < count → IsSlot done.items slots.items n) }
{
    let mut slots = Vec::with_capacity(alloc, count)?;
    for _ in 0..count {
        slots.push(None)?;
    }
    while let Some(piece) = done.pop() {
        let number = piece.number as usize;
        slots[number] = Some(piece);
    }
    Ok(slots)
}

/// The pairs above a piece, from the number `from` up to, and without, `to`.
fn make_above<L: Ledger>(
    work: &Work<'_>,
    from: u32,
    to: u32,
    parts: &[PlanPart],
    part: &mut Vec<Finished>,
    steps: &mut Steps<L>,
) -> Result<(), UpEnd>
    requires ready { IsReady work.now }
    requires from { length (joined parts.now ++ part.old.items) ≡ from }
    requires order { from ≤ to }
    requires to { to ≤ length work.now.nodes.now }
    requires made { AreMade work.now 0 (joined parts.now ++ part.old.items) }
    ensures long { IfOk result (λ _. length (joined parts.now ++ part.new.items) ≡ to) }
    ensures made { IfOk result (λ _. AreMade work.now 0 (joined parts.now ++ part.new.items)) }
    ensures ends { IfErr result (EndsIn work.now 0 (length work.now.nodes.now - 1)) }
{
    for node in from..to {
        let before = Made {
            parts,
            part: part.as_slice(),
        };
        match make_node(work, 0, node, before, steps) {
            Ok(next) => part.push(next)?,
            Err(end) => return Err(end),
        }
    }
    Ok(())
}

/// A part more: the nodes of a piece, and the pairs above it up to, and without, `to`.
fn add_piece<L: Ledger>(
    work: &Work<'_>,
    piece: Piece,
    done: Done,
    to: u32,
    parts: &mut Vec<PlanPart>,
    steps: &mut Steps<L>,
) -> Result<(), UpEnd>
    requires ready { IsReady work.now }
    requires part { IsPart work.now.nodes.now piece.first piece.root }
    requires long { IfOk done.made (λ nodes. piece.first + length nodes.items ≡ piece.root + 1) }
    requires made { IfOk done.made (λ nodes. AreMade work.now piece.first nodes.items) }
    requires ended { IfErr done.made (EndsIn work.now piece.first piece.root) }
    requires from { length (joined parts.old.items) ≡ piece.first }
    requires order { piece.root < to }
    requires to { to ≤ length work.now.nodes.now }
    requires parts { AreMade work.now 0 (joined parts.old.items) }
    ensures long { IfOk result (λ _. length (joined parts.new.items) ≡ to) }
    ensures made { IfOk result (λ _. AreMade work.now 0 (joined parts.new.items)) }
    ensures ends { IfErr result (EndsIn work.now 0 (length work.now.nodes.now - 1)) }
{
    let Done { number, made } = done;
    match made {
        Ok(mut nodes) => {
            make_above(
                work,
                piece.root + 1,
                to,
                parts.as_slice(),
                &mut nodes,
                steps,
            )?;
            Ok(parts.push(PlanPart {
                piece: number,
                nodes,
            })?)
        }
        Err(end) => Err(end),
    }
}

/// The number of the first node of the piece that follows, or of all nodes where none does.
fn next_first(work: &Work<'_>, pieces: &[Piece], number: usize) -> u32
    requires ready { IsReady work.now }
    requires number { number < length pieces.now }
    ensures { result ≡ begins_at (drop (number + 1) pieces.now) (length work.now.nodes.now) }
{
    match pieces.get(number + 1) {
        Some(next) => next.first,
        None => work.nodes.len() as u32,
    }
}

/// The parts of the whole plan.
fn add_pieces<L: Ledger>(
    work: &Work<'_>,
    pieces: &[Piece],
    slots: &mut Vec<Option<Done>>,
    parts: &mut Vec<PlanPart>,
    steps: &mut Steps<L>,
) -> Result<(), UpEnd>
    requires ready { IsReady work.now }
    requires pieces { ArePieces work.now.nodes.now pieces.now }
    requires order { AreInOrder work.now.nodes.now 0 pieces.now (length work.now.nodes.now) }
    requires begin { begins_at pieces.now (length work.now.nodes.now) ≡ 0 }
    requires slots { HavePieces work.now pieces.now slots.old.items }
    requires none { parts.old.items ≡ [] }
    ensures long { IfOk result (λ _. length (joined parts.new.items) ≡ length work.now.nodes.now) }
    ensures made { IfOk result (λ _. AreMade work.now 0 (joined parts.new.items)) }
    ensures ends { IfErr result (EndsIn work.now 0 (length work.now.nodes.now - 1)) }
{
    for number in 0..pieces.len() {
        let Some(done) = slots[number].take() else {
            unreachable!()
        };
        let to = next_first(work, pieces, number);
        add_piece(work, pieces[number], done, to, parts, steps)?;
    }
    Ok(())
}

/// The plan of the whole shape.
fn complete<L: Ledger>(
    alloc: Global,
    work: &Work<'_>,
    pieces: &[Piece],
    mut slots: Vec<Option<Done>>,
    steps: &mut Steps<L>,
) -> Result<Plan, UpEnd>
    requires ready { IsReady work.now }
    requires pieces { ArePieces work.now.nodes.now pieces.now }
    requires order { AreInOrder work.now.nodes.now 0 pieces.now (length work.now.nodes.now) }
    requires begin { begins_at pieces.now (length work.now.nodes.now) ≡ 0 }
    requires slots { HavePieces work.now pieces.now slots.items }
    ensures long { IfOk result (λ plan. length (nodes_of plan) ≡ length work.now.nodes.now) }
    ensures made { IfOk result (λ plan. AreMade work.now 0 (nodes_of plan)) }
    ensures ends { IfErr result (EndsIn work.now 0 (length work.now.nodes.now - 1)) }
{
    let mut parts = Vec::with_capacity(alloc, pieces.len())?;
    add_pieces(work, pieces, &mut slots, &mut parts, steps)?;
    let count = work.nodes.len();
    Ok(Plan { parts, count })
}

/// The plan of the shape, once its pieces are done. The merges of the pairs above them are counted.
fn plan_counted<L: Ledger>(
    alloc: Global,
    work: &Work<'_>,
    pieces: &[Piece],
    done: Vec<Done>,
    blank: Blank,
) -> Result<Plan, UpEnd>
    requires name { blank.name ≡ L.name }
    requires parts { blank.parts ≡ L.parts }
    requires some { 0 < L.parts }
    requires ready { IsReady work.now }
    requires pieces { ArePieces work.now.nodes.now pieces.now }
    requires order { AreInOrder work.now.nodes.now 0 pieces.now (length work.now.nodes.now) }
    requires begin { begins_at pieces.now (length work.now.nodes.now) ≡ 0 }
    requires done { All (IsDone work.now pieces.now) done.items }
    requires once { AreOnce (length pieces.now) (numbers_of done.items) }
    ensures plan { IfOk result (λ plan. IsPlan (params_of work.now.memo.now) work.now.sinks.now work.now.nodes.now (nodes_of plan)) }
    ensures ends { IfErr result (Ends (params_of work.now.memo.now) work.now.sinks.now work.now.nodes.now) }
{
    let slots = by_number(alloc, pieces.len(), done)?;
    let mut steps = Steps::<L>::open(blank);
    complete(alloc, work, pieces, slots, &mut steps)
}

/// The plan of the shape, once its pieces are done.
fn plan_of(alloc: Global, work: &Work<'_>, pieces: &[Piece], done: Vec<Done>) -> Result<Plan, UpEnd>
    requires ready { IsReady work.now }
    requires pieces { ArePieces work.now.nodes.now pieces.now }
    requires order { AreInOrder work.now.nodes.now 0 pieces.now (length work.now.nodes.now) }
    requires begin { begins_at pieces.now (length work.now.nodes.now) ≡ 0 }
    requires done { All (IsDone work.now pieces.now) done.items }
    requires once { AreOnce (length pieces.now) (numbers_of done.items) }
    ensures plan { IfOk result (λ plan. IsPlan (params_of work.now.memo.now) work.now.sinks.now work.now.nodes.now (nodes_of plan)) }
    ensures ends { IfErr result (Ends (params_of work.now.memo.now) work.now.sinks.now work.now.nodes.now) }
{
    plan_counted::<Brand>(alloc, work, pieces, done, Blank::new(1))
}

/// The plan of a shape over sinks, as the upward pass gives it with the parameters of the memo, made by so
/// many workers beside each other. Nothing is asked of the memo, and nothing is published.
///
/// The shape is divided into pieces: the root has four times as many lots as there are workers; at a
/// pair of at least two lots the left part gets half of them, rounded up, and the right part the rest; a
/// part of one lot, or a leaf, is a piece. Pieces are numbered from the left, from 0. Each worker makes
/// pieces, each of the next number that nobody drew, until none is left. A worker whose piece is beyond
/// goes on with the next one; a worker that finds no memory draws no more, and then the whole answer is
/// `NoMemory`. Once the workers are done the caller makes the pairs above the pieces. The nodes of a piece stay where its
/// worker made them. `Beyond` is exactly
/// that of the upward pass. Where no thread can be made the workers run one after another.
pub fn plan_all<R: Threads + Sync, G: Gate>(
    rt: &R,
    alloc: Global,
    memo: &Memo,
    gate: &G,
    sinks: &[Sink],
    shape: &Shape,
    workers: u32,
) -> Result<Plan, UpEnd>
    requires some { 1 ≤ workers }
    requires few { workers ≤ 64 }
    requires sinks { AreSinksInRange sinks.now }
    requires shape { IsShapeOver (length sinks.now) shape.now }
    ensures plan { IfOk result (λ plan. IsPlan (params_of memo.now) sinks.now shape.now (nodes_of plan)) }
    ensures ends { IfErr result (Ends (params_of memo.now) sinks.now shape.now) }
{
    let nodes = shape.nodes();
    let work = Work { memo, sinks, nodes };
    let pieces = pieces_for(alloc, nodes, sinks.len(), workers)?;
    let done = make_pieces(rt, gate, alloc, &work, &pieces, workers)?;
    plan_of(alloc, &work, &pieces, done)
}
