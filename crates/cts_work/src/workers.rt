//! Workers that make the pieces of a shape beside each other.

ghost use Rattle.std.specs.Prelude.{◌≡◌, ◌+◌, ◌<◌, ◌≤◌, [], length, All, IfOk, IfErr};
ghost use Rattle.cts_deal.specs.Hands.{IsHandOf, drawn_by, share_of};
ghost use Rattle.cts_work.specs.Work.{AreMade, EndsIn, IsPart, IsReady, work_of};
ghost use Rattle.cts_work.specs.Done.{AreOnce, ArePieces, AreTogether, Covers, IsDone, IsShift, IsTeam, numbers_of};
ghost use denote.Param.Send.{IsSync};

use crate::gate::Gate;
use crate::making::make_part;
use crate::pieces::Piece;
use crate::work::Work;
use cts_beside::beside;
use cts_deal::{Deal, Hand};
use cts_memo::Memo;
use cts_memo::laws::memo_is_shared;
use cts_merge::{Finished, Steps};
use cts_num::NoMemory;
use cts_topo::ShapeNode;
use cts_units::Sink;
use cts_up::UpEnd;
use std::alloc::Global;
use std::marker::Brand;
use std::sync::ledger::{Blank, Ledger};
use std::thread::Threads;

/// What became of the piece of a number.
#[derive(Drop)]
pub(crate) struct Done {
    pub(crate) number: u32,
    pub(crate) made: Result<Vec<Finished>, UpEnd>,
}

/// A piece, whose merges this counter counts.
fn make_counted<L: Ledger>(
    work: &Work<'_>,
    alloc: Global,
    piece: Piece,
    blank: Blank,
) -> Result<Vec<Finished>, UpEnd>
    requires name { blank.name ≡ L.name }
    requires parts { blank.parts ≡ L.parts }
    requires some { 0 < L.parts }
    requires ready { IsReady work.now }
    requires part { IsPart work.now.nodes.now piece.first piece.root }
    ensures long { IfOk result (λ made. piece.first + length made.items ≡ piece.root + 1) }
    ensures made { IfOk result (λ made. AreMade work.now piece.first made.items) }
    ensures ends { IfErr result (EndsIn work.now piece.first piece.root) }
{
    let mut steps = Steps::<L>::open(blank);
    make_part(work, alloc, piece.first, piece.root, &mut steps)
}

/// What the nodes of a piece are.
fn make_piece(work: &Work<'_>, alloc: Global, piece: Piece) -> Result<Vec<Finished>, UpEnd>
    requires ready { IsReady work.now }
    requires part { IsPart work.now.nodes.now piece.first piece.root }
    ensures long { IfOk result (λ made. piece.first + length made.items ≡ piece.root + 1) }
    ensures made { IfOk result (λ made. AreMade work.now piece.first made.items) }
    ensures ends { IfErr result (EndsIn work.now piece.first piece.root) }
{
    make_counted::<Brand>(work, alloc, piece, Blank::new(1))
}

/// Makes pieces, each of the next number that nobody drew yet, until none is left.
fn run_worker<G: Gate>(
    gate: &G,
    alloc: Global,
    work: &Work<'_>,
    pieces: &[Piece],
    deal: &Deal,
    hand: &mut Hand,
) -> Result<Vec<Done>, NoMemory>
    requires ready { IsReady work.now }
    requires pieces { ArePieces work.now.nodes.now pieces.now }
    requires hand { IsHandOf deal.now hand.old }
    requires none { drawn_by hand.old ≡ [] }
    ensures hand { IsHandOf deal.now hand.new }
    ensures share { share_of hand.new ≡ share_of hand.old }
    ensures done { IfOk result (λ done. All (IsDone work.now pieces.now) done.items) }
    ensures drawn { IfOk result (λ done. Covers (length pieces.now) (drawn_by hand.new) (numbers_of done.items)) }
{
    let mut done = Vec::new(alloc);
    loop {
        let number = deal.draw(hand);
        let Some(piece) = pieces.get(number as usize) else {
            return Ok(done);
        };
        gate.piece(number);
        let made = make_piece(work, alloc, *piece);
        if matches!(&made, Err(UpEnd::NoMemory)) {
            return Err(NoMemory);
        }
        done.push(Done { number, made })?;
    }
}

/// What workers leave: what became of the pieces that they drew, and their hand.
#[derive(Drop)]
pub(crate) struct Shift {
    pub(crate) done: Result<Vec<Done>, NoMemory>,
    pub(crate) hand: Hand,
}

/// The pieces of both, unless one found no memory.
fn together(
    first: Result<Vec<Done>, NoMemory>,
    second: Result<Vec<Done>, NoMemory>,
) -> Result<Vec<Done>, NoMemory>
    ensures { IfOk result (AreTogether first second) }
{
    let mut all = first?;
    let mut rest = second?;
    all.append(&mut rest)?;
    Ok(all)
}

/// Lets so many workers draw pieces, each in a thread of its own where one can be made.
#[cycle(shifts)]
fn run_workers<R: Threads + Sync, G: Gate>(
    rt: &R,
    gate: &G,
    alloc: Global,
    memo: &Memo,
    sinks: &[Sink],
    nodes: &[ShapeNode],
    pieces: &[Piece],
    deal: &Deal,
    workers: u32,
    mut hand: Hand,
) -> Shift
    requires shared { IsSync R.row × IsSync G.row }
    requires team { IsTeam (work_of memo sinks nodes) pieces.now deal.now workers hand }
    ensures { IsShift (work_of memo.entry sinks.entry nodes.entry) pieces.now deal.now hand result }
{
    if workers < 2 {
        let work = Work { memo, sinks, nodes };
        let done = run_worker(gate, alloc, &work, pieces, deal, &mut hand);
        return Shift { done, hand };
    }
    let (here, there) = (workers - workers / 2, workers / 2);
    let (first, second) = deal.split(hand);
    let front = move || -> Shift
        requires { IsSync R.row × IsSync G.row × IsTeam (work_of memo sinks nodes) pieces.now deal.now here first }
        ensures { IsShift (work_of memo.entry sinks.entry nodes.entry) pieces.entry.now deal.entry.now first result }
    {
        run_workers(
            rt, gate, alloc, memo, sinks, nodes, pieces, deal, here, first,
        )
    };
    let back = move || -> Shift
        requires { IsSync R.row × IsSync G.row × IsTeam (work_of memo sinks nodes) pieces.now deal.now there second }
        ensures { IsShift (work_of memo.entry sinks.entry nodes.entry) pieces.entry.now deal.entry.now second result }
    {
        run_workers(
            rt, gate, alloc, memo, sinks, nodes, pieces, deal, there, second,
        )
    };
    memo_is_shared();
    let (a, b) = beside(rt, front, back);
    Shift {
        done: together(a.done, b.done),
        hand: deal.join(a.hand, b.hand),
    }
}

/// What became of the pieces, each of which one of so many workers drew.
pub(crate) fn make_pieces<R: Threads + Sync, G: Gate>(
    rt: &R,
    gate: &G,
    alloc: Global,
    work: &Work<'_>,
    pieces: &[Piece],
    workers: u32,
) -> Result<Vec<Done>, NoMemory>
    requires ready { IsReady work.now }
    requires pieces { ArePieces work.now.nodes.now pieces.now }
    requires some { 1 ≤ workers }
    requires few { workers ≤ 64 }
    ensures done { IfOk result (λ done. All (IsDone work.now pieces.now) done.items) }
    ensures once { IfOk result (λ done. AreOnce (length pieces.now) (numbers_of done.items)) }
{
    let (deal, hand) = Deal::start(alloc)?;
    let (memo, sinks, nodes) = (work.memo, work.sinks, work.nodes);
    let Shift { done, hand } = run_workers(
        rt, gate, alloc, memo, sinks, nodes, pieces, &deal, workers, hand,
    );
    deal.close(hand);
    done
}
