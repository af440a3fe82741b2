//! Schedules that nobody would choose: pieces, nodes and callers that are held up. The answers are those of one thread.
//! Every gate goes on at a limit of turns, and counts that.

use crate::callers::{one_sink, short, tree_of};
use crate::compare::same;
use crate::gates::bit;
use crate::workers::agree_on_made;
use cts_callers::{Run, run_callers};
use cts_design::EditReply;
use cts_history::Reply;
use cts_script::read_script;
use cts_work::Gate;
use std::alloc::Global;
use std::sync::Wait;
use std::sync::atomic::{AtomicU64, Ordering};
use std::test::Fail;
use std::thread::{Threads, yield_now};

/// How often a gate looks before it lets a piece or a caller go.
const LIMIT: u32 = 10_000_000;

/// Waits until a condition holds, or counts that it gave up.
fn wait_for(given_up: &AtomicU64, word: &AtomicU64, bits: u64) {
    for _ in 0..LIMIT {
        if word.load(Ordering::SeqCst) & bits == bits {
            return;
        }
        yield_now();
    }
    given_up.fetch_add(1, Ordering::SeqCst);
}

/// A gate that holds whoever makes a subtree for 1,000 turns, before it is published.
#[derive(Drop)]
struct Slow {
    held: AtomicU64,
}

impl Gate for Slow {
    fn piece(&self, _number: u32) {}

    fn between(&self, _number: u32) {
        self.held.fetch_add(1, Ordering::SeqCst);
        for _ in 0..1_000u32 {
            yield_now();
        }
    }
}

#[test]
fn nodes_may_be_held_up(rt: HostRuntime) -> Result<(), Fail> {
    let gate = Slow {
        held: AtomicU64::new(0),
    };
    let agree = agree_on_made(&rt, rt.alloc(), &gate, 4)?;
    same(&rt, "the same plan", agree, true);
    assert!(rt; gate.held.load(Ordering::SeqCst) > 0);
    Ok(())
}

/// A gate that lets a caller begin once the next one has begun, and the last one at once.
#[derive(Drop)]
struct Falling {
    last: u32,
    begun: AtomicU64,
    given_up: AtomicU64,
}

impl Gate for Falling {
    fn piece(&self, number: u32) {
        if number < self.last {
            wait_for(&self.given_up, &self.begun, bit(number + 1));
        }
        self.begun.fetch_or(bit(number), Ordering::SeqCst);
    }

    fn between(&self, _number: u32) {}
}

/// The run of the callers of a script at the desk of one sink.
fn run_of<R: Threads + Wait + Sync, G: Gate>(
    rt: &R,
    alloc: Global,
    gate: &G,
    text: &[u8],
) -> Result<Run, Fail> {
    let scripts = read_script(alloc, short(text), 10)?;
    Ok(run_callers(rt, alloc, gate, one_sink(alloc)?, &scripts)?)
}

/// How many edits were accepted, how many sinks there are then, and the wire and the greatest delay of their tree.
fn end_of(run: &Run) -> (usize, usize, Option<(u64, u128)>) {
    (run.history.len(), run.sinks.len(), tree_of(&run.synthesis))
}

#[test]
fn callers_may_begin_in_falling_order(rt: HostRuntime) -> Result<(), Fail> {
    let gate = Falling {
        last: 4,
        begun: AtomicU64::new(0),
        given_up: AtomicU64::new(0),
    };
    let text = b"callers 4\n1 add 9 10 0 5\n2 add 9 10 0 5\n3 add 9 10 0 5\n4 add 9 10 0 5\nend\n";
    let run = run_of(&rt, rt.alloc(), &gate, text)?;
    let tree = Some((15_500, 294_500_000_000_000));
    same(&rt, "one edit, two sinks", end_of(&run), (1, 2, tree));
    let given_up = gate.given_up.load(Ordering::SeqCst);
    same(&rt, "no caller gave up", given_up, 0);
    Ok(())
}

/// A gate that holds caller 1 in the draw that it begins with until caller 2, who begins by then, has edited and draws.
#[derive(Drop)]
struct HeldDraw {
    drawing: AtomicU64,
    given_up: AtomicU64,
}

impl Gate for HeldDraw {
    fn piece(&self, number: u32) {
        if number == 2 {
            wait_for(&self.given_up, &self.drawing, bit(1));
        }
    }

    fn between(&self, number: u32) {
        self.drawing.fetch_or(bit(number), Ordering::SeqCst);
        if number == 1 {
            wait_for(&self.given_up, &self.drawing, bit(2));
        }
    }
}

/// The version and the wire of a step's reply, where it is a draw.
fn drawn(run: &Run, place: usize, step: usize) -> Option<(u32, u64)> {
    match run.replies.get(place)?.get(step)? {
        Reply::Drew { version, wire, .. } => Some((*version, *wire)),
        _ => None,
    }
}

/// The version of a step's reply, where it is an edit that was accepted.
fn accepted(run: &Run, place: usize, step: usize) -> Option<u32> {
    match run.replies.get(place)?.get(step)? {
        Reply::Edited {
            reply: EditReply::Accepted { version },
            ..
        } => Some(*version),
        _ => None,
    }
}

#[test]
fn a_draw_may_be_held_while_others_edit(rt: HostRuntime) -> Result<(), Fail> {
    let gate = HeldDraw {
        drawing: AtomicU64::new(0),
        given_up: AtomicU64::new(0),
    };
    let text = b"callers 2\n1 tree\n1 tree\n2 move 1 0 0\n2 tree\nend\n";
    let run = run_of(&rt, rt.alloc(), &gate, text)?;
    // The sink at (3, 4), before it is moved to the source.
    same(&rt, "held", drawn(&run, 0, 0), Some((0, 7_000)));
    same(&rt, "then", drawn(&run, 0, 1), Some((1, 0)));
    same(&rt, "moved", accepted(&run, 1, 0), Some(1));
    same(&rt, "meanwhile", drawn(&run, 1, 1), Some((1, 0)));
    let given_up = gate.given_up.load(Ordering::SeqCst);
    same(&rt, "no caller gave up", given_up, 0);
    Ok(())
}
