//! A whole run of callers at one desk.

ghost use Rattle.std.specs.Prelude.{◌≡◌, ◌≤◌, ◌<◌, ◌+◌, ◌^◌, length, IfOk};
ghost use denote.Param.Send.{IsSync};
ghost use Rattle.cts_session.specs.Desks.{AreHandsOf, base_of, known_by};
ghost use Rattle.cts_callers.specs.Turns.{AreReady, AreServed};
ghost use Rattle.cts_callers.specs.Runs.{IsLastTree, IsRun};

use crate::callers::{Served, run_from};
use crate::secret::secret_of;
use cts_design::Entry;
use cts_elmore::Figures;
use cts_history::Reply;
use cts_instance::Instance;
use cts_memo::Table;
use cts_merge::Steps;
use cts_num::NoMemory;
use cts_plain::NoTree;
use cts_script::Script;
use cts_session::{Desk, Drawn, Hands, Session, TreeEnd};
use cts_tree::Tree;
use cts_units::Sink;
use cts_work::Gate;
use std::alloc::Global;
use std::marker::Brand;
use std::sync::Wait;
use std::sync::ledger::{Blank, Ledger};
use std::thread::Threads;

/// What a run of callers comes to: the history of their accepted edits, the replies to each of them, the
/// synthesis of the sinks after all edits, or why they have no tree, and the table of the memo that they
/// shared.
#[derive(Drop)]
pub struct Run {
    pub instance: Instance,
    pub history: Vec<Entry>,
    pub sinks: Vec<Sink>,
    pub replies: Vec<Vec<Reply>>,
    pub synthesis: Result<(Tree, Figures), NoTree>,
    pub table: Table,
}

/// The tree of the sinks after all edits, drawn by a session of its own, whose merges this counter counts.
fn draw_counted<L: Ledger, R: Wait, G: Gate>(
    rt: &R,
    alloc: Global,
    gate: &G,
    session: &mut Session<'_>,
    blank: Blank,
) -> Result<Result<(Tree, Figures), NoTree>, NoMemory>
    requires name { blank.name ≡ L.name }
    requires parts { blank.parts ≡ L.parts }
    requires some { 0 < L.parts }
    ensures desk { session.new.desk ≡ session.old.desk }
    ensures last { IfOk result (IsLastTree session.old session.new) }
{
    let mut steps = Steps::<L>::open(blank);
    match session.tree(rt, alloc, gate, &mut steps) {
        Ok(Drawn { tree, figures, .. }) => Ok(Ok((tree, figures))),
        Err(TreeEnd::None { why, .. }) => Ok(Err(why)),
        Err(TreeEnd::NoMemory) => Err(NoMemory),
    }
}

/// The tree of the sinks after all edits.
fn draw_last<R: Wait, G: Gate>(
    rt: &R,
    alloc: Global,
    gate: &G,
    session: &mut Session<'_>,
) -> Result<Result<(Tree, Figures), NoTree>, NoMemory>
    ensures desk { session.new.desk ≡ session.old.desk }
    ensures last { IfOk result (IsLastTree session.old session.new) }
{
    draw_counted::<Brand, R, G>(rt, alloc, gate, session, Blank::new(1))
}

/// The run of callers with these scripts at the desk of an instance. They are numbered from 1, and go
/// through their scripts beside each other, each in a thread of its own where one can be made.
///
/// Each reply is right at the history of all accepted edits, which has each caller's accepted edits once
/// and in their order. The synthesis is that of the sinks after all of them. `NoMemory` comes where an
/// allocation fails, of the callers too.
pub fn run_callers<R: Threads + Wait + Sync, G: Gate>(
    rt: &R,
    alloc: Global,
    gate: &G,
    instance: Instance,
    scripts: &[Script],
) -> Result<Run, NoMemory>
    requires some { 1 ≤ length scripts.now }
    requires few { length scripts.now ≤ 65536 }
    ensures { IfOk result (IsRun instance scripts.now) }
{
    let secret = secret_of(&instance, scripts);
    let (desk, hands) = Desk::start_seeded(alloc, instance, secret)?;
    let Served { replies, hands } = run_from(rt, alloc, gate, &desk, hands, 1, scripts);
    let replies = replies?;
    let mut session = Session::of(&desk, hands, 0);
    let synthesis = draw_last(rt, alloc, gate, &mut session)?;
    let hands = session.hands();
    match desk.close(hands) {
        Ok((instance, table, history, sinks)) => Ok(Run {
            instance,
            history,
            sinks,
            replies,
            synthesis,
            table,
        }),
        // All hands are joined, so their shares are whole.
        Err(_) => unreachable!(),
    }
}
