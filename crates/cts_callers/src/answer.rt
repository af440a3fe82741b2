//! One caller, who goes through a script.

ghost use Rattle.std.specs.Prelude.{◌≡◌, ◌≤◌, ◌<◌, ◌+◌, [], ◌∷◌, ℕ, length, Some, IfOk};
ghost use Rattle.cts_design.specs.Edits.{IsEdit};
ghost use Rattle.cts_script.specs.Steps.{IsAct};
ghost use Rattle.cts_session.specs.Desks.{base_of};
ghost use Rattle.cts_session.specs.Sessions.{edits_of};
ghost use Rattle.cts_history.specs.Legal.{IsAnswered, accepted};
ghost use Rattle.cts_history.specs.Replies.{IsReply, accepted_version, version_of};
ghost use Rattle.cts_callers.specs.Turns.{IsNext, Keeps};

use cts_design::{Edit, EditReply};
use cts_history::Reply;
use cts_merge::Steps;
use cts_num::NoMemory;
use cts_script::{Act, Script, ScriptStep};
use cts_session::{Session, TreeEnd, VersionTotals};
use cts_work::Gate;
use std::alloc::Global;
use std::sync::Wait;
use std::sync::ledger::Ledger;

/// The reply to a change of the sinks.
fn change<R: Wait>(
    rt: &R,
    session: &mut Session<'_>,
    line: u32,
    edit: Edit,
) -> Result<Reply, NoMemory>
    requires { IsEdit edit }
    ensures desk { session.new.desk ≡ session.old.desk }
    ensures next { IfOk result (IsNext session.old session.new (record { line = line; act = Act.Change edit })) }
{
    match session.edit(rt, line, edit) {
        EditReply::NoMemory => Err(NoMemory),
        reply => Ok(Reply::Edited { line, reply }),
    }
}

/// The reply to a draw.
fn draw<L: Ledger, R: Wait, G: Gate>(
    rt: &R,
    alloc: Global,
    session: &mut Session<'_>,
    gate: &G,
    line: u32,
    steps: &mut Steps<L>,
) -> Result<Reply, NoMemory>
    ensures desk { session.new.desk ≡ session.old.desk }
    ensures next { IfOk result (IsNext session.old session.new (record { line = line; act = Act.Draw })) }
{
    match session.totals(rt, alloc, gate, steps) {
        Ok(VersionTotals { version, totals }) => Ok(Reply::Drew {
            line,
            version,
            skew: totals.skew,
            wire: totals.wire,
        }),
        Err(TreeEnd::None { version, why }) => Ok(Reply::NoTree { line, version, why }),
        Err(TreeEnd::NoMemory) => Err(NoMemory),
    }
}

/// The reply to a step.
fn answer<L: Ledger, R: Wait, G: Gate>(
    rt: &R,
    alloc: Global,
    session: &mut Session<'_>,
    gate: &G,
    step: ScriptStep,
    steps: &mut Steps<L>,
) -> Result<Reply, NoMemory>
    requires { IsAct step.act }
    ensures desk { session.new.desk ≡ session.old.desk }
    ensures next { IfOk result (IsNext session.old session.new step) }
{
    match step.act {
        Act::Change(edit) => change(rt, session, step.line, edit),
        Act::Draw => draw(rt, alloc, session, gate, step.line, steps),
    }
}

/// Goes through a script in its order, and gives the reply to each of its steps.
pub(crate) fn go_through<L: Ledger, R: Wait, G: Gate>(
    rt: &R,
    alloc: Global,
    session: &mut Session<'_>,
    gate: &G,
    script: &Script,
    steps: &mut Steps<L>,
) -> Result<Vec<Reply>, NoMemory>
    ensures desk { session.new.desk ≡ session.old.desk }
    ensures keeps { IfOk result (λ replies. Keeps session.old session.new (length (accepted replies.items))) }
    ensures answered { IfOk result (λ replies. IsAnswered (base_of session.old.desk) (edits_of session.new) session.old.caller script.now replies.items) }
{
    let asked = script.steps();
    let mut replies = Vec::with_capacity(alloc, asked.len())?;
    for index in 0..asked.len() {
        let reply = answer(rt, alloc, session, gate, asked[index], steps)?;
        replies.push(reply)?;
    }
    Ok(replies)
}
