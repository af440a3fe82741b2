//! The run of a replay over a book of changes.

ghost use Rattle.std.specs.Prelude.{◌≡◌, ◌<◌, All, IfOk, OnOk, length};
ghost use Rattle.cts_instance.specs.Validity.{IsValid, with_sinks};
ghost use Rattle.cts_edit.specs.Edits.{IsEdit, after};
ghost use Rattle.cts_undo.specs.Replay.{opening};
ghost use Rattle.cts_script.specs.Replays.{AreReplayed, IsReplayed};
ghost use Rattle.cts_undo.specs.Answers.{AreReplies, IsReplyTo, after_act, after_steps};
ghost use Rattle.cts_undo.specs.ReplayText.{IsPrintableReplay};

use crate::book::Book;
use crate::moved::Moved;
use crate::reply::ReplayReply;
use cts_edit::{Edit, EditReply, Entry};
use cts_history::Reply;
use cts_instance::Instance;
use cts_merge::Steps;
use cts_num::NoMemory;
use cts_plain::{NoTree, synthesise};
use cts_script::{Act, ReplayAct, ReplayStep};
use std::alloc::Global;
use std::marker::Brand;
use std::sync::ledger::{Blank, Ledger};

/// The number of the one caller.
pub const CALLER: u32 = 1;

/// What a replay leaves: the book of its changes, and the reply to each step.
#[derive(Drop)]
pub struct Replayed {
    pub book: Book,
    pub replies: Vec<ReplayReply>,
}

/// The reply to a change of the sinks.
fn change(
    book: &mut Book,
    instance: &Instance,
    line: u32,
    edit: Edit,
) -> Result<ReplayReply, NoMemory>
    requires instance { instance.now ≡ book.old.base }
    requires within { IsEdit edit }
    ensures reply { IfOk result (IsReplyTo book.old line (ReplayAct.Step (Act.Change edit))) }
    ensures printable { IfOk result IsPrintableReplay }
    ensures state { OnOk result (book.new ≡ after_act book.old line (ReplayAct.Step (Act.Change edit))) }
{
    let entry = Entry {
        caller: CALLER,
        line,
        edit,
    };
    match book.change(instance, entry) {
        EditReply::NoMemory => Err(NoMemory),
        reply => Ok(ReplayReply::Answered(Reply::Edited { line, reply })),
    }
}

/// The instance of a book with the sinks after the changes that are done.
pub fn version_after(alloc: Global, book: &Book, instance: &Instance) -> Result<Instance, NoMemory>
    requires { instance.now ≡ book.now.base }
    ensures version { IfOk result (λ version. version ≡ with_sinks instance.now (after instance.now.sinks book.now.done)) }
    ensures valid { IfOk result IsValid }
{
    instance.with_sinks(alloc, book.sinks().to_vec(alloc)?)
}

/// The reply to a draw where so many changes are done: the synthesis of the sinks after them.
fn draw<L: Ledger>(
    alloc: Global,
    book: &Book,
    instance: &Instance,
    line: u32,
    version: u32,
    merges: &mut Steps<L>,
) -> Result<ReplayReply, NoMemory>
    requires instance { instance.now ≡ book.now.base }
    requires version { version ≡ length book.now.done }
    ensures reply { IfOk result (IsReplyTo book.now line (ReplayAct.Step Act.Draw)) }
    ensures printable { IfOk result IsPrintableReplay }
{
    let now = version_after(alloc, book, instance)?;
    match synthesise(alloc, &now, merges) {
        Ok((_, figures)) => Ok(ReplayReply::Answered(Reply::Drew {
            line,
            version,
            skew: figures.skew,
            wire: figures.wire_total,
        })),
        Err(NoTree::NoMemory) => Err(NoMemory),
        Err(why) => Ok(ReplayReply::Answered(Reply::NoTree { line, version, why })),
    }
}

/// The reply to an undo.
fn undo(book: &mut Book, line: u32) -> Result<ReplayReply, NoMemory>
    ensures reply { IfOk result (IsReplyTo book.old line ReplayAct.Undo) }
    ensures printable { IfOk result IsPrintableReplay }
    ensures state { OnOk result (book.new ≡ after_act book.old line ReplayAct.Undo) }
{
    match book.undo() {
        Moved::Done { version } => Ok(ReplayReply::Undone { line, version }),
        Moved::Empty { version } => Ok(ReplayReply::Nothing { line, version }),
        Moved::NoMemory => Err(NoMemory),
    }
}

/// The reply to a redo.
fn redo(book: &mut Book, line: u32) -> Result<ReplayReply, NoMemory>
    ensures reply { IfOk result (IsReplyTo book.old line ReplayAct.Redo) }
    ensures printable { IfOk result IsPrintableReplay }
    ensures state { OnOk result (book.new ≡ after_act book.old line ReplayAct.Redo) }
{
    match book.redo() {
        Moved::Done { version } => Ok(ReplayReply::Redone { line, version }),
        Moved::Empty { version } => Ok(ReplayReply::Nothing { line, version }),
        Moved::NoMemory => Err(NoMemory),
    }
}

/// The reply to a step where so many changes are done.
fn answer<L: Ledger>(
    alloc: Global,
    book: &mut Book,
    instance: &Instance,
    step: ReplayStep,
    version: u32,
    merges: &mut Steps<L>,
) -> Result<ReplayReply, NoMemory>
    requires instance { instance.now ≡ book.old.base }
    requires within { IsReplayed step.act }
    requires version { version ≡ length book.old.done }
    ensures reply { IfOk result (IsReplyTo book.old step.line step.act) }
    ensures printable { IfOk result IsPrintableReplay }
    ensures state { OnOk result (book.new ≡ after_act book.old step.line step.act) }
{
    match step.act {
        ReplayAct::Step(Act::Change(edit)) => change(book, instance, step.line, edit),
        ReplayAct::Step(Act::Draw) => draw(alloc, book, instance, step.line, version, merges),
        ReplayAct::Undo => undo(book, step.line),
        ReplayAct::Redo => redo(book, step.line),
    }
}

/// Goes through the steps with a counter of merges of its own.
fn replay_counted<L: Ledger>(
    alloc: Global,
    blank: Blank,
    instance: &Instance,
    asked: &[ReplayStep],
) -> Result<Replayed, NoMemory>
    requires name { blank.name ≡ L.name }
    requires parts { blank.parts ≡ L.parts }
    requires some { 0 < L.parts }
    requires within { AreReplayed asked.now }
    ensures state { IfOk result (λ r. r.book ≡ after_steps (opening instance.now) asked.now) }
    ensures replies { IfOk result (λ r. AreReplies (opening instance.now) asked.now r.replies.items) }
    ensures printable { IfOk result (λ r. All IsPrintableReplay r.replies.items) }
{
    let mut merges = Steps::<L>::open(blank);
    let mut book = Book::start(alloc, instance)?;
    let mut replies = Vec::with_capacity(alloc, asked.len())?;
    let mut version = 0;
    for index in 0..asked.len() {
        let step = asked[index];
        let reply = answer(alloc, &mut book, instance, step, version, &mut merges)?;
        version = reply.version();
        replies.push(reply)?;
    }
    Ok(Replayed { book, replies })
}

/// Goes through the steps in their order, and gives the reply to each.
///
/// Each reply is the one to its step after the changes that are done before it: a change is judged after
/// them, a draw is the synthesis of the sinks after them, and an undo or a redo says whether there was
/// something to undo or redo. `NoMemory` where an allocation fails.
pub fn replay(
    alloc: Global,
    instance: &Instance,
    asked: &[ReplayStep],
) -> Result<Replayed, NoMemory>
    requires { AreReplayed asked.now }
    ensures state { IfOk result (λ r. r.book ≡ after_steps (opening instance.now) asked.now) }
    ensures replies { IfOk result (λ r. AreReplies (opening instance.now) asked.now r.replies.items) }
    ensures printable { IfOk result (λ r. All IsPrintableReplay r.replies.items) }
{
    replay_counted::<Brand>(alloc, Blank::new(1), instance, asked)
}
