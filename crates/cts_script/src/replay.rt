//! Scripts of one caller who undoes and redoes its changes.

ghost use Rattle.std.specs.Prelude.{◌≡◌, ◌<◌, ◌≤◌, [], length, Ok, IfOk, IfErr, IfSome};
ghost use Rattle.cts_read.specs.Grammar.{Finds, Gives, Refuses, item_at, left_in};
ghost use Rattle.cts_read.specs.Lines.{words_of};
ghost use Rattle.cts_script.specs.Replays.{AreReplayed, IsReplayed, alone_fault, alone_of, mover_of, moved_by, moving_of, replay_at, replay_line, replay_of, replay_step_at, replay_steps_at, stepped, with_line};

use crate::plain::plain_step;
use crate::script::Act;
use crate::step::{ScriptLine, callers_of, is_digits, limited, line_of};
use cts_instance::{Fault, Item};
use cts_io::Lines;
use cts_read::fields::{number, refuse};
use cts_read::{
    Cause, ReadStop, at_line, count_words, is_printable, line_left, none_left, word_at,
};
use std::alloc::Global;

/// What a step of a replay asks for.
#[derive(Clone, Copy, Debug, PartialEq, Eq)]
pub enum ReplayAct {
    /// What a step of any script may ask for.
    Step(Act),
    /// The last change that is done is to be undone.
    Undo,
    /// The change that was undone last is to be made again.
    Redo,
}

/// A step of a replay, and the number of its line.
#[derive(Clone, Copy, Debug, PartialEq, Eq)]
pub struct ReplayStep {
    pub line: u32,
    pub act: ReplayAct,
}

/// `Range{Callers}` where there is not one caller.
#[tactic(auto, unfolding(crate::specs::Replays::alone_fault))]
fn alone_fault(callers: u32) -> Option<Fault>
    ensures { result ≡ alone_fault callers }
{
    if callers == 1 {
        None
    } else {
        Some(Fault::Range {
            item: Item::Callers,
        })
    }
}

/// The first line, which says that there is one caller.
#[tactic(auto, unfolding(crate::specs::Replays::alone_of))]
fn alone_of(line: &[u8]) -> Result<(), Cause>
    ensures { result ≡ alone_of line.now }
{
    let callers = callers_of(line)?;
    refuse(alone_fault(callers))
}

/// What a word asks for that is `undo` or `redo`.
#[tactic(auto, unfolding(crate::specs::Replays::moved_by))]
fn moved_by(word: &[u8]) -> Option<ReplayAct>
    ensures moved { result ≡ moved_by word.now }
    ensures within { IfSome result IsReplayed }
{
    if word == b"undo".as_slice() {
        Some(ReplayAct::Undo)
    } else if word == b"redo".as_slice() {
        Some(ReplayAct::Redo)
    } else {
        None
    }
}

/// What a line asks for whose second word is `undo` or `redo` after a caller's number.
#[tactic(auto, unfolding(crate::specs::Replays::mover_of))]
fn mover_of(line: &[u8]) -> Option<ReplayAct>
    ensures moved { result ≡ mover_of (words_of line.now) }
    ensures within { IfSome result IsReplayed }
{
    let (caller, rest) = word_at(line)?;
    let (second, _) = word_at(rest)?;
    if is_digits(caller) {
        moved_by(second)
    } else {
        None
    }
}

/// A line that asks for an undo or a redo after so many other steps. It has two words, and the faults
/// of a step that asks for nothing else.
#[tactic(auto, unfolding(crate::specs::Replays::moving_of))]
fn moving_of(before: u32, line: &[u8], act: ReplayAct) -> Result<Option<ReplayAct>, Cause>
    requires { IsReplayed act }
    ensures read { result ≡ moving_of before (words_of line.now) act }
    ensures room { IfOk result (λ asked. IfSome asked (λ _. before < 65536)) }
    ensures within { IfOk result (λ asked. IfSome asked IsReplayed) }
{
    if count_words(line) != 2 {
        return Err(Cause::Count);
    }
    let (caller, _) = number(0, line)?;
    limited(1, before, caller, Some(Act::Draw))?;
    Ok(Some(act))
}

/// What a line of any script asks for; none at the end.
fn stepped(said: ScriptLine) -> Option<ReplayAct>
    ensures { result ≡ stepped said }
{
    match said {
        ScriptLine::End => None,
        ScriptLine::Step { act, .. } => Some(ReplayAct::Step(act)),
    }
}

/// What a line after the first one asks for, where so many steps came before it; none at the end.
#[tactic(auto, using(crate::proofs::PlainReplays::replay_of_step))]
fn replay_line(before: u32, line: &[u8]) -> Result<Option<ReplayAct>, Cause>
    ensures read { result ≡ replay_line before line.now }
    ensures room { IfOk result (λ act. IfSome act (λ _. before < 65536)) }
    ensures within { IfOk result (λ act. IfSome act IsReplayed) }
{
    match plain_step(1, before, line) {
        Some(said) => Ok(stepped(said)),
        None => any_replay_line(before, line),
    }
}

/// As [`replay_line`], word by word.
#[inline(never)]
#[tactic(auto, unfolding(crate::specs::Replays::replay_line))]
fn any_replay_line(before: u32, line: &[u8]) -> Result<Option<ReplayAct>, Cause>
    ensures read { result ≡ replay_line before line.now }
    ensures room { IfOk result (λ act. IfSome act (λ _. before < 65536)) }
    ensures within { IfOk result (λ act. IfSome act IsReplayed) }
{
    if !is_printable(line) {
        return Err(Cause::NotAscii);
    }
    match mover_of(line) {
        Some(act) => moving_of(before, line, act),
        None => Ok(stepped(line_of(1, before, line)?)),
    }
}

/// The step of a line.
fn with_line(line: u32, act: Option<ReplayAct>) -> Option<ReplayStep>
    ensures { result ≡ with_line line act }
{
    match act {
        None => None,
        Some(act) => Some(ReplayStep { line, act }),
    }
}

/// The next line: a step after so many others, or none at the end.
#[tactic(auto, unfolding(crate::specs::Replays::replay_step_at))]
fn read_replay_step(lines: &mut Lines<'_>, before: u32) -> Result<Option<ReplayStep>, ReadStop>
    ensures read { Gives (λ x. x) result (left_in lines.new) (replay_step_at before (left_in lines.old)) }
    ensures room { IfOk result (λ step. IfSome step (λ _. before < 65536)) }
    ensures within { IfOk result (λ step. IfSome step (λ s. IsReplayed s.act)) }
{
    let (number, line) = line_left(lines)?;
    let act = at_line(number, replay_line(before, line))?;
    Ok(with_line(number, act))
}

/// The first line, which says that there is one caller.
#[tactic(auto, unfolding(cts_read::specs::Grammar::item_at))]
fn read_alone(lines: &mut Lines<'_>) -> Result<(), ReadStop>
    ensures { Gives (λ x. x) result (left_in lines.new) (item_at alone_of (left_in lines.old)) }
{
    let (number, line) = line_left(lines)?;
    at_line(number, alone_of(line))
}

/// The steps up to the end of the script.
fn read_replay_steps(alloc: Global, lines: &mut Lines<'_>) -> Result<Vec<ReplayStep>, ReadStop>
    ensures read { Gives (λ v. v.items) result (left_in lines.new) (replay_steps_at [] (left_in lines.old)) }
    ensures few { IfOk result (λ v. length v.items ≤ 65536) }
    ensures within { IfOk result (λ v. AreReplayed v.items) }
{
    let mut steps = Vec::new(alloc);
    while let Some(step) = read_replay_step(lines, steps.len() as u32)? {
        steps.push(step)?;
    }
    Ok(steps)
}

/// Reads the script of a replay, which is all that is left of an input after `lines` lines.
///
/// - `Ok`: exactly where the lines are those of a script of one caller, where a step may be an undo or a
///   redo too, each line that is not skipped against the next line of the grammar. It has the steps in
///   the order of their lines.
/// - `Refused`: exactly the first line that offends, counted from `lines + 1` on, with its first cause.
/// - `NoMemory`: an allocation failed.
///
/// It takes time and memory in proportion to the bytes.
#[tactic(auto, unfolding(crate::specs::Replays::replay_at))]
pub fn read_replay(alloc: Global, bytes: &[u8], lines: u32) -> Result<Vec<ReplayStep>, ReadStop>
    requires bytes { length bytes.now ≤ 67108864 }
    requires lines { lines ≤ 67108864 }
    ensures read { IfOk result (λ steps. replay_of lines bytes.now ≡ Ok steps.items) }
    ensures refused { IfErr result (λ stop. Refuses stop (replay_of lines bytes.now)) }
    ensures few { IfOk result (λ steps. length steps.items ≤ 65536) }
    ensures within { IfOk result (λ steps. AreReplayed steps.items) }
{
    let mut left = Lines::new(bytes, lines);
    read_alone(&mut left)?;
    let steps = read_replay_steps(alloc, &mut left)?;
    none_left(&mut left)?;
    Ok(steps)
}
