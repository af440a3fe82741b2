//! The lines of a script.

ghost use Rattle.std.specs.Prelude.{◌≡◌, ◌^◌, ◌<◌, ◌≤◌, ◌&&◌, pos, IfOk, IfSome};
ghost use Rattle.cts_edit.specs.declared.edit.Edit.TheVariants as edit;
ghost use Rattle.cts_read.specs.Grammar.{Finds, number_of, refuse};
ghost use Rattle.cts_read.specs.Lines.{words_of};
ghost use Rattle.cts_script.specs.Steps.{IsAct, IsCallerCount, IsLine, act_of, add_of, callers_fault, callers_of, cap_of, is_cap, is_coordinate, is_digits, is_id, kind_at, kind_of, limited, line_of, move_of, numbers_after, remove_of, said_by, step_of, where_within};
ghost use Rattle.cts_script.specs.declared.script.Act.TheVariants.{Change};

use crate::plain::plain_step;
use crate::script::{Act, ScriptStep};
use cts_edit::Edit;
use cts_instance::{Fault, Item};
use cts_read::fields::{fields, number, refuse};
use cts_read::{Cause, count_words, is_printable, word_at};
use cts_units::{MAX_CAPACITANCE, MAX_COORDINATE, MAX_ID};

/// The greatest number of callers.
const CALLERS: u64 = 16;

/// The greatest number of steps.
const STEPS: u32 = 65_536;

/// The greatest id of a sink.
const LAST_ID: u64 = MAX_ID as u64;

/// The greatest coordinate in nm.
const FARTHEST: u64 = MAX_COORDINATE as u64;

/// A kind of step, by the word after the caller's number.
#[derive(Clone, Copy)]
pub enum StepKind {
    Add,
    Remove,
    Move,
    Cap,
    Tree,
}

/// What a line after the first one says.
#[derive(Clone, Copy)]
pub enum ScriptLine {
    /// The script ends.
    End,
    /// A caller asks for something.
    Step { caller: u32, act: Act },
}

/// A step, and the caller that asks for it.
#[derive(Clone, Copy)]
pub struct Asked {
    pub caller: u32,
    pub step: ScriptStep,
}

/// `Range{Callers}` where the number of callers is not from 1 to 16.
#[tactic(auto, unfolding(crate::specs::Steps::callers_fault))]
fn callers_fault(callers: u64) -> Option<Fault>
    ensures { result ≡ callers_fault callers }
{
    if 1 <= callers && callers <= CALLERS {
        None
    } else {
        Some(Fault::Range {
            item: Item::Callers,
        })
    }
}

/// The first line, which says how many callers there are.
#[tactic(auto, unfolding(crate::specs::Steps::callers_of), using(crate::proofs::Limits::few_callers))]
pub fn callers_of(line: &[u8]) -> Result<u32, Cause>
    ensures read { result ≡ callers_of line.now }
    ensures few { IfOk result IsCallerCount }
{
    let rest = fields(b"callers", 1, line)?;
    let (callers, _) = number(0, rest)?;
    refuse(callers_fault(callers))?;
    Ok(callers as u32)
}

/// The kind of step that a word names.
#[tactic(auto, unfolding(crate::specs::Steps::kind_of))]
fn kind_of(word: &[u8]) -> Option<StepKind>
    ensures { result ≡ kind_of word.now }
{
    if word == b"add".as_slice() {
        Some(StepKind::Add)
    } else if word == b"remove".as_slice() {
        Some(StepKind::Remove)
    } else if word == b"move".as_slice() {
        Some(StepKind::Move)
    } else if word == b"cap".as_slice() {
        Some(StepKind::Cap)
    } else if word == b"tree".as_slice() {
        Some(StepKind::Tree)
    } else {
        None
    }
}

/// How many numbers follow the word of a kind.
fn numbers_after(kind: StepKind) -> usize
    ensures { result ≡ numbers_after kind }
{
    match kind {
        StepKind::Add => 4,
        StepKind::Remove => 1,
        StepKind::Move => 3,
        StepKind::Cap => 2,
        StepKind::Tree => 0,
    }
}

/// The kind of step, which so many words have to follow as it has numbers, and those words.
#[tactic(auto, unfolding(crate::specs::Steps::kind_at))]
fn kind_at(words: &[u8]) -> Result<(StepKind, &[u8]), Cause>
    ensures { Finds (λ x. (x.0, words_of x.1.now)) result (kind_at (words_of words.now)) }
{
    let Some((word, rest)) = word_at(words) else {
        return Err(Cause::Count);
    };
    match kind_of(word) {
        None => Err(Cause::Word),
        Some(kind) if count_words(rest) == numbers_after(kind) => Ok((kind, rest)),
        Some(_) => Err(Cause::Count),
    }
}

/// A sink of this id, place in nm and capacitance in zF is added; none where one is past its limit.
#[inline]
pub fn added(id: u64, x: u64, y: u64, cap: u64) -> Option<Act>
    ensures read { result ≡ where_within (is_id id && is_coordinate x && is_coordinate y && is_cap cap)
        (Change (edit.Add id (pos x) (pos y) cap)) }
    ensures within { IfSome result IsAct }
{
    if id <= LAST_ID && x <= FARTHEST && y <= FARTHEST && cap <= MAX_CAPACITANCE {
        Some(Act::Change(Edit::Add {
            id: id as u32,
            x: x as i64,
            y: y as i64,
            cap,
        }))
    } else {
        None
    }
}

/// The sink of this id is removed; none where it is past the limit.
#[inline]
pub fn removed(id: u64) -> Option<Act>
    ensures read { result ≡ where_within (is_id id) (Change (edit.Remove id)) }
    ensures within { IfSome result IsAct }
{
    if id <= LAST_ID {
        Some(Act::Change(Edit::Remove { id: id as u32 }))
    } else {
        None
    }
}

/// The sink of this id is moved to a place in nm; none where one is past its limit.
#[inline]
pub fn moved(id: u64, x: u64, y: u64) -> Option<Act>
    ensures read { result ≡ where_within (is_id id && is_coordinate x && is_coordinate y)
        (Change (edit.Move id (pos x) (pos y))) }
    ensures within { IfSome result IsAct }
{
    if id <= LAST_ID && x <= FARTHEST && y <= FARTHEST {
        Some(Act::Change(Edit::Move {
            id: id as u32,
            x: x as i64,
            y: y as i64,
        }))
    } else {
        None
    }
}

/// The sink of this id gets a capacitance in zF; none where one is past its limit.
#[inline]
pub fn loaded(id: u64, cap: u64) -> Option<Act>
    ensures read { result ≡ where_within (is_id id && is_cap cap) (Change (edit.SetCap id cap)) }
    ensures within { IfSome result IsAct }
{
    if id <= LAST_ID && cap <= MAX_CAPACITANCE {
        Some(Act::Change(Edit::SetCap { id: id as u32, cap }))
    } else {
        None
    }
}

/// The id, the place in nm and the capacitance in zF of a sink that is added; none where one is past
/// its limit.
#[tactic(auto, unfolding(crate::specs::Steps::add_of))]
fn add_of(words: &[u8]) -> Result<Option<Act>, Cause>
    ensures read { result ≡ add_of (words_of words.now) }
    ensures within { IfOk result (λ act. IfSome act IsAct) }
{
    let (id, rest) = number(0, words)?;
    let (x, rest) = number(3, rest)?;
    let (y, rest) = number(3, rest)?;
    let (cap, _) = number(6, rest)?;
    Ok(added(id, x, y, cap))
}

/// The id of a sink that is removed; none where it is past the limit.
#[tactic(auto, unfolding(crate::specs::Steps::remove_of))]
fn remove_of(words: &[u8]) -> Result<Option<Act>, Cause>
    ensures read { result ≡ remove_of (words_of words.now) }
    ensures within { IfOk result (λ act. IfSome act IsAct) }
{
    let (id, _) = number(0, words)?;
    Ok(removed(id))
}

/// The id of a sink that is moved, and its place in nm; none where one is past its limit.
#[tactic(auto, unfolding(crate::specs::Steps::move_of))]
fn move_of(words: &[u8]) -> Result<Option<Act>, Cause>
    ensures read { result ≡ move_of (words_of words.now) }
    ensures within { IfOk result (λ act. IfSome act IsAct) }
{
    let (id, rest) = number(0, words)?;
    let (x, rest) = number(3, rest)?;
    let (y, _) = number(3, rest)?;
    Ok(moved(id, x, y))
}

/// The id of a sink and its new capacitance in zF; none where one is past its limit.
#[tactic(auto, unfolding(crate::specs::Steps::cap_of))]
fn cap_of(words: &[u8]) -> Result<Option<Act>, Cause>
    ensures read { result ≡ cap_of (words_of words.now) }
    ensures within { IfOk result (λ act. IfSome act IsAct) }
{
    let (id, rest) = number(0, words)?;
    let (cap, _) = number(6, rest)?;
    Ok(loaded(id, cap))
}

/// What a step of a kind asks for; none where one of its numbers is past its limit.
#[tactic(auto, unfolding(crate::specs::Steps::act_of))]
fn act_of(kind: StepKind, words: &[u8]) -> Result<Option<Act>, Cause>
    ensures read { result ≡ act_of kind (words_of words.now) }
    ensures within { IfOk result (λ act. IfSome act IsAct) }
{
    match kind {
        StepKind::Add => add_of(words),
        StepKind::Remove => remove_of(words),
        StepKind::Move => move_of(words),
        StepKind::Cap => cap_of(words),
        StepKind::Tree => Ok(Some(Act::Draw)),
    }
}

/// A step after so many others, where there is room for it, there is such a caller, and its numbers are
/// within their limits.
#[tactic(auto, unfolding(crate::specs::Steps::limited))]
pub fn limited(
    callers: u32,
    before: u32,
    caller: u64,
    act: Option<Act>,
) -> Result<ScriptLine, Cause>
    requires { IfSome act IsAct }
    ensures read { result ≡ limited callers before caller act }
    ensures within { IfOk result (IsLine before) }
{
    if before >= STEPS {
        return Err(Cause::Fault(Fault::TooMany {
            item: Item::Step(STEPS),
        }));
    }
    match act {
        Some(act) if 1 <= caller && caller <= u64::from(callers) => Ok(ScriptLine::Step {
            caller: caller as u32,
            act,
        }),
        _ => Err(Cause::Fault(Fault::Range {
            item: Item::Step(before),
        })),
    }
}

/// A step of this line, whose first word comes before `rest`.
#[tactic(auto, unfolding(crate::specs::Steps::step_of))]
fn step_of(callers: u32, before: u32, line: &[u8], rest: &[u8]) -> Result<ScriptLine, Cause>
    ensures read { result ≡ step_of callers before (words_of line.now) (words_of rest.now) }
    ensures within { IfOk result (IsLine before) }
{
    let (kind, numbers) = kind_at(rest)?;
    let (caller, _) = number(0, line)?;
    let act = act_of(kind, numbers)?;
    limited(callers, before, caller, act)
}

/// Whether a word has digits alone.
pub fn is_digits(word: &[u8]) -> bool
    ensures { result ≡ is_digits word.now }
{
    word.iter().all(|byte| byte.is_ascii_digit())
}

/// What a line after the first one says, where there are so many callers and so many steps came before
/// it.
pub fn line_of(callers: u32, before: u32, line: &[u8]) -> Result<ScriptLine, Cause>
    ensures read { result ≡ line_of callers before line.now }
    ensures within { IfOk result (IsLine before) }
{
    match plain_step(callers, before, line) {
        Some(said) => Ok(said),
        None => any_line(callers, before, line),
    }
}

/// As [`line_of`], word by word.
#[inline(never)]
#[tactic(auto, unfolding(crate::specs::Steps::line_of, crate::specs::Steps::said_by))]
fn any_line(callers: u32, before: u32, line: &[u8]) -> Result<ScriptLine, Cause>
    ensures read { result ≡ line_of callers before line.now }
    ensures within { IfOk result (IsLine before) }
{
    if !is_printable(line) {
        return Err(Cause::NotAscii);
    }
    match word_at(line) {
        None => Err(Cause::Word),
        Some((word, rest)) if word == b"end".as_slice() => {
            if count_words(rest) == 0 {
                Ok(ScriptLine::End)
            } else {
                Err(Cause::Count)
            }
        }
        Some((word, rest)) if is_digits(word) => step_of(callers, before, line, rest),
        Some(_) => Err(Cause::Word),
    }
}
