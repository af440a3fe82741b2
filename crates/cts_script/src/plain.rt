//! The line of a step in its plainest form, read in one pass over its bytes.

ghost use Rattle.std.specs.Prelude.{◌≡◌, ◌++◌, codes, length, true, Ok, IfSome};
ghost use Rattle.cts_read.specs.Lines.{words_of};
ghost use Rattle.cts_script.specs.Plain.{BeginsWithDigits, IsPlainAct, IsPlainCaller, IsPlainKind};
ghost use Rattle.cts_script.specs.Steps.{IsAct, IsLine, line_of};

use crate::script::Act;
use crate::step::{ScriptLine, StepKind, added, limited, loaded, moved, removed};
use cts_read::plain_number;

/// What a line says that is a step without a fault whose words stand one space apart, where there are
/// so many callers and so many steps came before it. Other lines are not looked into any further.
#[tactic(auto, using(crate::proofs::PlainSteps::plain_line))]
pub fn plain_step(callers: u32, before: u32, line: &[u8]) -> Option<ScriptLine>
    ensures read { IfSome result (λ said. line_of callers before line.now ≡ Ok said) }
    ensures within { IfSome result (IsLine before) }
{
    let (caller, rest) = plain_caller(line)?;
    let (kind, rest) = plain_kind(rest)?;
    let act = plain_act(kind, rest)?;
    limited(callers, before, caller, Some(act)).ok()
}

/// The number of a caller that has one digit or two, and what follows it and a space.
#[inline(always)]
fn plain_caller(line: &[u8]) -> Option<(u64, &[u8])>
    ensures { IfSome result (λ found. IsPlainCaller line.now found.0 found.1.now) }
{
    if !begins_with_digits(line) {
        return None;
    }
    let (caller, rest) = plain_number(line, 0)?;
    Some((caller, rest))
}

/// Whether a line begins with one digit or two and a space.
#[inline(always)]
fn begins_with_digits(line: &[u8]) -> bool
    ensures { result ≡ true → BeginsWithDigits (words_of line.now) }
{
    match line {
        [b'0'..=b'9', b' ', ..] => true,
        [b'0'..=b'9', b'0'..=b'9', b' ', ..] => true,
        _ => false,
    }
}

/// The kind that the first word names, and what follows that word and a space.
#[inline(always)]
fn plain_kind(bytes: &[u8]) -> Option<(StepKind, &[u8])>
    ensures { IfSome result (λ found. IsPlainKind bytes.now found.0 found.1.now) }
{
    if let Some(rest) = after_add(bytes) {
        Some((StepKind::Add, rest))
    } else if let Some(rest) = after_remove(bytes) {
        Some((StepKind::Remove, rest))
    } else if let Some(rest) = after_move(bytes) {
        Some((StepKind::Move, rest))
    } else if let Some(rest) = after_cap(bytes) {
        Some((StepKind::Cap, rest))
    } else {
        let rest = after_tree(bytes)?;
        Some((StepKind::Tree, rest))
    }
}

/// What follows `add` and a space.
#[inline(always)]
fn after_add(bytes: &[u8]) -> Option<&[u8]>
    ensures { IfSome result (λ rest. bytes.now ≡ codes "add " ++ rest.now) }
{
    match bytes {
        [b'a', b'd', b'd', b' ', rest @ ..] => Some(rest),
        _ => None,
    }
}

/// What follows `remove` and a space.
#[inline(always)]
fn after_remove(bytes: &[u8]) -> Option<&[u8]>
    ensures { IfSome result (λ rest. bytes.now ≡ codes "remove " ++ rest.now) }
{
    match bytes {
        [b'r', b'e', b'm', b'o', b'v', b'e', b' ', rest @ ..] => Some(rest),
        _ => None,
    }
}

/// What follows `move` and a space.
#[inline(always)]
fn after_move(bytes: &[u8]) -> Option<&[u8]>
    ensures { IfSome result (λ rest. bytes.now ≡ codes "move " ++ rest.now) }
{
    match bytes {
        [b'm', b'o', b'v', b'e', b' ', rest @ ..] => Some(rest),
        _ => None,
    }
}

/// What follows `cap` and a space.
#[inline(always)]
fn after_cap(bytes: &[u8]) -> Option<&[u8]>
    ensures { IfSome result (λ rest. bytes.now ≡ codes "cap " ++ rest.now) }
{
    match bytes {
        [b'c', b'a', b'p', b' ', rest @ ..] => Some(rest),
        _ => None,
    }
}

/// What follows `tree`, which is nothing.
#[inline(always)]
fn after_tree(bytes: &[u8]) -> Option<&[u8]>
    ensures whole { IfSome result (λ rest. bytes.now ≡ codes "tree" ++ rest.now) }
    ensures none { IfSome result (λ rest. length rest.now ≡ 0) }
{
    match bytes {
        [b't', b'r', b'e', b'e', rest @ ..] if rest.is_empty() => Some(rest),
        _ => None,
    }
}

/// What a step of a kind asks for, by its numbers, which are all that is left of its line; none where
/// one of them is past its limit.
#[inline(always)]
fn plain_act(kind: StepKind, bytes: &[u8]) -> Option<Act>
    ensures read { IfSome result (IsPlainAct kind bytes.now) }
    ensures within { IfSome result IsAct }
{
    match kind {
        StepKind::Add => plain_add(bytes),
        StepKind::Remove => plain_remove(bytes),
        StepKind::Move => plain_move(bytes),
        StepKind::Cap => plain_cap(bytes),
        StepKind::Tree => plain_tree(bytes),
    }
}

/// A sink that is added.
#[inline(always)]
fn plain_add(bytes: &[u8]) -> Option<Act>
    ensures read { IfSome result (IsPlainAct StepKind.Add bytes.now) }
    ensures within { IfSome result IsAct }
{
    let (id, rest) = plain_number(bytes, 0)?;
    let (x, rest) = plain_number(rest, 3)?;
    let (y, rest) = plain_number(rest, 3)?;
    let (cap, rest) = plain_number(rest, 6)?;
    if rest.is_empty() {
        added(id, x, y, cap)
    } else {
        None
    }
}

/// A sink that is removed.
#[inline(always)]
fn plain_remove(bytes: &[u8]) -> Option<Act>
    ensures read { IfSome result (IsPlainAct StepKind.Remove bytes.now) }
    ensures within { IfSome result IsAct }
{
    let (id, rest) = plain_number(bytes, 0)?;
    if rest.is_empty() { removed(id) } else { None }
}

/// A sink that is moved.
#[inline(always)]
fn plain_move(bytes: &[u8]) -> Option<Act>
    ensures read { IfSome result (IsPlainAct StepKind.Move bytes.now) }
    ensures within { IfSome result IsAct }
{
    let (id, rest) = plain_number(bytes, 0)?;
    let (x, rest) = plain_number(rest, 3)?;
    let (y, rest) = plain_number(rest, 3)?;
    if rest.is_empty() {
        moved(id, x, y)
    } else {
        None
    }
}

/// A sink whose capacitance is set.
#[inline(always)]
fn plain_cap(bytes: &[u8]) -> Option<Act>
    ensures read { IfSome result (IsPlainAct StepKind.Cap bytes.now) }
    ensures within { IfSome result IsAct }
{
    let (id, rest) = plain_number(bytes, 0)?;
    let (cap, rest) = plain_number(rest, 6)?;
    if rest.is_empty() {
        loaded(id, cap)
    } else {
        None
    }
}

/// A tree of the sinks.
#[inline(always)]
fn plain_tree(bytes: &[u8]) -> Option<Act>
    ensures read { IfSome result (IsPlainAct StepKind.Tree bytes.now) }
    ensures within { IfSome result IsAct }
{
    if bytes.is_empty() {
        Some(Act::Draw)
    } else {
        None
    }
}
