//! The line of a node.

ghost use Rattle.std.specs.Prelude.{◌≡◌, ℕ, ◌+◌, ◌^◌, ◌<◌, ◌≤◌, ◌∷◌, length, drop, reverse, All, Some, IfSome, IfOk, OnOk};
ghost use Rattle.cts_postorder.specs.Stack.{stack_after};
ghost use Rattle.cts_report_reader.specs.Bounds.{children_of_kind};
ghost use Rattle.cts_report_reader.specs.NodeLine.{joins_stack, buffer_at, leaf_at, node_at, node_rest_at, pair_at};
ghost use Rattle.cts_report.specs.Printed.{sink_leaf};
ghost use Rattle.cts_report_reader.specs.Nodes.{IsSeenNode, seen_arrival, seen_buffer, seen_kind, seen_node, seen_tail};
ghost use Rattle.cts_report_reader.specs.Seen.{FindsIn, IsSeen};
ghost use Rattle.cts_report_reader.specs.Words.{Finds, arrival_at, same, tail_at};

use crate::form::{Form, tells_arrivals};
use crate::points::{corners, place};
use crate::words::{after_word, bounded, labelled};
use cts_geom::Half;
use cts_num::NoMemory;
use cts_tree::Corners;
use cts_units::{MAX_ID, MAX_LENGTH};
use std::alloc::Global;

// The greatest id of a sink.
const LAST_ID: u64 = MAX_ID as u64;

// The greatest number of a type of 32 bits.
const MOST: u64 = 4_294_967_295;

/// What a node of a report is.
#[derive(Clone, Copy, Debug, PartialEq, Eq)]
pub enum ReportKind {
    /// A sink, by its id.
    Leaf {
        id: u32,
    },
    /// A sink, by its id, whose arrival in 10^-16 ps is told, as a report of version 2 does.
    TimedLeaf {
        id: u32,
        arrival: u128,
    },
    /// A pair of two parts, by the numbers of their roots, the index of its buffer in the library, if
    /// it has one, and its residue in 10^-16 ps.
    Pair {
        left: u32,
        right: u32,
        buffer: Option<u16>,
        residue: u128,
    },
}

/// A node of a report.
#[derive(Drop)]
pub struct ReportNode {
    pub kind: ReportKind,
    /// Its place in half nm.
    pub place: Half,
    /// The load below it in zF.
    pub load: u128,
    /// The delay at its place in 10^-16 ps.
    pub delay: u128,
    /// The slew at its place in 10^-16 ps.
    pub slew: u128,
    /// The length of the wire above it in nm.
    pub wire: u32,
    /// The corners of the route above it.
    pub corners: Corners,
}

/// What the line of every node ends with.
#[derive(Drop)]
pub struct Tail {
    delay: u128,
    arrival: Option<u128>,
    slew: u128,
    wire: u32,
    corners: Corners,
}

/// An arrival, where it is told.
#[tactic(auto, unfolding(crate::specs::Words::arrival_at))]
#[inline(always)]
fn arrival(told: bool, bytes: &[u8]) -> Option<(Option<u128>, &[u8])>
    ensures { Finds same result (arrival_at told bytes.now) }
{
    if !told {
        return Some((None, bytes));
    }
    let (arrival, rest) = labelled(bytes, b" arrival ", 16)?;
    Some((Some(arrival), rest))
}

/// Delay, arrival where it is told, slew, wire and corners, and the end of the line.
#[tactic(auto, unfolding(crate::specs::Words::tail_at))]
fn node_tail(alloc: Global, told: bool, bytes: &[u8]) -> Result<Option<(Tail, &[u8])>, NoMemory>
    ensures found { FindsIn seen_tail result (tail_at told bytes.now) }
    ensures seen { IfOk result (λ found. IfSome found (λ tail. All IsSeen tail.0.corners)) }
{
    let Some((delay, rest)) = labelled(bytes, b" delay ", 16) else {
        return Ok(None);
    };
    let Some((arrival, rest)) = arrival(told, rest) else {
        return Ok(None);
    };
    let Some((slew, rest)) = labelled(rest, b" slew ", 16) else {
        return Ok(None);
    };
    let Some((wire, rest)) = bounded(rest, b" wire ", 3, MAX_LENGTH) else {
        return Ok(None);
    };
    let Some((corners, rest)) = corners(alloc, rest)? else {
        return Ok(None);
    };
    let Some(((), rest)) = after_word(rest, b"\n") else {
        return Ok(None);
    };
    Ok(Some((
        Tail {
            delay,
            arrival,
            slew,
            wire: wire as u32,
            corners,
        },
        rest,
    )))
}

/// A leaf, with its arrival where it is told.
fn leaf_kind(id: u32, arrival: Option<u128>) -> ReportKind
    ensures leaf { seen_kind result ≡ sink_leaf id }
    ensures arrival { seen_arrival result ≡ arrival }
{
    match arrival {
        None => ReportKind::Leaf { id },
        Some(arrival) => ReportKind::TimedLeaf { id, arrival },
    }
}

/// The line of a leaf from its id on.
#[tactic(auto, unfolding(crate::specs::NodeLine::leaf_at))]
fn leaf(alloc: Global, told: bool, bytes: &[u8]) -> Result<Option<(ReportNode, &[u8])>, NoMemory>
    ensures found { FindsIn seen_node result (leaf_at told bytes.now) }
    ensures seen { IfOk result (λ found. IfSome found (λ node. IsSeenNode node.0)) }
{
    let Some((id, rest)) = bounded(bytes, b" leaf ", 0, LAST_ID) else {
        return Ok(None);
    };
    let Some((place, rest)) = place(rest) else {
        return Ok(None);
    };
    let Some((load, rest)) = labelled(rest, b" load ", 6) else {
        return Ok(None);
    };
    let Some((tail, rest)) = node_tail(alloc, told, rest)? else {
        return Ok(None);
    };
    let kind = leaf_kind(id as u32, tail.arrival);
    Ok(Some((node_of(kind, place, load, tail), rest)))
}

/// A node of these parts.
fn node_of(kind: ReportKind, place: Half, load: u128, tail: Tail) -> ReportNode
    ensures { result ≡ record { kind = kind; place = place; load = load; delay = tail.delay; slew = tail.slew; wire = tail.wire; corners = tail.corners } }
{
    let Tail {
        delay,
        slew,
        wire,
        corners,
        ..
    } = tail;
    ReportNode {
        kind,
        place,
        load,
        delay,
        slew,
        wire,
        corners,
    }
}

/// A buffer's index, below the size of the library, or the word `none`.
#[tactic(auto, unfolding(crate::specs::NodeLine::buffer_at))]
fn buffer(buffers: u64, bytes: &[u8]) -> Option<(Option<u16>, &[u8])>
    requires { buffers ≤ 2 ^ 16 }
    ensures found { Finds seen_buffer result (buffer_at buffers bytes.now) }
{
    if let Some(((), rest)) = after_word(bytes, b" buffer none") {
        return Some((None, rest));
    }
    let (index, rest) = labelled(bytes, b" buffer ", 0)?;
    if index < u128::from(buffers) {
        Some((Some(index as u16), rest))
    } else {
        None
    }
}

/// The line of a pair from its children on.
#[tactic(auto, unfolding(crate::specs::NodeLine::pair_at))]
fn pair(alloc: Global, buffers: u64, bytes: &[u8]) -> Result<Option<(ReportNode, &[u8])>, NoMemory>
    requires { buffers ≤ 2 ^ 16 }
    ensures found { FindsIn seen_node result (pair_at buffers bytes.now) }
    ensures seen { IfOk result (λ found. IfSome found (λ node. IsSeenNode node.0)) }
{
    let Some((left, rest)) = bounded(bytes, b" pair ", 0, MOST) else {
        return Ok(None);
    };
    let Some((right, rest)) = bounded(rest, b" ", 0, MOST) else {
        return Ok(None);
    };
    let Some((place, rest)) = place(rest) else {
        return Ok(None);
    };
    let Some((buffer, rest)) = buffer(buffers, rest) else {
        return Ok(None);
    };
    let Some((load, rest)) = labelled(rest, b" load ", 6) else {
        return Ok(None);
    };
    let Some((residue, rest)) = labelled(rest, b" residue ", 16) else {
        return Ok(None);
    };
    let Some((tail, rest)) = node_tail(alloc, false, rest)? else {
        return Ok(None);
    };
    let kind = ReportKind::Pair {
        left: left as u32,
        right: right as u32,
        buffer,
        residue,
    };
    Ok(Some((node_of(kind, place, load, tail), rest)))
}

/// The line of a node from what it is on.
#[tactic(auto, unfolding(crate::specs::NodeLine::node_rest_at))]
fn node_rest(
    alloc: Global,
    form: Form,
    bytes: &[u8],
) -> Result<Option<(ReportNode, &[u8])>, NoMemory>
    requires { form.buffers ≤ 2 ^ 16 }
    ensures found { FindsIn seen_node result (node_rest_at form bytes.now) }
    ensures seen { IfOk result (λ found. IfSome found (λ node. IsSeenNode node.0)) }
{
    if let Some(found) = leaf(alloc, tells_arrivals(form.version), bytes)? {
        return Ok(Some(found));
    }
    pair(alloc, form.buffers, bytes)
}

/// Whether a node joins the stack, whose latest tree is the last: a pair takes the two latest, and the
/// `todo` nodes to come after it can leave one tree.
fn joins(stack: &[u32], todo: usize, kind: &ReportKind) -> bool
    ensures { result ≡ joins_stack (reverse stack.now) todo (children_of_kind (seen_kind kind.now)) }
{
    match kind {
        ReportKind::Leaf { .. } | ReportKind::TimedLeaf { .. } => stack.len() <= todo,
        ReportKind::Pair { left, right, .. } => takes_last(stack, *left, *right),
    }
}

fn takes_last(stack: &[u32], left: u32, right: u32) -> bool
    ensures { (todo : ℕ) → result ≡ joins_stack (reverse stack.now) todo (Some (left, right)) }
{
    let count = stack.len();
    if count < 2 {
        return false;
    }
    left == stack[count - 2] && right == stack[count - 1]
}

/// The stack after a node.
pub fn stack_node(stack: &mut Vec<u32>, kind: &ReportKind, number: u32) -> Result<(), NoMemory>
    ensures { OnOk result (reverse stack.new.items
        ≡ stack_after (children_of_kind (seen_kind kind.now)) (reverse stack.old.items) number) }
{
    match kind {
        ReportKind::Leaf { .. } | ReportKind::TimedLeaf { .. } => push_leaf(stack, number),
        ReportKind::Pair { .. } => push_pair(stack, number),
    }
}

fn push_leaf(stack: &mut Vec<u32>, number: u32) -> Result<(), NoMemory>
    ensures { OnOk result (reverse stack.new.items ≡ number ∷ reverse stack.old.items) }
{
    stack.push(number)?;
    Ok(())
}

fn push_pair(stack: &mut Vec<u32>, number: u32) -> Result<(), NoMemory>
    ensures { OnOk result (reverse stack.new.items ≡ number ∷ drop 2 (reverse stack.old.items)) }
{
    stack.truncate(stack.len().saturating_sub(2));
    stack.push(number)?;
    Ok(())
}

/// The line of the node of this number, where these trees stand on the stack and so many nodes are to
/// come after it.
#[tactic(auto, unfolding(crate::specs::NodeLine::node_at))]
pub fn node<'a>(
    alloc: Global,
    form: Form,
    number: u32,
    stack: &[u32],
    todo: usize,
    bytes: &'a [u8],
) -> Result<Option<(ReportNode, &'a [u8])>, NoMemory>
    requires { form.buffers ≤ 2 ^ 16 }
    ensures found { FindsIn seen_node result (node_at form number (reverse stack.now) todo bytes.now) }
    ensures seen { IfOk result (λ found. IfSome found (λ node. IsSeenNode node.0)) }
{
    let Some((found, rest)) = labelled(bytes, b"node ", 0) else {
        return Ok(None);
    };
    if found != u128::from(number) {
        return Ok(None);
    }
    let Some((node, rest)) = node_rest(alloc, form, rest)? else {
        return Ok(None);
    };
    if joins(stack, todo, &node.kind) {
        Ok(Some((node, rest)))
    } else {
        Ok(None)
    }
}
