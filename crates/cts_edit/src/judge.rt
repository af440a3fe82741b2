//! Which cause refuses an edit.

ghost use Rattle.std.specs.Prelude.{◌≡◌, IfOk};
ghost use Rattle.cts_instance.specs.Tests.{is_inside};
ghost use Rattle.cts_edit.specs.Edits.{has_id};
ghost use Rattle.cts_edit.specs.Decide.{id_of, is_known, is_unknown, is_outside, walls_of, is_walled, is_in_block, is_full, is_last, cause_by, first_cause};

use crate::edit::{Edit, EditCause};
use cts_block::Block;
use cts_geom::Die;
use cts_instance::{Instance, is_in_die, is_inside};
use cts_num::NoMemory;
use cts_units::{MAX_SINKS, Sink};
use std::alloc::Global;

/// The greatest number of edits of a history.
const EDITS: usize = 65_536;

/// What an edit is judged by, beside the die.
#[derive(Clone, Copy)]
pub struct Facts {
    /// Whether a sink has the id that the edit names.
    pub there: bool,
    /// Whether the edit puts a sink strictly inside a block that stops wires.
    pub walled: bool,
    /// How many sinks there are.
    pub count: usize,
    /// How many edits came before.
    pub edits: usize,
}

/// The blocks that stop wires, of which an instance has at most 64.
pub fn walls_of(alloc: Global, blocks: &[Block]) -> Result<Vec<Block>, NoMemory>
    ensures { IfOk result (λ walls. walls.items ≡ walls_of blocks.now) }
{
    let mut walls = Vec::new(alloc);
    for block in blocks {
        if block.kind.stops_wires() {
            walls.push(*block)?;
        }
    }
    Ok(walls)
}

/// The id of the sink that an edit names.
pub fn id_of(edit: Edit) -> u32
    ensures { result ≡ id_of edit }
{
    match edit {
        Edit::Add { id, .. } => id,
        Edit::Remove { id } => id,
        Edit::Move { id, .. } => id,
        Edit::SetCap { id, .. } => id,
    }
}

fn is_known(there: bool, edit: Edit) -> bool
    ensures { result ≡ is_known there edit }
{
    match edit {
        Edit::Add { .. } => there,
        Edit::Remove { .. } | Edit::Move { .. } | Edit::SetCap { .. } => false,
    }
}

fn is_unknown(there: bool, edit: Edit) -> bool
    ensures { result ≡ is_unknown there edit }
{
    match edit {
        Edit::Add { .. } => false,
        Edit::Remove { .. } | Edit::Move { .. } | Edit::SetCap { .. } => !there,
    }
}

fn is_outside(die: &Die, edit: Edit) -> bool
    ensures { result ≡ is_outside die.now edit }
{
    match edit {
        Edit::Add { x, y, .. } => !is_in_die(die, x, y),
        Edit::Move { x, y, .. } => !is_in_die(die, x, y),
        Edit::Remove { .. } | Edit::SetCap { .. } => false,
    }
}

/// Whether the place, in nm, is strictly inside one of these blocks.
fn is_walled(walls: &[Block], x: i64, y: i64) -> bool
    ensures { result ≡ is_walled walls.now x y }
{
    walls.iter().any(|wall| is_inside(wall, x, y))
}

/// Whether an edit puts a sink strictly inside one of these blocks.
pub fn is_in_block(walls: &[Block], edit: Edit) -> bool
    ensures { result ≡ is_in_block walls.now edit }
{
    match edit {
        Edit::Add { x, y, .. } => is_walled(walls, x, y),
        Edit::Move { x, y, .. } => is_walled(walls, x, y),
        Edit::Remove { .. } | Edit::SetCap { .. } => false,
    }
}

/// Whether the place, in nm, is strictly inside one of these blocks that stops wires.
fn is_blocked(blocks: &[Block], x: i64, y: i64) -> bool
    ensures { result ≡ is_walled (walls_of blocks.now) x y }
{
    blocks
        .iter()
        .filter(|block| block.kind.stops_wires())
        .any(|block| is_inside(block, x, y))
}

/// Whether an edit puts a sink strictly inside one of these blocks that stops wires.
fn is_in_wall(blocks: &[Block], edit: Edit) -> bool
    ensures { result ≡ is_in_block (walls_of blocks.now) edit }
{
    match edit {
        Edit::Add { x, y, .. } => is_blocked(blocks, x, y),
        Edit::Move { x, y, .. } => is_blocked(blocks, x, y),
        Edit::Remove { .. } | Edit::SetCap { .. } => false,
    }
}

fn is_full(count: usize, edit: Edit) -> bool
    ensures { result ≡ is_full count edit }
{
    match edit {
        Edit::Add { .. } => count >= MAX_SINKS,
        Edit::Remove { .. } | Edit::Move { .. } | Edit::SetCap { .. } => false,
    }
}

fn is_last(count: usize, edit: Edit) -> bool
    ensures { result ≡ is_last count edit }
{
    match edit {
        Edit::Remove { .. } => count == 1,
        Edit::Add { .. } | Edit::Move { .. } | Edit::SetCap { .. } => false,
    }
}

/// The first cause that refuses an edit, by what is known of the sinks that it meets.
#[tactic(auto, unfolding(crate::specs::Decide::cause_by))]
pub fn cause_by(die: &Die, facts: Facts, edit: Edit) -> Option<EditCause>
    ensures { result ≡ cause_by die.now facts edit }
{
    if is_known(facts.there, edit) {
        Some(EditCause::Known)
    } else if is_unknown(facts.there, edit) {
        Some(EditCause::Unknown)
    } else if is_outside(die, edit) {
        Some(EditCause::Outside)
    } else if facts.walled {
        Some(EditCause::InBlock)
    } else if is_full(facts.count, edit) {
        Some(EditCause::Full)
    } else if is_last(facts.count, edit) {
        Some(EditCause::Last)
    } else if facts.edits >= EDITS {
        Some(EditCause::Long)
    } else {
        None
    }
}

/// Whether some sink has the id.
fn has_id(sinks: &[Sink], id: u32) -> bool
    ensures { result ≡ has_id id sinks.now }
{
    sinks.iter().any(|sink| sink.id == id)
}

/// The first cause that refuses an edit of these sinks of the instance, where so many edits came before
/// it; none exactly where the edit is accepted.
///
/// It takes no memory, and looks at each sink and at each block.
pub fn decide(instance: &Instance, sinks: &[Sink], edits: u32, edit: Edit) -> Option<EditCause>
    ensures { result ≡ first_cause instance.now.die (walls_of instance.now.blocks) sinks.now edits edit }
{
    let facts = Facts {
        there: has_id(sinks, id_of(edit)),
        walled: is_in_wall(instance.blocks(), edit),
        count: sinks.len(),
        edits: edits as usize,
    };
    cause_by(&instance.die(), facts, edit)
}
