//! The journal of a list of sinks: the edits that were accepted so far, and the sinks after them.

ghost use Rattle.std.specs.Prelude.{◌≡◌, ◌≤◌, ◌++◌, ◌∷◌, [], false, length, IfOk, OnOk, OnErr};
ghost use Rattle.std.proofs.Props.{props};
ghost use Rattle.cts_instance.specs.Validity.{IsValid};
ghost use Rattle.cts_edit.specs.Edits.{IsEdit, has_id, applied, after};
ghost use Rattle.cts_edit.specs.Decide.{id_of, is_known, walls_of};
ghost use Rattle.cts_edit.specs.Sound.{IsSound};
ghost use Rattle.cts_edit.specs.EditProps.{edit_prop};

use crate::edit::{Edit, EditCause, Entry};
use crate::judge::{Facts, cause_by, id_of, is_in_block, walls_of};
use crate::reply::EditReply;
use crate::roster::Roster;
use cts_block::Block;
use cts_geom::Die;
use cts_instance::Instance;
use cts_num::NoMemory;
use cts_units::Sink;
use std::alloc::Global;
use std::snapshot::Snapshot;

/// The sinks of an instance, and the edits that were accepted so far, at most 65,536.
#[derive(Drop)]
pub struct Journal {
    history: Vec<Entry>,
    sinks: Roster,
    die: Die,
    walls: Vec<Block>,
    base: Snapshot<Instance>,
    ghost valid: { IsValid base.value } by { Prim.hlevel props },
    ghost same_die: { die ≡ base.value.die },
    ghost same_walls: { walls.items ≡ walls_of base.value.blocks },
    ghost kept: { sinks ≡ after base.value.sinks history.items },
    ghost sound: { IsSound base.value history.items } by { Prim.hlevel (props, edit_prop) },
    ghost short: { length history.items ≤ 65536 },
}

/// Makes an edit of an id that fits it. Want of memory changes nothing.
fn apply(sinks: &mut Roster, edit: Edit) -> Result<(), NoMemory>
    requires within { IsEdit edit }
    requires new { is_known (has_id (id_of edit) sinks.old) edit ≡ false }
    ensures ok { OnOk result (sinks.new ≡ applied edit sinks.old) }
    ensures err { OnErr result (sinks.new ≡ sinks.old) }
{
    match edit {
        Edit::Add { id, x, y, cap } => sinks.add(Sink {
            id,
            x,
            y,
            cap,
            offset: 0,
        }),
        Edit::Remove { id } => {
            sinks.remove(id);
            Ok(())
        }
        Edit::Move { id, x, y } => {
            sinks.move_to(id, x, y);
            Ok(())
        }
        Edit::SetCap { id, cap } => {
            sinks.set_cap(id, cap);
            Ok(())
        }
    }
}

/// Makes an edit and appends it to the history. Want of memory changes nothing.
fn append(history: &mut Vec<Entry>, sinks: &mut Roster, entry: Entry) -> Result<(), NoMemory>
    requires within { IsEdit entry.edit }
    requires new { is_known (has_id (id_of entry.edit) sinks.old) entry.edit ≡ false }
    ensures history { OnOk result (history.new.items ≡ history.old.items ++ entry ∷ []) }
    ensures sinks { OnOk result (sinks.new ≡ applied entry.edit sinks.old) }
    ensures same_history { OnErr result (history.new.items ≡ history.old.items) }
    ensures same_sinks { OnErr result (sinks.new ≡ sinks.old) }
{
    history.push(entry)?;
    match apply(sinks, entry.edit) {
        Ok(()) => Ok(()),
        Err(NoMemory) => {
            history.pop();
            Err(NoMemory)
        }
    }
}

impl Journal {
    ghost use Rattle.std.specs.Prelude.{◌≡◌, [], length, IfOk};
    ghost use Rattle.cts_instance.specs.Validity.{IsValid, with_sinks};
    ghost use Rattle.cts_edit.specs.Edits.{IsEdit, after};
    ghost use Rattle.cts_edit.specs.Decide.{decide};
    ghost use Rattle.cts_edit.specs.Journals.{base_of, told_by};
    ghost use Rattle.cts_edit.specs.Sound.{IsSound};
    ghost use Rattle.cts_edit.specs.Replies.{IsDecided, after_edit};

    /// The journal of an instance that has no edits yet.
    pub fn of(alloc: Global, instance: &Instance) -> Result<Journal, NoMemory>
        ensures base { IfOk result (λ journal. base_of journal ≡ instance.now) }
        ensures told { IfOk result (λ journal. told_by journal ≡ []) }
    {
        let sinks = Roster::of(alloc, instance.sinks())?;
        let walls = walls_of(alloc, instance.blocks())?;
        Ok(Journal {
            history: Vec::new(alloc),
            sinks,
            die: instance.die(),
            walls,
            base: Snapshot::of(instance),
        })
    }

    /// The first cause that refuses an edit now.
    fn cause_of(&self, edit: Edit) -> Option<EditCause>
        ensures { result ≡ decide (base_of self.now) (told_by self.now) edit }
    {
        let facts = Facts {
            there: self.sinks.has(id_of(edit)),
            walled: is_in_block(self.walls.as_slice(), edit),
            count: self.sinks.len(),
            edits: self.history.len(),
        };
        cause_by(&self.die, facts, edit)
    }

    /// Judges an edit, and makes it where it is accepted. A refusal and want of memory change nothing.
    pub fn change(&mut self, entry: Entry) -> EditReply
        requires { IsEdit entry.edit }
        ensures base { base_of self.new ≡ base_of self.old }
        ensures reply { IsDecided (base_of self.old) (told_by self.old) entry.edit result }
        ensures told { told_by self.new ≡ after_edit (told_by self.old) entry result }
    {
        let version = self.version();
        if let Some(cause) = self.cause_of(entry.edit) {
            return EditReply::Refused { cause, version };
        }
        match append(&mut self.history, &mut self.sinks, entry) {
            Ok(()) => EditReply::Accepted {
                version: version + 1,
            },
            Err(NoMemory) => EditReply::NoMemory,
        }
    }

    /// How many edits were accepted so far: the version of the sinks.
    pub fn version(&self) -> u32
        ensures { result ≡ length (told_by self.now) }
    {
        self.history.len() as u32
    }

    /// The sinks as they are now.
    pub fn list(&self) -> Result<Vec<Sink>, NoMemory>
        ensures { IfOk result (λ sinks. sinks.items ≡ after (base_of self.now).sinks (told_by self.now)) }
    {
        let alloc = *self.history.allocator();
        self.sinks.to_vec(alloc)
    }

    /// The accepted edits in order, and the sinks after them. It takes no memory.
    pub fn into_lists(self) -> (Vec<Entry>, Vec<Sink>)
        ensures entries { result.0.items ≡ told_by self }
        ensures sinks { result.1.items ≡ after (base_of self).sinks (told_by self) }
        ensures sound { IsSound (base_of self) (told_by self) }
        ensures valid { IsValid (with_sinks (base_of self) result.1.items) }
    {
        let Journal { history, sinks, .. } = self;
        (history, sinks.into_vec())
    }
}
