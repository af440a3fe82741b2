//! The book of the changes of an instance's sinks.

ghost use Rattle.std.specs.Prelude.{◌≡◌, ◌+◌, ◌<◌, ◌≤◌, ◌++◌, ◌∷◌, [], length, take, vec_len, OnOk};
ghost use Rattle.std.specs.Vec.{vec_capacity};

use crate::inverse::Inverse;
use crate::moved::Moved;
use crate::sinks::SinkList;
use cts_block::Block;
use cts_edit::{Edit, EditCause, EditReply, Entry, Facts, cause_by, id_of, is_in_block, walls_of};
use cts_geom::Die;
use cts_instance::Instance;
use cts_num::NoMemory;
use cts_units::Sink;
use std::alloc::Global;
use std::marker::Model;
use std::snapshot::Snapshot;

/// The changes of an instance's sinks, at most 65,536, which can be undone and redone to any depth.
///
/// Changes that were undone stand behind those that are done, until another one takes their place.
#[derive(Drop)]
pub struct Book {
    base: Snapshot<Instance>,
    walls: Vec<Block>,
    sinks: SinkList,
    entries: Vec<Entry>,
    inverses: Vec<Inverse>,
    number: usize,
}

impl Model for Book {
    ghost use Rattle.cts_undo.specs.Replay.{State};
    ghost use Rattle.cts_undo.specs.Book.{IsBook, state_of};

    ghost Value = { State };

    ghost view = { λ book. state_of book.base.value book.entries.items book.number };

    ghost invariant = { λ book. IsBook book.base.value book.walls.items book.sinks book.entries.items book.inverses.items book.number };
}

/// Makes room for one more of each.
fn make_room(entries: &mut Vec<Entry>, inverses: &mut Vec<Inverse>) -> Result<(), NoMemory>
    ensures entries { entries.new.items ≡ entries.old.items }
    ensures inverses { inverses.new.items ≡ inverses.old.items }
    ensures room { OnOk result (vec_len entries.new < vec_capacity entries.new) }
    ensures more { OnOk result (vec_len inverses.new < vec_capacity inverses.new) }
{
    entries.reserve(1)?;
    inverses.reserve(1)?;
    Ok(())
}

/// Puts an item in the place of all those behind the first `number`, where there is room for it.
fn put<T: Drop>(items: &mut Vec<T>, number: usize, item: T)
    requires number { number ≤ vec_len items.old }
    requires room { vec_len items.old < vec_capacity items.old }
    ensures { items.new.items ≡ take number items.old.items ++ item ∷ [] }
{
    items.truncate(number);
    match items.push(item) {
        Ok(()) => {}
        Err(_) => unreachable!(),
    }
}

impl Book {
    ghost use Rattle.std.specs.Prelude.{◌≡◌, ◌≤◌, length, None, IfOk, OnOk, OnErr};
    ghost use Rattle.cts_instance.specs.Validity.{IsValid, with_sinks};
    ghost use Rattle.cts_edit.specs.Edits.{IsEdit, after};
    ghost use Rattle.cts_edit.specs.Decide.{decide};
    ghost use Rattle.cts_edit.specs.Replies.{IsDecided};
    ghost use Rattle.cts_undo.specs.Replay.{IsUndo, IsRedo, after_change, after_reply, opening};

    /// The book of an instance without changes.
    pub fn start(alloc: Global, instance: &Instance) -> Result<Book, NoMemory>
        ensures { IfOk result (λ book. book ≡ opening instance.now) }
    {
        let sinks = SinkList::of(alloc, instance.sinks())?;
        let walls = walls_of(alloc, instance.blocks())?;
        Ok(Book {
            base: Snapshot::of(instance),
            walls,
            sinks,
            entries: Vec::new(alloc),
            inverses: Vec::new(alloc),
            number: 0,
        })
    }

    /// The sinks after the changes that are done, which are valid with the instance's other parts.
    pub fn sinks(&self) -> &[Sink]
        ensures sinks { result.now ≡ after self.now.base.sinks self.now.done }
        ensures valid { IsValid (with_sinks self.now.base result.now) }
    {
        let _ = &self.walls;
        self.sinks.as_slice()
    }

    /// The changes that are done, in order.
    pub fn done(&self) -> &[Entry]
        ensures { result.now ≡ self.now.done }
    {
        &self.entries.as_slice()[..self.number]
    }

    /// How many changes are done.
    fn version(&self) -> u32
        ensures version { result ≡ length self.now.done }
        ensures small { result ≤ 65536 }
    {
        self.number as u32
    }

    /// The first cause that refuses an edit now, on this die.
    fn cause_of(&self, die: &Die, edit: Edit) -> Option<EditCause>
        requires { die.now ≡ self.now.base.die }
        ensures { result ≡ decide self.now.base self.now.done edit }
    {
        let facts = Facts {
            there: self.sinks.has(id_of(edit)),
            walled: is_in_block(self.walls.as_slice(), edit),
            count: self.sinks.as_slice().len(),
            edits: self.number,
        };
        cause_by(die, facts, edit)
    }

    /// Makes a change that is accepted. Want of memory changes nothing.
    fn append(&mut self, entry: Entry) -> Result<(), NoMemory>
        requires within { IsEdit entry.edit }
        requires accepted { decide self.old.base self.old.done entry.edit ≡ None }
        ensures ok { OnOk result (self.new ≡ after_change self.old entry) }
        ensures err { OnErr result (self.new ≡ self.old) }
    {
        let inverse = self.sinks.inverse_of(entry.edit);
        make_room(&mut self.entries, &mut self.inverses)?;
        self.sinks.apply(entry.edit)?;
        put(&mut self.entries, self.number, entry);
        put(&mut self.inverses, self.number, inverse);
        self.number += 1;
        Ok(())
    }

    /// Judges a change after those that are done, and makes it where it is accepted. What was undone before
    /// can't be redone then.
    ///
    /// The instance is the one that the book began with. A refusal and want of memory change nothing.
    pub fn change(&mut self, instance: &Instance, entry: Entry) -> EditReply
        requires instance { instance.now ≡ self.old.base }
        requires within { IsEdit entry.edit }
        ensures reply { IsDecided self.old.base self.old.done entry.edit result }
        ensures state { self.new ≡ after_reply self.old entry result }
    {
        let version = self.version();
        if let Some(cause) = self.cause_of(&instance.die(), entry.edit) {
            return EditReply::Refused { cause, version };
        }
        match self.append(entry) {
            Ok(()) => EditReply::Accepted {
                version: version + 1,
            },
            Err(NoMemory) => EditReply::NoMemory,
        }
    }

    /// Takes the last change that is done back.
    pub fn undo(&mut self) -> Moved
        ensures { IsUndo self.old self.new result }
    {
        if self.number == 0 {
            return Moved::Empty { version: 0 };
        }
        let last = self.number - 1;
        match self.sinks.take_back(self.inverses[last]) {
            Ok(()) => {
                self.number = last;
                Moved::Done {
                    version: last as u32,
                }
            }
            Err(NoMemory) => Moved::NoMemory,
        }
    }

    /// Makes the change again that was undone last.
    pub fn redo(&mut self) -> Moved
        ensures { IsRedo self.old self.new result }
    {
        if self.number == self.entries.len() {
            return Moved::Empty {
                version: self.number as u32,
            };
        }
        match self.sinks.apply(self.entries[self.number].edit) {
            Ok(()) => {
                self.number += 1;
                Moved::Done {
                    version: self.number as u32,
                }
            }
            Err(NoMemory) => Moved::NoMemory,
        }
    }
}
