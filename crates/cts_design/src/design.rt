//! The design: the sinks of an instance, and the edits that were accepted so far.

use crate::call::{DesignCall, DesignReply};
use cts_edit::{EditReply, Entry, Journal};
use cts_instance::Instance;
use cts_num::NoMemory;
use cts_turn::Object;
use cts_units::Sink;
use std::alloc::Global;

/// The sinks of an instance, and the edits that were accepted so far, at most 65,536: a journal that threads may share.
#[derive(Drop)]
pub struct Design {
    journal: Journal,
}

impl Design {
    ghost use Rattle.std.specs.Prelude.{◌≡◌, [], IfOk};
    ghost use Rattle.cts_instance.specs.Validity.{IsValid, with_sinks};
    ghost use Rattle.cts_edit.specs.Edits.{IsEdit, after};
    ghost use Rattle.cts_edit.specs.Sound.{IsSound};
    ghost use Rattle.cts_edit.specs.Replies.{IsDecided, after_edit};
    ghost use Rattle.cts_design.specs.Designs.{base_of, told_by};
    ghost use Rattle.cts_design.specs.Replies.{Allows};

    /// The design of an instance that has no edits yet.
    pub fn of(alloc: Global, instance: &Instance) -> Result<Design, NoMemory>
        ensures base { IfOk result (λ design. base_of design ≡ instance.now) }
        ensures told { IfOk result (λ design. told_by design ≡ []) }
    {
        let journal = Journal::of(alloc, instance)?;
        Ok(Design { journal })
    }

    /// Judges an edit, and makes it where it is accepted. A refusal and want of memory change nothing.
    pub fn change(&mut self, entry: Entry) -> EditReply
        requires { IsEdit entry.edit }
        ensures base { base_of self.new ≡ base_of self.old }
        ensures reply { IsDecided (base_of self.old) (told_by self.old) entry.edit result }
        ensures told { told_by self.new ≡ after_edit (told_by self.old) entry result }
    {
        self.journal.change(entry)
    }

    /// The sinks as they are now.
    fn list(&self) -> DesignReply
        ensures { Allows (base_of self.now) (told_by self.now) DesignCall.Snapshot result }
    {
        match self.journal.list() {
            Ok(sinks) => DesignReply::Listed {
                version: self.journal.version(),
                sinks,
            },
            Err(NoMemory) => DesignReply::NoMemory,
        }
    }

    /// The accepted edits in order, and the sinks after them. It takes no memory.
    pub fn into_lists(self) -> (Vec<Entry>, Vec<Sink>)
        ensures entries { result.0.items ≡ told_by self }
        ensures sinks { result.1.items ≡ after (base_of self).sinks (told_by self) }
        ensures sound { IsSound (base_of self) (told_by self) }
        ensures valid { IsValid (with_sinks (base_of self) result.1.items) }
    {
        self.journal.into_lists()
    }
}

impl Object for Design {
    ghost use Rattle.cts_instance.specs.declared.parts.Parts.{Parts};
    ghost use Rattle.cts_edit.specs.Sound.{IsSound};
    ghost use Rattle.cts_design.specs.Designs.{base_of, told_by};
    ghost use Rattle.cts_design.specs.Replies.{Allows, Fits, history_after};
    ghost use Rattle.cts_design.specs.RuleLaws.{appends};

    type Entry = Entry;

    type Call = DesignCall;

    type Reply = DesignReply;

    const LIMIT: u64 = 65_536;

    ghost LIMIT = { 65536 };

    ghost Base = { Parts };

    ghost base = { base_of };

    ghost told = { told_by };

    ghost is_sound = { IsSound };

    ghost fits = { λ _ history call. Fits call };

    ghost allows = { Allows };

    ghost after = { λ _ history call reply. history_after history call reply };

    fn len(&self) -> u64 {
        u64::from(self.journal.version())
    }

    fn act(&mut self, call: DesignCall) -> DesignReply {
        match call {
            DesignCall::Change(entry) => DesignReply::Changed(self.change(entry)),
            DesignCall::Snapshot => self.list(),
        }
    }

    ghost told_is_sound = { λ design. design.journal.sound };

    ghost told_is_short = { λ design. design.journal.short };

    ghost appends_at_most_one = { λ _ history call reply allowed. appends history call reply };

    ghost still_fits = { λ _ history longer call fits sound more. fits };
}
