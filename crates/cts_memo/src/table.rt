//! The table of a memo: entries by key, in the order in which they were made.

ghost use Rattle.std.specs.Prelude.{◌≤◌, ◌^◌, length};
ghost use Rattle.cts_units.specs.Limits.{IsParams};
ghost use Rattle.cts_memo.specs.Keys.{entries_of};
ghost use Rattle.cts_memo.specs.Sound.{IsSound};

use crate::entry::{Answer, MemoCall, MemoEntry, MemoReply, PutEnd};
use crate::key::Key;
use crate::secret::Secret;
use crate::seeded::Seeded;
use cts_merge::Finished;
use cts_num::NoMemory;
use cts_turn::Object;
use cts_units::Params;
use indexmap::IndexMap;
use std::alloc::Global;
use std::snapshot::Snapshot;

/// The most entries of a table.
const MAX_ENTRIES: usize = 1 << 21;

/// The entries of a memo by key, at most 2^21. An entry's number is its position.
#[derive(Drop)]
pub struct Table {
    map: IndexMap<Key, Finished, Seeded>,
    params: Snapshot<Params>,
    ghost within: { IsParams params.value },
    ghost sound: { ∥ IsSound params.value (entries_of map.entries) ∥₁ },
    ghost short: { length (entries_of map.entries) ≤ 2 ^ 21 },
}

impl Table {
    ghost use Rattle.std.specs.Prelude.{◌≡◌, drop, slice_get, take, [], IfOk};
    ghost use Rattle.cts_memo.specs.Sound.{IsMadeOf};
    ghost use Rattle.cts_memo.specs.Replies.{IsFound, IsPut, after_put};
    ghost use Rattle.cts_memo.specs.Tables.{base_of, told_by};

    /// A table without entries. It takes no memory yet.
    fn new(alloc: Global, params: &Params, secret: Secret) -> Table
        requires { IsParams params.now }
        ensures told { told_by result ≡ [] }
        ensures base { base_of result ≡ params.now }
    {
        Table {
            map: IndexMap::with_hasher(alloc, Seeded::new(secret)),
            params: Snapshot::of(params),
        }
    }

    /// A table without entries, and with room for so many, or for 2^21 where that is less. `NoMemory` comes where the room
    /// can't be had.
    pub(crate) fn with_room(
        alloc: Global,
        params: &Params,
        secret: Secret,
        entries: usize,
    ) -> Result<Table, NoMemory>
        requires { IsParams params.now }
        ensures told { IfOk result (λ table. told_by table ≡ []) }
        ensures base { IfOk result (λ table. base_of table ≡ params.now) }
    {
        let mut table = Table::new(alloc, params, secret);
        table.map.reserve_exact(entries.min(MAX_ENTRIES))?;
        Ok(table)
    }

    /// The entry of a number.
    pub fn entry(&self, number: u32) -> Option<MemoEntry>
        ensures { result ≡ slice_get (told_by self.now) number }
    {
        let (key, finished) = self.map.get_index(number as usize)?;
        Some(MemoEntry {
            key: *key,
            finished: *finished,
        })
    }

    /// Looks a key up. Callers who share a table ask its memo; who owns it needs no turn.
    #[inline]
    pub fn find(&self, key: Key) -> Answer
        ensures { IsFound (told_by self.now) key result }
    {
        match self.map.get_full(&key) {
            Some((number, _, finished)) => Answer::Have {
                number: number as u32,
                finished: *finished,
            },
            None => Answer::Absent,
        }
    }

    /// Reads so many entries from a number on, or as many as there are, into a list that is cleared first.
    fn read(
        &self,
        first: u32,
        most: u32,
        mut list: Vec<MemoEntry>,
    ) -> Result<Vec<MemoEntry>, NoMemory>
        ensures { IfOk result (λ entries. entries.items ≡ take most (drop first (told_by self.now))) }
    {
        list.clear();
        let first = first as usize;
        for number in first..first + most as usize {
            let Some((key, finished)) = self.map.get_index(number) else {
                return Ok(list);
            };
            list.push(MemoEntry {
                key: *key,
                finished: *finished,
            })?;
        }
        Ok(list)
    }

    /// Appends what was made of a key, unless the key is there or there is no room. What is made of a
    /// key that is there is what its entry has, so the entry stays as it is.
    ///
    /// `At` tells the number of the key's entry. `Full` comes exactly where the key isn't there and there are 2^21
    /// entries, `NoMemory` where the table could not grow.
    #[inline(always)]
    fn publish(&mut self, key: Key, finished: Finished) -> PutEnd
        requires { IsMadeOf (base_of self.old) (told_by self.old) key finished }
        ensures base { base_of self.new ≡ base_of self.old }
        ensures end { IsPut (told_by self.old) key result }
        ensures told { told_by self.new ≡ after_put (told_by self.old) key finished result }
    {
        if self.map.len() == MAX_ENTRIES {
            return match self.find(key) {
                Answer::Have { number, .. } => PutEnd::At { number },
                Answer::Absent => PutEnd::Full,
            };
        }
        match self.map.insert_full(key, finished) {
            Ok((number, _)) => PutEnd::At {
                number: number as u32,
            },
            Err(_) => PutEnd::NoMemory,
        }
    }
}

impl Object for Table {
    ghost use Rattle.std.specs.Prelude.{◌^◌};
    ghost use Rattle.cts_units.specs.declared.params.Params.{Params};
    ghost use Rattle.cts_memo.specs.Keys.{entries_of};
    ghost use Rattle.cts_memo.specs.Sound.{IsSound};
    ghost use Rattle.cts_memo.specs.Calls.{Allows, Fits, list_after};
    ghost use Rattle.cts_memo.specs.TableLaws.{appends, fits_stays, untold};

    type Entry = MemoEntry;

    type Call = MemoCall;

    type Reply = MemoReply;

    const LIMIT: u64 = 1 << 21;

    ghost LIMIT = { 2 ^ 21 };

    ghost Base = { Params };

    ghost base = { λ table. table.params.value };

    ghost told = { λ table. entries_of table.map.entries };

    ghost is_sound = { IsSound };

    ghost fits = { Fits };

    ghost allows = { λ _ list call reply. Allows list call reply };

    ghost after = { λ _ list call reply. list_after list call reply };

    fn len(&self) -> u64 {
        self.map.len() as u64
    }

    #[inline(always)]
    fn act(&mut self, call: MemoCall) -> MemoReply {
        match call {
            MemoCall::Ask(key) => MemoReply::Asked(self.find(key)),
            MemoCall::Put(key, finished) => MemoReply::Published(self.publish(key, finished)),
            MemoCall::Read { first, most, room } => MemoReply::Listed(self.read(first, most, room)),
        }
    }

    ghost told_is_sound = { λ table. untold table.params.value (entries_of table.map.entries) table.within table.sound };

    ghost told_is_short = { λ table. table.short };

    ghost appends_at_most_one = { λ _ list call reply allowed. appends list call reply allowed };

    ghost still_fits = { λ base list longer call fits sound more. fits_stays base list longer call more fits };
}
