//! The memo: a table on which threads take turns.

ghost use Rattle.std.specs.Prelude.{◌≡◌, ◌≤◌, ◌<◌, ◌+◌, ◌-◌, ◌/◌, ◌⊎◌, ◌↔◌, [], length, IfOk, IfErr};
ghost use Rattle.std.specs.Coded.{Coded-set};
ghost use Rattle.std.proofs.Props.{props};
ghost use mathlib.Core.List.{IsPrefix};
ghost use Rattle.cts_units.specs.Limits.{IsParams};
ghost use Rattle.cts_turn.specs.Passes.{made_by, seen_by, share_of};

use crate::entry::{Answer, MemoCall, MemoEntry, MemoReply, PutEnd};
use crate::key::Key;
use crate::secret::Secret;
use crate::table::Table;
use cts_merge::Finished;
use cts_num::NoMemory;
use cts_turn::{Pass, StillOut, Turn};
use cts_units::Params;
use std::alloc::Global;
use std::sync::Wait;

/// The right to call a memo, and what its holder has seen and made of the memo's entries.
pub type MemoPass = Pass<Table>;

/// A memo of finished subtrees, all made with the same parameters. Threads share it by turns.
#[derive(Drop)]
pub struct Memo {
    turn: Turn<Table>,
    params: Params,
    ghost empty: { turn.table.shared.key.value.map.entries ≡ [] } by { Prim.hlevel props },
    ghost same: { turn.table.shared.key.value.params.value ≡ params } by { Coded-set params-code _ _ },
}

/// A memo can't be closed while other passes are out. Memo and pass come back.
#[derive(Drop)]
pub struct MemoOut {
    pub memo: Memo,
    pub pass: MemoPass,
    /// What is missing of 65,536.
    pub out: u32,
}

impl Memo {
    ghost use Rattle.std.specs.Prelude.{drop, slice_get, take};
    ghost use Rattle.cts_memo.specs.declared.entry.Answer.{Answer};
    ghost use Rattle.cts_memo.specs.Replies.{IsAbsent, IsFound, IsPublished};
    ghost use Rattle.cts_memo.specs.Sound.{IsMadeOf, IsSound, NamesEntries, max_entries};
    ghost use Rattle.cts_memo.specs.Passes.{IsPassOf, IsPublication, params_of};
    ghost use Rattle.cts_memo.specs.Tables.{base_of, told_by};

    /// A memo without entries, with room for so many, or for 2^21 where that is less, and the pass with the whole share of
    /// it. Its room grows with its entries. The secret is that of the hash of keys; no answer depends on it. `NoMemory` comes
    /// where an allocation fails.
    pub fn start_with_room(
        alloc: Global,
        params: &Params,
        secret: Secret,
        entries: usize,
    ) -> Result<(Memo, MemoPass), NoMemory>
        requires { IsParams params.now }
        ensures params { IfOk result (λ m. params_of m.0 ≡ params.now) }
        ensures own { IfOk result (λ m. IsPassOf m.0 m.1) }
        ensures pass { IfOk result (λ m. (seen_by m.1 ≡ []) × (made_by m.1 ≡ 0) × (share_of m.1 ≡ 65536)) }
    {
        let kept = params.try_clone(alloc)?;
        let table = Table::with_room(alloc, params, secret, entries)?;
        let (turn, pass) = Turn::start(alloc, table)?;
        Ok((Memo { turn, params: kept }, pass))
    }

    /// The same without room for any entry.
    pub fn start_seeded(
        alloc: Global,
        params: &Params,
        secret: Secret,
    ) -> Result<(Memo, MemoPass), NoMemory>
        requires { IsParams params.now }
        ensures params { IfOk result (λ m. params_of m.0 ≡ params.now) }
        ensures own { IfOk result (λ m. IsPassOf m.0 m.1) }
        ensures pass { IfOk result (λ m. (seen_by m.1 ≡ []) × (made_by m.1 ≡ 0) × (share_of m.1 ≡ 65536)) }
    {
        Memo::start_with_room(alloc, params, secret, 0)
    }

    /// A memo without entries, and the pass with the whole share of it. Everybody knows the secret of its
    /// hash, so it is for sinks that nobody picked to do harm.
    pub fn start(alloc: Global, params: &Params) -> Result<(Memo, MemoPass), NoMemory>
        requires { IsParams params.now }
        ensures params { IfOk result (λ m. params_of m.0 ≡ params.now) }
        ensures own { IfOk result (λ m. IsPassOf m.0 m.1) }
        ensures pass { IfOk result (λ m. (seen_by m.1 ≡ []) × (made_by m.1 ≡ 0) × (share_of m.1 ≡ 65536)) }
    {
        Memo::start_seeded(alloc, params, Secret::known())
    }

    /// The parameters that all entries are made with.
    pub fn params(&self) -> &Params
        ensures params { result.now ≡ params_of self.now }
        ensures within { IsParams result.now }
    {
        &self.params
    }

    /// Splits a pass in two, so that one of them can go to another thread. Both have seen what the
    /// pass had seen. The first keeps what the pass made, and the greater half of its share.
    pub fn split(&self, pass: MemoPass) -> (MemoPass, MemoPass)
        requires own { IsPassOf self.now pass }
        requires share { 2 ≤ share_of pass }
        ensures own { IsPassOf self.now result.0 × IsPassOf self.now result.1 }
        ensures seen { (seen_by result.0 ≡ seen_by pass) × (seen_by result.1 ≡ seen_by pass) }
        ensures made { (made_by result.0 ≡ made_by pass) × (made_by result.1 ≡ 0) }
        ensures share { (share_of result.0 ≡ share_of pass - share_of pass / 2) × (share_of result.1 ≡ share_of pass / 2) }
    {
        self.turn.split(pass)
    }

    /// Joins two passes. Of the lists that they had seen one begins the other, and the longer one
    /// stays. Shares, and the numbers of entries made, add up.
    pub fn join(&self, a: MemoPass, b: MemoPass) -> MemoPass
        requires own { IsPassOf self.now a × IsPassOf self.now b }
        ensures own { IsPassOf self.now result }
        ensures seen { ((seen_by result ≡ seen_by a) × IsPrefix (seen_by b) (seen_by a)) ⊎ ((seen_by result ≡ seen_by b) × IsPrefix (seen_by a) (seen_by b)) }
        ensures made { made_by result ≡ made_by a + made_by b }
        ensures share { share_of result ≡ share_of a + share_of b }
    {
        self.turn.join(a, b)
    }

    /// Looks a key up, once it is this call's turn.
    pub fn ask<R: Wait>(&self, rt: &R, pass: &mut MemoPass, key: Key) -> Answer
        requires own { IsPassOf self.now pass.old }
        requires key { NamesEntries (seen_by pass.old) key }
        ensures own { IsPassOf self.now pass.new }
        ensures share { share_of pass.new ≡ share_of pass.old }
        ensures made { made_by pass.new ≡ made_by pass.old }
        ensures goes_on { IsPrefix (seen_by pass.old) (seen_by pass.new) }
        ensures found { IsFound (seen_by pass.new) key result }
        ensures absent { (result ≡ Answer.Absent) ↔ IsAbsent (seen_by pass.new) key }
    {
        match self.turn.call(rt, pass, MemoCall::Ask(key)) {
            MemoReply::Asked(answer) => answer,
            MemoReply::Published(_) => unreachable!(),
            MemoReply::Listed(_) => unreachable!(),
        }
    }

    /// Publishes what was made of a key, once it is this call's turn.
    ///
    /// `At` tells the number of the key's entry, which was appended or found. `Full` comes exactly where
    /// the key isn't there and there are 2^21 entries, `NoMemory` where the table could not grow; then
    /// the table is as before.
    #[inline(always)]
    pub fn put<R: Wait>(&self, rt: &R, pass: &mut MemoPass, key: Key, finished: Finished) -> PutEnd
        requires own { IsPassOf self.now pass.old }
        requires key { NamesEntries (seen_by pass.old) key }
        requires finished { IsMadeOf (params_of self.now) (seen_by pass.old) key finished }
        ensures own { IsPassOf self.now pass.new }
        ensures share { share_of pass.new ≡ share_of pass.old }
        ensures goes_on { IsPrefix (seen_by pass.old) (seen_by pass.new) }
        ensures publication { IsPublication (params_of self.now) (seen_by pass.old) (made_by pass.old) key finished result (seen_by pass.new) (made_by pass.new) }
        ensures ends { IsPublished (seen_by pass.new) key finished result }
        ensures full { (result ≡ PutEnd.Full) ↔ (IsAbsent (seen_by pass.new) key × (length (seen_by pass.new) ≡ max_entries)) }
    {
        match self.turn.call(rt, pass, MemoCall::Put(key, finished)) {
            MemoReply::Published(end) => end,
            MemoReply::Asked(_) => unreachable!(),
            MemoReply::Listed(_) => unreachable!(),
        }
    }

    /// Reads the entries from a number on, once it is this call's turn: so many, or as many as there are.
    /// `NoMemory` comes where the room for them can't be had.
    pub fn read<R: Wait>(
        &self,
        rt: &R,
        alloc: Global,
        pass: &mut MemoPass,
        first: u32,
        most: u32,
    ) -> Result<Vec<MemoEntry>, NoMemory>
        requires own { IsPassOf self.now pass.old }
        ensures own { IsPassOf self.now pass.new }
        ensures share { share_of pass.new ≡ share_of pass.old }
        ensures made { made_by pass.new ≡ made_by pass.old }
        ensures goes_on { IsPrefix (seen_by pass.old) (seen_by pass.new) }
        ensures entries { IfOk result (λ entries. entries.items ≡ take most (drop first (seen_by pass.new))) }
    {
        let room = Vec::with_capacity(alloc, most as usize)?;
        let call = MemoCall::Read { first, most, room };
        match self.turn.call(rt, pass, call) {
            MemoReply::Listed(entries) => entries,
            MemoReply::Asked(_) => unreachable!(),
            MemoReply::Published(_) => unreachable!(),
        }
    }

    /// Ends a memo whose passes are all joined, and gives its table. Otherwise memo and pass come back,
    /// with what is missing of the share.
    pub fn close(self, pass: MemoPass) -> Result<Table, MemoOut>
        requires own { IsPassOf self pass }
        ensures whole { IfOk result (λ _. share_of pass ≡ 65536) }
        ensures table { IfOk result (λ table. (told_by table ≡ seen_by pass) × (base_of table ≡ params_of self)) }
        ensures sound { IfOk result (λ table. IsSound (base_of table) (told_by table)) }
        ensures made { IfOk result (λ _. length (seen_by pass) ≡ made_by pass) }
        ensures out { IfErr result (λ e. (0 < e.out) × (e.out + share_of pass ≡ 65536)) }
        ensures back { IfErr result (λ e. (e.memo ≡ self) × (e.pass ≡ pass)) }
    {
        let Memo { turn, params } = self;
        match turn.close(pass) {
            Ok(table) => Ok(table),
            Err(StillOut { turn, pass, out }) => Err(MemoOut {
                memo: Memo { turn, params },
                pass,
                out,
            }),
        }
    }
}
