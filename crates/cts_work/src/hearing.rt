//! What is heard of the entries that callers publish.

ghost use Rattle.std.specs.Prelude.{◌≡◌, List, Some, slice_get};
ghost use mathlib.Core.List.{IsPrefix};
ghost use Rattle.cts_turn.specs.Passes.{seen_by};
ghost use Rattle.cts_memo.specs.declared.entry.MemoEntry.{MemoEntry};
ghost use Rattle.cts_memo.specs.Passes.{IsPassOf};
ghost use Rattle.cts_work.specs.Built.{GoesOn};
ghost use Rattle.cts_work.specs.Known.{IsKnown, StandFrom};

use crate::known::{Known, add};
use crate::node::Built;
use cts_memo::{Memo, MemoEntry, MemoPass};
use cts_num::NoMemory;
use std::alloc::Global;
use std::sync::Wait;

/// So many entries are read in one call of the memo: so few that no other caller waits long.
const AT_ONCE: u32 = 128;

/// So many entries ahead of what was heard is far.
const FAR: u32 = 32;

/// The most calls at one time: as many as all 2^21 entries take, and one more.
const MOST_CALLS: u32 = (1 << 21) / AT_ONCE + 1;

impl Known {
    /// Hears one entry, unless it is known, or more nodes are known than are kept.
    fn hear_one(&mut self, entry: &MemoEntry, number: u32) -> Result<(), NoMemory>
        ensures known { (seen : List MemoEntry) → slice_get seen number ≡ Some entry.now → IsKnown seen self.old → IsKnown seen self.new }
        ensures next { self.new.next ≡ self.old.next }
        ensures more { IsPrefix self.old.nodes.items self.new.nodes.items }
    {
        if self.nodes.len() >= self.most() {
            return Ok(());
        }
        if self.hints.in_cell(&self.nodes, entry.key).is_some() {
            return Ok(());
        }
        let node = Built {
            key: Some(entry.key),
            number: Some(number),
            finished: entry.finished,
        };
        add(&mut self.nodes, node)?;
        Ok(())
    }

    /// Hears entries of which the first has the number that is next, until memory runs out.
    fn hear(&mut self, entries: &[MemoEntry])
        ensures known { (seen : List MemoEntry) → StandFrom seen self.old.next entries.now → IsKnown seen self.old → IsKnown seen self.new }
        ensures more { IsPrefix self.old.nodes.items self.new.nodes.items }
    {
        for entry in entries {
            let number = self.next;
            let Some(after) = number.checked_add(1) else {
                return;
            };
            if self.hear_one(entry, number).is_err() {
                return;
            }
            self.next = after;
        }
    }

    /// Hears the next entries of the memo, as many as one call reads, and tells whether there may be more.
    fn hear_next<R: Wait>(
        &mut self,
        rt: &R,
        alloc: Global,
        memo: &Memo,
        pass: &mut MemoPass,
    ) -> bool
        requires own { IsPassOf memo.now pass.old }
        requires known { IsKnown (seen_by pass.old) self.old }
        ensures pass { GoesOn memo.now pass.old pass.new }
        ensures known { IsKnown (seen_by pass.new) self.new }
        ensures more { IsPrefix self.old.nodes.items self.new.nodes.items }
    {
        let first = self.next;
        match memo.read(rt, alloc, pass, first, AT_ONCE) {
            Ok(entries) => {
                self.hear(&entries);
                self.next.wrapping_sub(first) == AT_ONCE
            }
            Err(NoMemory) => false,
        }
    }

    /// Hears all entries of the memo that came since the last time, or some of them where memory runs out.
    fn hear_all<R: Wait>(&mut self, rt: &R, alloc: Global, memo: &Memo, pass: &mut MemoPass)
        requires own { IsPassOf memo.now pass.old }
        requires known { IsKnown (seen_by pass.old) self.old }
        ensures pass { GoesOn memo.now pass.old pass.new }
        ensures known { IsKnown (seen_by pass.new) self.new }
        ensures more { IsPrefix self.old.nodes.items self.new.nodes.items }
    {
        for _ in 0..MOST_CALLS {
            if !self.hear_next(rt, alloc, memo, pass) {
                return;
            }
        }
    }

    /// Hears what came to the memo since the last tree; nothing before the first one.
    pub(crate) fn listen<R: Wait>(
        &mut self,
        rt: &R,
        alloc: Global,
        memo: &Memo,
        pass: &mut MemoPass,
    )
        requires own { IsPassOf memo.now pass.old }
        requires known { IsKnown (seen_by pass.old) self.old }
        ensures pass { GoesOn memo.now pass.old pass.new }
        ensures known { IsKnown (seen_by pass.new) self.new }
        ensures more { IsPrefix self.old.nodes.items self.new.nodes.items }
    {
        if self.hints.cells.is_empty() {
            return;
        }
        self.hear_all(rt, alloc, memo, pass);
        self.hints.note(&self.nodes);
    }

    /// Whether many entries came since this caller heard: the last node that it knows stands far behind them.
    fn is_behind(&self) -> bool {
        match self.nodes.last().and_then(|node| node.number) {
            Some(number) => number >= self.next.saturating_add(FAR),
            None => false,
        }
    }

    /// Hears what others published meanwhile, where it is much.
    pub(crate) fn catch_up<R: Wait>(
        &mut self,
        rt: &R,
        alloc: Global,
        memo: &Memo,
        pass: &mut MemoPass,
    )
        requires own { IsPassOf memo.now pass.old }
        requires known { IsKnown (seen_by pass.old) self.old }
        ensures pass { GoesOn memo.now pass.old pass.new }
        ensures known { IsKnown (seen_by pass.new) self.new }
        ensures more { IsPrefix self.old.nodes.items self.new.nodes.items }
    {
        if self.is_behind() {
            self.hints.note(&self.nodes);
            self.listen(rt, alloc, memo, pass);
        }
    }
}
