//! A memo of leaves on the x axis, with 5 zF each.

ghost use Rattle.std.specs.Prelude.{◌≡◌, ◌≤◌, ◌≤ℤ◌, ◌^◌, pos};
ghost use Rattle.cts_turn.specs.Passes.{share_of};
ghost use Rattle.cts_memo.specs.Passes.{IsPassOf};

use crate::compare::same;
use crate::leaves::{begin, closed, key_at, put_leaf};
use cts_memo::laws::memo_is_shared;
use cts_memo::{Answer, Key, Memo, MemoOut, MemoPass, PutEnd, Table};
use cts_turn::Object;
use std::alloc::Global;
use std::process::Abort;
use std::sync::Wait;
use std::test::Fail;
use std::thread::{Threads, join};

/// Publishes a leaf with 5 zF.
fn put<R: Wait>(rt: &R, memo: &Memo, pass: &mut MemoPass, x: i64) -> PutEnd
    requires own { IsPassOf memo.now pass.old }
    requires low { pos 0 ≤ℤ x }
    requires high { x ≤ℤ pos (10 ^ 8) }
    ensures own { IsPassOf memo.now pass.new }
    ensures share { share_of pass.new ≡ share_of pass.old }
{
    put_leaf(rt, memo, pass, x, 5)
}

/// The number and the load of a leaf that is looked up.
fn ask<R: Wait>(rt: &R, memo: &Memo, pass: &mut MemoPass, x: i64) -> Option<(u32, u64)>
    requires own { IsPassOf memo.now pass.old }
    ensures own { IsPassOf memo.now pass.new }
    ensures share { share_of pass.new ≡ share_of pass.old }
{
    match memo.ask(rt, pass, key_at(x, 5)) {
        Answer::Have { number, finished } => Some((number, finished.side.load)),
        Answer::Absent => None,
    }
}

/// Publishes the leaves at 0 and at 10 nm, and asks for the second one before and after.
fn put_two<R: Wait + Abort>(rt: &R, memo: &Memo, pass: &mut MemoPass)
    requires own { IsPassOf memo.now pass.old }
    ensures own { IsPassOf memo.now pass.new }
{
    same(rt, "absent at first", ask(rt, memo, pass, 10), None);
    let first = PutEnd::At { number: 0 };
    same(rt, "the first leaf", put(rt, memo, pass, 0), first);
    let second = PutEnd::At { number: 1 };
    same(rt, "the second leaf", put(rt, memo, pass, 10), second);
    same(rt, "the first leaf again", put(rt, memo, pass, 0), first);
    same(rt, "found", ask(rt, memo, pass, 10), Some((1, 5)));
}

/// A table has two entries, the second of which is the leaf at 10 nm.
fn has_two<R: Abort>(rt: &R, table: &Table) {
    same(rt, "entries", table.len(), 2);
    let second = match table.entry(1) {
        Some(entry) => Some(entry.key),
        None => None,
    };
    same(rt, "the second key", second, Some(key_at(10, 5)));
    assert!(rt; table.entry(2).is_none());
}

#[test]
fn a_leaf_is_found_again(rt: HostRuntime) -> Result<(), Fail> {
    let (memo, mut pass) = begin(rt.alloc())?;
    put_two(&rt, &memo, &mut pass);
    same(&rt, "the wire", memo.params().wire.r, 1);
    let table = closed(&rt, memo, pass);
    has_two(&rt, &table);
    Ok(())
}

/// How many entries are read from a number on, at most so many, and the key of the first one.
fn read<R: Wait>(
    rt: &R,
    alloc: Global,
    memo: &Memo,
    pass: &mut MemoPass,
    first: u32,
    most: u32,
) -> Option<(usize, Option<Key>)>
    requires own { IsPassOf memo.now pass.old }
    ensures own { IsPassOf memo.now pass.new }
{
    let entries = memo.read(rt, alloc, pass, first, most).ok()?;
    let key = match entries.first() {
        Some(entry) => Some(entry.key),
        None => None,
    };
    Some((entries.len(), key))
}

/// Reads the leaves at 0 and at 10 nm, both, one of them, and what comes after them.
fn reads_two<R: Wait + Abort>(rt: &R, alloc: Global, memo: &Memo, pass: &mut MemoPass)
    requires own { IsPassOf memo.now pass.old }
    ensures own { IsPassOf memo.now pass.new }
{
    let (at_0, at_10) = (Some(key_at(0, 5)), Some(key_at(10, 5)));
    same(
        rt,
        "both",
        read(rt, alloc, memo, pass, 0, 8),
        Some((2, at_0)),
    );
    same(
        rt,
        "the second",
        read(rt, alloc, memo, pass, 1, 8),
        Some((1, at_10)),
    );
    same(
        rt,
        "one of two",
        read(rt, alloc, memo, pass, 0, 1),
        Some((1, at_0)),
    );
    same(
        rt,
        "none",
        read(rt, alloc, memo, pass, 2, 8),
        Some((0, None)),
    );
}

#[test]
fn entries_are_read_by_their_numbers(rt: HostRuntime) -> Result<(), Fail> {
    let (memo, mut pass) = begin(rt.alloc())?;
    put_two(&rt, &memo, &mut pass);
    reads_two(&rt, rt.alloc(), &memo, &mut pass);
    Ok(())
}

/// Memo and pass, which come back since the other half of the share is out.
fn still_open<R: Abort>(rt: &R, memo: Memo, pass: MemoPass) -> (Memo, MemoPass)
    requires { IsPassOf memo pass }
    ensures memo { result.0 ≡ memo }
    ensures pass { result.1 ≡ pass }
{
    match memo.close(pass) {
        Ok(_) => panic!(rt; "the second pass is out"),
        Err(MemoOut { memo, pass, out }) => {
            same(rt, "half of it", out, 32_768);
            (memo, pass)
        }
    }
}

#[test]
fn a_pass_that_is_out_keeps_the_memo_open(rt: HostRuntime) -> Result<(), Fail> {
    let (memo, pass) = begin(rt.alloc())?;
    let (first, second) = memo.split(pass);
    let (memo, first) = still_open(&rt, memo, first);
    let pass = memo.join(second, first);
    closed(&rt, memo, pass);
    Ok(())
}

/// Publishes the first leaves of the axis.
fn put_leaves<R: Wait>(rt: &R, memo: &Memo, mut pass: MemoPass, count: u32) -> MemoPass
    requires own { IsPassOf memo.now pass }
    requires count { count ≤ 2 ^ 21 }
    ensures own { IsPassOf memo.now result }
    ensures share { share_of result ≡ share_of pass }
{
    for x in 0..count {
        put(rt, memo, &mut pass, x as i64);
    }
    pass
}

/// Two threads publish the same leaves.
fn put_beside<R: Threads + Wait + Sync>(
    rt: &R,
    memo: &Memo,
    first: MemoPass,
    second: MemoPass,
) -> MemoPass
    requires first { IsPassOf memo.now first }
    requires second { IsPassOf memo.now second }
    ensures { IsPassOf memo.now result }
{
    memo_is_shared();
    let (first, second) = join(
        rt,
        || put_leaves(rt, memo, first, 100),
        || put_leaves(rt, memo, second, 100),
    );
    memo.join(first, second)
}

#[test]
fn two_threads_share_their_entries(rt: HostRuntime) -> Result<(), Fail> {
    let (memo, pass) = begin(rt.alloc())?;
    let (first, second) = memo.split(pass);
    let pass = put_beside(&rt, &memo, first, second);
    same(&rt, "entries", closed(&rt, memo, pass).len(), 100);
    Ok(())
}
