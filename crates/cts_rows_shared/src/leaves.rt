//! Memos over a wire of 1 µΩ and 1 zF per nm and no buffer, and leaves of sinks on the x axis.

ghost use Rattle.std.specs.Prelude.{◌≡◌, ◌^◌, ◌≤◌, ◌≤ℤ◌, pos, IfOk};
ghost use Rattle.cts_units.specs.Limits.{IsParams};
ghost use Rattle.cts_turn.specs.Passes.{share_of};
ghost use Rattle.cts_memo.specs.Passes.{IsPassOf};
ghost use Rattle.cts_memo.specs.Keys.{leaf_key};

use crate::instances::sink;
use cts_memo::{Key, Memo, MemoPass, PutEnd, Table};
use cts_merge::leaf;
use cts_units::{Library, Params, Wire};
use std::alloc::Global;
use std::process::Abort;
use std::sync::Wait;
use std::test::Fail;

/// A wire of 1 µΩ and 1 zF per nm and no buffer.
pub(crate) fn params(alloc: Global) -> Params
    ensures { IsParams result }
{
    Params {
        wire: Wire { r: 1, c: 1 },
        library: Library::of(Vec::new(alloc)),
        insert_at: 0,
    }
}

/// A memo without entries.
pub(crate) fn begin(alloc: Global) -> Result<(Memo, MemoPass), Fail>
    ensures own { IfOk result (λ m. IsPassOf m.0 m.1) }
    ensures share { IfOk result (λ m. share_of m.1 ≡ 65536) }
{
    Ok(Memo::start(alloc, &params(alloc))?)
}

/// The table of a memo whose passes are all joined.
pub(crate) fn closed<R: Abort>(rt: &R, memo: Memo, pass: MemoPass) -> Table
    requires { IsPassOf memo pass }
{
    match memo.close(pass) {
        Ok(table) => table,
        Err(_) => panic!(rt; "a pass is out"),
    }
}

/// The key of a sink's leaf.
pub(crate) fn key_at(x: i64, cap: u64) -> Key
    ensures { result ≡ leaf_key (record { id = 0; x = x; y = pos 0; cap = cap; offset = 0 }) }
{
    Key::of_sink(&sink(0, x, 0, cap))
}

/// Publishes the leaf of a sink.
pub(crate) fn put_leaf<R: Wait>(
    rt: &R,
    memo: &Memo,
    pass: &mut MemoPass,
    x: i64,
    cap: u64,
) -> PutEnd
    requires own { IsPassOf memo.now pass.old }
    requires low { pos 0 ≤ℤ x }
    requires high { x ≤ℤ pos (10 ^ 8) }
    requires cap { cap ≤ 10 ^ 12 }
    ensures own { IsPassOf memo.now pass.new }
    ensures share { share_of pass.new ≡ share_of pass.old }
{
    let finished = leaf(&sink(0, x, 0, cap));
    memo.put(rt, pass, key_at(x, cap), finished)
}
