//! Room for the lists of a form.

ghost use Rattle.std.specs.Prelude.{◌≡◌, [], IfOk};

use std::alloc::{AllocError, Global};

/// More than the figures of the greatest tree, which come last, and less than its nodes, which then get pages of
/// their own: in bytes.
pub const TREE_ROOM: usize = 9_000_000;

/// More than the report of most trees: in bytes. The C library lets lists of up to 32 MiB lie in one heap.
pub const REPORT_ROOM: usize = 31 << 20;

/// The length in bytes of a heap's first piece.
const FIRST: usize = 65_536;

/// Asks for room and gives it back. The C library then keeps lists of up to this length in one heap, where
/// each takes the place of those that went, and asks the system for the pages of longer ones alone. Whether
/// there is such room doesn't matter.
///
/// Answers the first piece of that heap. Short lists take its place once it goes, and then don't lie between
/// long ones.
pub fn open_heap(alloc: Global, room: usize) -> Result<Vec<u8>, AllocError>
    ensures { IfOk result (λ first. first.items ≡ []) }
{
    let first = Vec::with_capacity(alloc, FIRST);
    let _asked: Result<Vec<u8>, AllocError> = Vec::with_capacity(alloc, room);
    first
}
