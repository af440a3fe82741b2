//! Reading all that a source has.

ghost use Rattle.std.specs.Prelude.{◌≡◌, ℕ, List, ◌+◌, ◌++◌, ◌^◌, ◌<◌, ◌≤◌, length, vec_len, IfOk, IfSome, OnOk, IsErrOf};
ghost use Rattle.std.specs.Io.KnownBytes.{IsAtEnd};
ghost use Rattle.cts_io.specs.Faults.{Rose};
ghost use Rattle.cts_io.specs.Taken.{TakesFirst};
ghost use Rattle.cts_io.specs.declared.read.ReadEnd.TheVariants.{ReadFault, NoMemory};

use crate::device::{ByteSource, Failed};
use std::alloc::{AllocError, Global};
use thiserror::Error;

/// The most bytes that one call of `read` asks for: 64 KiB.
const BLOCK: usize = 65_536;

/// Why not all of an input was read.
#[derive(Debug, Drop, Error)]
pub enum ReadEnd {
    /// A read failed.
    #[error("the input can't be read")]
    ReadFault,
    /// The input is longer than is accepted.
    #[error("the input is too long")]
    TooLong,
    /// Memory ran out.
    #[error("no memory")]
    NoMemory,
}

impl From<Failed> for ReadEnd {
    ghost from_gives = { λ _ end. end ≡ ReadFault };

    fn from(_failed: Failed) -> ReadEnd {
        ReadEnd::ReadFault
    }
}

impl From<AllocError> for ReadEnd {
    ghost from_gives = { λ _ end. end ≡ NoMemory };

    fn from(_error: AllocError) -> ReadEnd {
        ReadEnd::NoMemory
    }
}

/// Reads all bytes up to the end of the input, of which `limit` are accepted.
///
/// - `Ok`: all bytes that were left, at most `limit` of them. None is left.
/// - `TooLong`: exactly where `limit + 1` bytes were taken. At every other end fewer were.
/// - `ReadFault`: only where the source's count of faults rose in this call.
/// - `NoMemory`: an allocation failed.
///
/// What was taken is the front of what was left. It takes at least one byte in each turn but the
/// last, so its turns are at most `limit + 2`.
pub fn read_all<S: ByteSource>(
    alloc: Global,
    source: &mut S,
    limit: usize,
) -> Result<Vec<u8>, ReadEnd>
    requires { limit < 2 ^ 32 }
    ensures all { IfOk result (λ bytes. IfSome (S.left source.old) (λ left. bytes.items ≡ left)) }
    ensures end { OnOk result (IsAtEnd (S.left source.new)) }
    ensures within { IfOk result (λ bytes. vec_len bytes ≤ limit) }

    ensures too_long { IsErrOf result ReadEnd.TooLong
        → TakesFirst (S.left source.old) (S.left source.new) (limit + 1) }
    ensures longer { IsErrOf result ReadEnd.TooLong
        → IfSome (S.left source.old) (λ left. limit < length left) }
    ensures fewer { (IsErrOf result ReadEnd.TooLong → ⊥)
        → (n : ℕ) × (n ≤ limit) × TakesFirst (S.left source.old) (S.left source.new) n }

    ensures read_fault { IsErrOf result ReadEnd.ReadFault
        → Rose (S.faults source.old) (S.faults source.new) }
    ensures counted { S.faults source.old ≤ S.faults source.new }
{
    let mut bytes = Vec::new(alloc);
    let mut block = vec![in alloc; 0; BLOCK]?;
    loop {
        let asked = BLOCK.min(limit + 1 - bytes.len());
        let part = &mut block[..asked];
        let count = source.read(part)?;
        if count == 0 {
            return Ok(bytes);
        }
        if bytes.len() + count > limit {
            return Err(ReadEnd::TooLong);
        }
        append(&mut bytes, &part[..count])?;
    }
}

/// Appends some bytes. The list grows by a quarter at a time and not to twice its length: so a report of 24 MB is
/// never in a list above 32 MB, which the C library would keep apart from the heap that later lists take.
fn append(bytes: &mut Vec<u8>, more: &[u8]) -> Result<(), AllocError>
    ensures items { OnOk result (bytes.new.items ≡ bytes.old.items ++ more.now) }
    ensures len { OnOk result (vec_len bytes.new ≡ vec_len bytes.old + length more.now) }
{
    if bytes.capacity() - bytes.len() < more.len() {
        bytes.reserve_exact(more.len().max(bytes.len() / 4))?;
    }
    bytes.extend_from_slice(more)
}
