//! The instance at the front of an input.

ghost use Rattle.std.specs.Prelude.{◌≤◌, length, drop, IfOk, IfErr};
ghost use Rattle.cts_read.specs.Grammar.{Refuses};
ghost use Rattle.cts_notes.specs.Front.{SpellsFront, front_of, input_limit};

use cts_instance::Instance;
use cts_read::{ReadStop, read_instance};
use std::alloc::Global;

/// The most bytes of an input that are accepted: 64 MiB.
pub const INPUT_LIMIT: usize = 67_108_864;

/// The instance at the front of an input that is not too long, and how many of the bytes are those of its
/// lines; or the first line that offends, with its first cause, or that memory ran out.
#[tactic(auto, using(crate::proofs::Fronts::front_refused))]
pub fn read_front(alloc: Global, bytes: &[u8]) -> Result<(Instance, usize), ReadStop>
    requires { length bytes.now ≤ input_limit }
    ensures spells { IfOk result (λ r. SpellsFront bytes.now r.0 (drop r.1 bytes.now)) }
    ensures within { IfOk result (λ r. r.1 ≤ length bytes.now) }
    ensures refused { IfErr result (λ stop. Refuses stop (front_of bytes.now)) }
{
    let taken = read_instance(alloc, bytes)?;
    Ok((taken.instance, taken.used))
}
