//! The instance that an input spells, and scripts after it.

ghost use Rattle.std.specs.Prelude.{◌≤◌, length, IfOk, IfErr};
ghost use Rattle.cts_read.specs.Grammar.{Refuses};
ghost use Rattle.cts_script.specs.Steps.{IsCallerCount};
ghost use Rattle.cts_notes.specs.Front.{input_limit};
ghost use Rattle.cts_top.specs.Input.{Spells, SpellsScripts, input_of, scripted_of};

use cts_instance::Instance;
use cts_read::{ReadStop, read_instance, read_rest};
use cts_script::{Script, read_script};
use std::alloc::Global;

/// Gives the room of a long input back to the system, so that it is not kept for the lists that come after
/// it.
pub fn give_back(bytes: Vec<u8>) {
    let mut bytes = bytes;
    bytes.clear();
    bytes.shrink_to(1);
}

/// The instance of an input that is not too long, which nothing but lines that are skipped may follow; or the
/// first line that offends, with its first cause, or that memory ran out.
pub fn read_input(alloc: Global, bytes: &[u8]) -> Result<Instance, ReadStop>
    requires { length bytes.now ≤ input_limit }
    ensures spells { IfOk result (Spells bytes.now) }
    ensures refused { IfErr result (λ stop. Refuses stop (input_of bytes.now)) }
{
    let taken = read_instance(alloc, bytes)?;
    read_rest(&bytes[taken.used..], taken.lines)?;
    Ok(taken.instance)
}

/// The instance at the front of an input that is not too long, and the scripts of all callers after it, which
/// nothing but lines that are skipped may follow; or the first line that offends, with its first cause, or that
/// memory ran out.
pub fn read_scripts(alloc: Global, bytes: &[u8]) -> Result<(Instance, Vec<Script>), ReadStop>
    requires { length bytes.now ≤ input_limit }
    ensures spells { IfOk result (λ r. SpellsScripts bytes.now r.0 r.1.items) }
    ensures refused { IfErr result (λ stop. Refuses stop (scripted_of bytes.now)) }
    ensures callers { IfOk result (λ r. IsCallerCount (length r.1.items)) }
{
    let taken = read_instance(alloc, bytes)?;
    let scripts = read_script(alloc, &bytes[taken.used..], taken.lines)?;
    Ok((taken.instance, scripts))
}
