//! A design that is shared by turns: how it begins, and its two calls.

ghost use Rattle.std.specs.Prelude.{◌≡◌, ◌+◌, [], length, IfOk, IfSome};
ghost use mathlib.Core.List.{IsPrefix};
ghost use Rattle.cts_instance.specs.Validity.{IsValid, with_sinks};
ghost use Rattle.cts_turn.specs.Passes.{made_by, seen_by, share_of};
ghost use Rattle.cts_edit.specs.Edits.{IsEdit, after};
ghost use Rattle.cts_edit.specs.Sound.{IsSound};
ghost use Rattle.cts_design.specs.Passes.{IsPassOf, IsEdited, instance_of, made_in, opening_of, version_in};

use crate::call::{DesignCall, DesignReply};
use crate::design::Design;
use cts_edit::{EditReply, Entry};
use cts_instance::Instance;
use cts_num::NoMemory;
use cts_turn::{Pass, Turn};
use cts_units::Sink;
use std::alloc::Global;
use std::sync::Wait;

impl Design {
    /// A design of the instance without edits, and the pass with the whole share of it.
    pub fn start(
        alloc: Global,
        instance: &Instance,
    ) -> Result<(Turn<Design>, Pass<Design>), NoMemory>
        ensures base { IfOk result (λ d. instance_of d.0 ≡ instance.now) }
        ensures opening { IfOk result (λ d. opening_of d.0 ≡ []) }
        ensures own { IfOk result (λ d. IsPassOf d.0 d.1) }
        ensures pass { IfOk result (λ d. (seen_by d.1 ≡ []) × (made_by d.1 ≡ 0) × (share_of d.1 ≡ 65536)) }
    {
        let design = Design::of(alloc, instance)?;
        Turn::start(alloc, design)
    }
}

/// Judges an edit, once it is this call's turn, and makes it where it is accepted.
///
/// The edit is judged at a history that begins with all that the pass had seen. A refusal and want of
/// memory change nothing.
pub fn send_edit<R: Wait>(
    design: &Turn<Design>,
    rt: &R,
    pass: &mut Pass<Design>,
    entry: Entry,
) -> EditReply
    requires own { IsPassOf design.now pass.old }
    requires edit { IsEdit entry.edit }
    ensures own { IsPassOf design.now pass.new }
    ensures share { share_of pass.new ≡ share_of pass.old }
    ensures goes_on { IsPrefix (seen_by pass.old) (seen_by pass.new) }
    ensures edited { IsEdited (instance_of design.now) (seen_by pass.old) entry result (seen_by pass.new) }
    ensures made { made_by pass.new ≡ made_by pass.old + made_in result }
    ensures version { IfSome (version_in result) (λ version. version ≡ length (seen_by pass.new)) }
{
    match design.call(rt, pass, DesignCall::Change(entry)) {
        DesignReply::Changed(reply) => reply,
        DesignReply::Listed { .. } | DesignReply::NoMemory => unreachable!(),
    }
}

/// The sinks as they are when it is this call's turn, with how many edits were accepted so far.
pub fn snapshot<R: Wait>(
    design: &Turn<Design>,
    rt: &R,
    pass: &mut Pass<Design>,
) -> Result<(u32, Vec<Sink>), NoMemory>
    requires own { IsPassOf design.now pass.old }
    ensures own { IsPassOf design.now pass.new }
    ensures share { share_of pass.new ≡ share_of pass.old }
    ensures made { made_by pass.new ≡ made_by pass.old }
    ensures goes_on { IsPrefix (seen_by pass.old) (seen_by pass.new) }
    ensures version { IfOk result (λ listed. listed.0 ≡ length (seen_by pass.new)) }
    ensures sinks { IfOk result (λ listed. listed.1.items ≡ after (instance_of design.now).sinks (seen_by pass.new)) }
    ensures valid { IfOk result (λ listed. IsValid (with_sinks (instance_of design.now) listed.1.items)) }
{
    match design.call(rt, pass, DesignCall::Snapshot) {
        DesignReply::Listed { version, sinks } => Ok((version, sinks)),
        DesignReply::NoMemory => Err(NoMemory),
        DesignReply::Changed(_) => unreachable!(),
    }
}
