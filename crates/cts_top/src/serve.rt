//! What each form does, by one thread, or by the workers or the callers that it asks for.

ghost use Rattle.std.specs.Prelude.{◌≡◌, ◌≤◌, ◌<◌, ◌^◌, ◌↔◌, ℕ, [], length, drop, IfSome, IfOk, IfErr, OnOk, IsErrOf, IsSome};
ghost use Rattle.std.specs.Io.KnownBytes.{IsAtEnd};
ghost use Rattle.cts_io.specs.Faults.{Rose};
ghost use Rattle.cts_notes.specs.Front.{SpellsFront, front_of};
ghost use Rattle.cts_top.specs.Input.{Spells, input_of};
ghost use Rattle.cts_top.specs.Log.{log_of, no_log};
ghost use Rattle.cts_script.specs.Generator.{made_parts};
ghost use Rattle.cts_top.specs.Memos.{HasMemo, HoldsMemo, IsMemoOf, TellsOfTree};
ghost use Rattle.cts_top.specs.Outcome.{Serves, status_of};
ghost use Rattle.cts_near.specs.Ends.{max_near_sinks};
ghost use Rattle.cts_top.specs.Reading.{ExplainsBy, ExplainsFew};
ghost use Rattle.cts_top.specs.Right.{IsRight};
ghost use Rattle.cts_top.specs.Text.{TellsSynthesis, summary_in};
ghost use Rattle.cts_top.specs.Words.{IsAlone, IsWithinLimits};
ghost use Rattle.cts_top.specs.Written.{Answers};

use crate::answer::{Telling, answer_instance};
use crate::by_workers::answer_by_workers;
use crate::edit::serve_edit;
use crate::input::{give_back, read_input};
use crate::near::answer_near;
use crate::outcome::Kept;
use crate::replay::serve_replay;
use crate::room::{REPORT_ROOM, TREE_ROOM, open_heap};
use crate::stop::{Answer, Stop, ended};
use crate::trunk::serve_trunk;
use crate::verdict::answer_verdict;
use crate::words::Form;
use cts_instance::Instance;
use cts_io::{ByteSink, ByteSource, read_all};
use cts_memo::Table;
use cts_near::MAX_NEAR_SINKS;
use cts_notes::{INPUT_LIMIT, read_front};
use cts_num::NoMemory;
use cts_script::{make_instance, write_instance};
use cts_work::Gate;
use std::alloc::Global;
use std::sync::Wait;
use std::thread::Threads;

/// Does what a form asks for, where it asks for one thread; else it ends with `Words`.
pub fn serve_alone<R: Threads + Sync, S: ByteSource, K: ByteSink>(
    rt: &R,
    alloc: Global,
    form: Form,
    source: &mut S,
    sink: &mut K,
) -> Result<Answer, Stop>
    requires within { IsWithinLimits form }
    ensures serves { IsAlone form → Serves no_log form
        (record { tells = S.left; faults = S.faults; before = source.old; after = source.new })
        (record { tells = K.held; faults = K.faults; before = sink.old; after = sink.new }) result }
    ensures words { IsErrOf result Stop.Words ↔ ¬ IsAlone form }
    ensures unread { ¬ IsAlone form → source.new ≡ source.old }
    ensures unwritten { ¬ IsAlone form → sink.new ≡ sink.old }
{
    match form {
        Form::Synth { workers: 1 } => serve_synth(alloc, source, sink),
        Form::Check => serve_check(rt, alloc, source, sink),
        Form::Near => serve_near(alloc, source, sink),
        Form::Replay => serve_replay(alloc, source, sink),
        Form::Make { seed, sinks } => serve_make(alloc, sink, seed, sinks),
        Form::Job {
            seed,
            sinks,
            workers: 1,
        } => serve_job(alloc, sink, seed, sinks),
        Form::Trunk { step, buffer } => serve_trunk(alloc, source, sink, step, buffer),
        Form::Synth { .. } | Form::Job { .. } | Form::Edit => Err(Stop::Words),
    }
}

/// Reads an instance, and writes the report of its tree, or that there is none.
fn serve_synth<S: ByteSource, K: ByteSink>(
    alloc: Global,
    source: &mut S,
    sink: &mut K,
) -> Result<Answer, Stop>
    ensures serves { (workers : ℕ)
        → Serves no_log (Form.Synth workers)
        (record { tells = S.left; faults = S.faults; before = source.old; after = source.new })
        (record { tells = K.held; faults = K.faults; before = sink.old; after = sink.new }) result }
    ensures words { IsErrOf result Stop.Words → ⊥ }
{
    let instance = read_source(alloc, source)?;
    answer_instance(alloc, sink, Telling::Report, &instance)
}

/// The instance that an input spells, which is read to its end. Its bytes go before the synthesis begins.
pub fn read_source<S: ByteSource>(alloc: Global, source: &mut S) -> Result<Instance, Stop>
    ensures end { OnOk result (IsAtEnd (S.left source.new)) }
    ensures spells { IfOk result (λ instance. IfSome (S.left source.old) (λ bytes. Spells bytes instance)) }
    ensures explained { IfErr result (λ stop. IfSome (S.left source.old) (ExplainsBy input_of stop)) }
    ensures words { IsErrOf result Stop.Words → ⊥ }
    ensures many { IsErrOf result Stop.Many → ⊥ }
    ensures read_fault { IsErrOf result Stop.ReadFault → Rose (S.faults source.old) (S.faults source.new) }
    ensures write_fault { IsErrOf result Stop.WriteFault → ⊥ }
    ensures counted { S.faults source.old ≤ S.faults source.new }
{
    let _first = open_heap(alloc, TREE_ROOM);
    let bytes = read_all(alloc, source, INPUT_LIMIT)?;
    let read = read_input(alloc, &bytes);
    give_back(bytes);
    Ok(read?)
}

/// Reads an instance of few enough sinks, and writes the report of its tree over the nearest-pair topology, or that
/// there is none.
fn serve_near<S: ByteSource, K: ByteSink>(
    alloc: Global,
    source: &mut S,
    sink: &mut K,
) -> Result<Answer, Stop>
    ensures serves { Serves no_log Form.Near
        (record { tells = S.left; faults = S.faults; before = source.old; after = source.new })
        (record { tells = K.held; faults = K.faults; before = sink.old; after = sink.new }) result }
    ensures words { IsErrOf result Stop.Words → ⊥ }
{
    let instance = read_few(alloc, source)?;
    answer_near(alloc, sink, &instance)
}

/// The instance that an input spells, which is read to its end, where it has few enough sinks for a nearest-pair
/// topology: too many are the last cause for which it is refused.
fn read_few<S: ByteSource>(alloc: Global, source: &mut S) -> Result<Instance, Stop>
    ensures end { OnOk result (IsAtEnd (S.left source.new)) }
    ensures spells { IfOk result (λ instance. IfSome (S.left source.old) (λ bytes. Spells bytes instance)) }
    ensures few { IfOk result (λ instance. length instance.sinks ≤ max_near_sinks) }
    ensures explained { IfErr result (λ stop. IfSome (S.left source.old) (ExplainsFew stop)) }
    ensures words { IsErrOf result Stop.Words → ⊥ }
    ensures read_fault { IsErrOf result Stop.ReadFault → Rose (S.faults source.old) (S.faults source.new) }
    ensures write_fault { IsErrOf result Stop.WriteFault → ⊥ }
    ensures counted { S.faults source.old ≤ S.faults source.new }
{
    let instance = read_source(alloc, source)?;
    if instance.sinks().len() > MAX_NEAR_SINKS {
        return Err(Stop::Many);
    }
    Ok(instance)
}

/// Reads an instance and the report that follows it, and writes the verdict on the report.
fn serve_check<R: Threads + Sync, S: ByteSource, K: ByteSink>(
    rt: &R,
    alloc: Global,
    source: &mut S,
    sink: &mut K,
) -> Result<Answer, Stop>
    ensures serves { Serves no_log Form.Check
        (record { tells = S.left; faults = S.faults; before = source.old; after = source.new })
        (record { tells = K.held; faults = K.faults; before = sink.old; after = sink.new }) result }
    ensures words { IsErrOf result Stop.Words → ⊥ }
{
    let _first = open_heap(alloc, REPORT_ROOM);
    let (instance, input, used) = read_front_source(alloc, source)?;
    answer_verdict(rt, alloc, sink, &instance, input, used)
}

/// The instance at the front of an input, which is read to its end, with all its bytes and how many of
/// them are those of the instance.
fn read_front_source<S: ByteSource>(
    alloc: Global,
    source: &mut S,
) -> Result<(Instance, Vec<u8>, usize), Stop>
    ensures end { OnOk result (IsAtEnd (S.left source.new)) }
    ensures spells { IfOk result (λ r. IfSome (S.left source.old) (λ bytes. SpellsFront bytes r.0 (drop r.2 r.1.items))) }
    ensures within { IfOk result (λ r. r.2 ≤ length r.1.items) }
    ensures explained { IfErr result (λ stop. IfSome (S.left source.old) (ExplainsBy front_of stop)) }
    ensures words { IsErrOf result Stop.Words → ⊥ }
    ensures many { IsErrOf result Stop.Many → ⊥ }
    ensures read_fault { IsErrOf result Stop.ReadFault → Rose (S.faults source.old) (S.faults source.new) }
    ensures write_fault { IsErrOf result Stop.WriteFault → ⊥ }
    ensures counted { S.faults source.old ≤ S.faults source.new }
{
    let input = read_all(alloc, source, INPUT_LIMIT)?;
    let (instance, used) = read_front(alloc, &input)?;
    Ok((instance, input, used))
}

/// Writes the instance that is made from a seed.
fn serve_make<K: ByteSink>(
    alloc: Global,
    sink: &mut K,
    seed: u32,
    sinks: u32,
) -> Result<Answer, Stop>
    requires seed { seed < 2 ^ 31 }
    requires some { 1 ≤ sinks }
    requires sinks { sinks ≤ 65536 }
    ensures { Answers (IsRight no_log (Form.Make seed sinks) []) K.held K.faults sink.old sink.new result }
{
    let instance = make_instance(alloc, seed, sinks)?;
    ended(write_instance(sink, &instance), Answer::Text)
}

/// Writes the summary of the tree of that instance, or that there is none.
fn serve_job<K: ByteSink>(
    alloc: Global,
    sink: &mut K,
    seed: u32,
    sinks: u32,
) -> Result<Answer, Stop>
    requires seed { seed < 2 ^ 31 }
    requires some { 1 ≤ sinks }
    requires sinks { sinks ≤ 65536 }
    ensures { Answers (TellsSynthesis summary_in (made_parts seed sinks)) K.held K.faults sink.old sink.new result }
{
    let first = open_heap(alloc, TREE_ROOM);
    let instance = make_instance(alloc, seed, sinks)?;
    drop(first);
    answer_instance(alloc, sink, Telling::Summary, &instance)
}

/// Does what a form asks for, by as many workers or callers as it asks for, and gives what these leave.
pub fn serve<R: Threads + Wait + Sync, S: ByteSource, K: ByteSink, G: Gate>(
    rt: &R,
    alloc: Global,
    gate: &G,
    form: Form,
    source: &mut S,
    sink: &mut K,
) -> (Result<Answer, Stop>, Kept)
    requires within { IsWithinLimits form }
    ensures serves { Serves (log_of result.1.history result.1.replies) form
        (record { tells = S.left; faults = S.faults; before = source.old; after = source.new })
        (record { tells = K.held; faults = K.faults; before = sink.old; after = sink.new }) result.0 }
    ensures words { IsErrOf result.0 Stop.Words → ⊥ }
    ensures kept { IsSome result.1.memo ↔ (HasMemo form × TellsOfTree (status_of result.0)) }
    ensures memo { HoldsMemo (log_of result.1.history result.1.replies) form (S.left source.old) result.1.memo }
    ensures log { ¬ ((form ≡ Form.Edit) × TellsOfTree (status_of result.0)) → log_of result.1.history result.1.replies ≡ no_log }
{
    match form {
        Form::Synth { workers } if workers > 1 => {
            let (answer, memo) = synth_by_workers(rt, alloc, gate, source, sink, workers);
            (answer, Kept::without_log(alloc, memo))
        }
        Form::Job {
            seed,
            sinks,
            workers,
        } if workers > 1 => {
            let (answer, memo) = job_by_workers(rt, alloc, gate, sink, seed, sinks, workers);
            (answer, Kept::without_log(alloc, memo))
        }
        Form::Edit => serve_edit(rt, alloc, gate, source, sink),
        form => {
            let answer = serve_alone(rt, alloc, form, source, sink);
            (answer, Kept::without_log(alloc, None))
        }
    }
}

/// Reads an instance, and writes the report of its tree, which so many workers make.
fn synth_by_workers<R: Threads + Wait + Sync, S: ByteSource, K: ByteSink, G: Gate>(
    rt: &R,
    alloc: Global,
    gate: &G,
    source: &mut S,
    sink: &mut K,
    workers: u32,
) -> (Result<Answer, Stop>, Option<Table>)
    requires some { 1 ≤ workers }
    requires few { workers ≤ 64 }
    ensures serves { Serves no_log (Form.Synth workers)
        (record { tells = S.left; faults = S.faults; before = source.old; after = source.new })
        (record { tells = K.held; faults = K.faults; before = sink.old; after = sink.new }) result.0 }
    ensures words { IsErrOf result.0 Stop.Words → ⊥ }
    ensures kept { IsSome result.1 ↔ TellsOfTree (status_of result.0) }
    ensures memo { HoldsMemo no_log (Form.Synth workers) (S.left source.old) result.1 }
{
    match read_source(alloc, source) {
        Ok(instance) => {
            answer_by_workers(rt, alloc, gate, sink, Telling::Report, &instance, workers)
        }
        Err(stop) => (Err(stop), None),
    }
}

/// Writes the summary of the tree of the instance that is made from a seed, which so many workers make.
fn job_by_workers<R: Threads + Wait + Sync, K: ByteSink, G: Gate>(
    rt: &R,
    alloc: Global,
    gate: &G,
    sink: &mut K,
    seed: u32,
    sinks: u32,
    workers: u32,
) -> (Result<Answer, Stop>, Option<Table>)
    requires seed { seed < 2 ^ 31 }
    requires some { 1 ≤ sinks }
    requires sinks { sinks ≤ 65536 }
    requires some_worker { 1 ≤ workers }
    requires few { workers ≤ 64 }
    ensures answers { Answers (TellsSynthesis summary_in (made_parts seed sinks)) K.held K.faults sink.old sink.new result.0 }
    ensures kept { IsSome result.1 ↔ TellsOfTree (status_of result.0) }
    ensures memo { IfSome result.1 (IsMemoOf (made_parts seed sinks)) }
{
    let first = open_heap(alloc, TREE_ROOM);
    let made = make_instance(alloc, seed, sinks);
    drop(first);
    match made {
        Ok(instance) => {
            answer_by_workers(rt, alloc, gate, sink, Telling::Summary, &instance, workers)
        }
        Err(NoMemory) => (Err(Stop::NoMemory), None),
    }
}
