//! The edits of callers: their scripts, their run beside each other, and the text for it.

ghost use Rattle.std.specs.Prelude.{◌≡◌, ◌≢◌, ◌≤◌, ◌↔◌, length, IfOk, IfErr, IfSome, OnOk, IsErrOf, IsSome};
ghost use Rattle.std.specs.Io.KnownBytes.{IsAtEnd};
ghost use Rattle.cts_history.specs.Legal.{IsLegal, lists_of};
ghost use Rattle.cts_history.specs.History.{IsPrintable};
ghost use Rattle.cts_instance.specs.Validity.{IsValid, with_sinks};
ghost use Rattle.cts_io.specs.Faults.{Rose};
ghost use Rattle.cts_script.specs.Steps.{IsCallerCount};
ghost use Rattle.cts_session.specs.Desks.{version_of};
ghost use Rattle.cts_top.specs.Input.{SpellsScripts, scripted_of};
ghost use Rattle.cts_top.specs.Log.{log_of, no_log};
ghost use Rattle.cts_top.specs.Memos.{HoldsMemo, IsMemoOf, TellsOfTree};
ghost use Rattle.cts_top.specs.Outcome.{Serves, status_of};
ghost use Rattle.cts_top.specs.Reading.{ExplainsBy};
ghost use Rattle.cts_top.specs.Right.{TellsCallers};
ghost use Rattle.cts_top.specs.Synthesised.{IsSynthesised};
ghost use Rattle.cts_top.specs.Text.{TellsEdits};
ghost use Rattle.cts_top.specs.Written.{Answers};

use crate::answer::{Telling, answer_synthesis};
use crate::input::{give_back, read_scripts};
use crate::outcome::Kept;
use crate::room::{TREE_ROOM, open_heap};
use crate::stop::{Answer, Stop};
use crate::valid::instance_is_valid;
use crate::words::Form;
use cts_callers::{Run, run_callers};
use cts_design::Entry;
use cts_elmore::Figures;
use cts_history::{Reply, write_history};
use cts_instance::Instance;
use cts_io::{ByteSink, ByteSource, read_all};
use cts_memo::Table;
use cts_notes::INPUT_LIMIT;
use cts_num::NoMemory;
use cts_plain::NoTree;
use cts_script::Script;
use cts_tree::Tree;
use cts_work::Gate;
use std::alloc::Global;
use std::sync::Wait;
use std::thread::Threads;

/// What the callers of an instance leave: the instance with the sinks after all edits, the history of
/// these, the replies to each caller, the synthesis of that instance, and the table of the memo.
#[derive(Drop)]
struct Edited {
    version: Instance,
    history: Vec<Entry>,
    replies: Vec<Vec<Reply>>,
    synthesis: Result<(Tree, Figures), NoTree>,
    table: Table,
}

/// The instance at the front of an input, which is read to its end, and the scripts of all callers after
/// it. The bytes go before the first caller begins.
fn read_source<S: ByteSource>(
    alloc: Global,
    source: &mut S,
) -> Result<(Instance, Vec<Script>), Stop>
    ensures end { OnOk result (IsAtEnd (S.left source.new)) }
    ensures spells { IfOk result (λ r. IfSome (S.left source.old) (λ bytes. SpellsScripts bytes r.0 r.1.items)) }
    ensures callers { IfOk result (λ r. IsCallerCount (length r.1.items)) }
    ensures explained { IfErr result (λ stop. IfSome (S.left source.old) (ExplainsBy scripted_of stop)) }
    ensures words { IsErrOf result Stop.Words → ⊥ }
    ensures many { IsErrOf result Stop.Many → ⊥ }
    ensures read_fault { IsErrOf result Stop.ReadFault → Rose (S.faults source.old) (S.faults source.new) }
    ensures write_fault { IsErrOf result Stop.WriteFault → ⊥ }
    ensures counted { S.faults source.old ≤ S.faults source.new }
{
    let _first = open_heap(alloc, TREE_ROOM);
    let bytes = read_all(alloc, source, INPUT_LIMIT)?;
    let read = read_scripts(alloc, &bytes);
    give_back(bytes);
    Ok(read?)
}

/// What a run of callers leaves, with the instance after all its edits.
fn with_version(alloc: Global, run: Run) -> Result<Edited, NoMemory>
    requires { IsValid (with_sinks run.instance run.sinks.items) }
    ensures version { IfOk result (λ e. e.version ≡ with_sinks run.instance run.sinks.items) }
    ensures history { IfOk result (λ e. e.history ≡ run.history) }
    ensures replies { IfOk result (λ e. e.replies ≡ run.replies) }
    ensures synthesis { IfOk result (λ e. e.synthesis ≡ run.synthesis) }
    ensures table { IfOk result (λ e. e.table ≡ run.table) }
{
    let sinks = run.sinks;
    let version = run.instance.with_sinks(alloc, sinks)?;
    Ok(Edited {
        version,
        history: run.history,
        replies: run.replies,
        synthesis: run.synthesis,
        table: run.table,
    })
}

/// The run of the callers of these scripts beside each other.
fn run_scripts<R: Threads + Wait + Sync, G: Gate>(
    rt: &R,
    alloc: Global,
    gate: &G,
    instance: Instance,
    scripts: &[Script],
) -> Result<Edited, NoMemory>
    requires { IsCallerCount (length scripts.now) }
    ensures legal { IfOk result (λ e. IsLegal instance scripts.now e.history.items (lists_of e.replies.items)) }
    ensures version { IfOk result (λ e. e.version ≡ version_of instance e.history.items) }
    ensures printable { IfOk result (λ e. IsPrintable e.history.items (lists_of e.replies.items)) }
    ensures synthesised { IfOk result (λ e. IsSynthesised e.version e.synthesis) }
    ensures told { IfOk result (λ e. IfErr e.synthesis (λ why. why ≢ NoTree.NoMemory)) }
    ensures memo { IfOk result (λ e. IsMemoOf e.version e.table) }
{
    instance_is_valid(&instance);
    let left = run_callers(rt, alloc, gate, instance, scripts)?;
    with_version(alloc, left)
}

/// Writes a history with the replies to its callers, and then the text for the synthesis of the version
/// after it. It takes no memory.
fn answer_edits<K: ByteSink>(
    sink: &mut K,
    version: &Instance,
    history: &[Entry],
    replies: &[Vec<Reply>],
    synthesis: Result<(Tree, Figures), NoTree>,
) -> Result<Answer, Stop>
    requires printable { IsPrintable history.now (lists_of replies.now) }
    requires synthesised { IsSynthesised version.now synthesis }
    requires told { IfErr synthesis (λ why. why ≢ NoTree.NoMemory) }
    ensures answers { Answers (TellsEdits version.now (record { history = history.now; replies = lists_of replies.now }))
        K.held K.faults sink.old sink.new result }
    ensures told { TellsOfTree (status_of result) }
{
    instance_is_valid(version);
    write_history(sink, history, replies)?;
    answer_synthesis(sink, Telling::Report, version, synthesis)
}

/// Runs the callers of these scripts, and writes the text for their edits.
fn answer_callers<R: Threads + Wait + Sync, K: ByteSink, G: Gate>(
    rt: &R,
    alloc: Global,
    gate: &G,
    sink: &mut K,
    instance: Instance,
    scripts: &[Script],
) -> (Result<Answer, Stop>, Kept)
    requires { IsCallerCount (length scripts.now) }
    ensures answers { Answers (TellsCallers instance scripts.now (log_of result.1.history result.1.replies))
        K.held K.faults sink.old sink.new result.0 }
    ensures kept { IsSome result.1.memo ↔ TellsOfTree (status_of result.0) }
    ensures memo { IfSome result.1.memo (IsMemoOf (version_of instance result.1.history.items)) }
    ensures log { ¬ TellsOfTree (status_of result.0) → log_of result.1.history result.1.replies ≡ no_log }
{
    match run_scripts(rt, alloc, gate, instance, scripts) {
        Ok(
            Edited {
                version,
                history,
                replies,
                synthesis,
                table,
            },
        ) => {
            let answer = answer_edits(sink, &version, &history, &replies, synthesis);
            let memo = Some(table);
            (
                answer,
                Kept {
                    memo,
                    history,
                    replies,
                },
            )
        }
        Err(NoMemory) => (Err(Stop::NoMemory), Kept::without_log(alloc, None)),
    }
}

/// Reads an instance and the scripts of callers after it, runs these callers beside each other, and writes
/// the history of their edits, the replies to each, and the report of the tree after it.
pub fn serve_edit<R: Threads + Wait + Sync, S: ByteSource, K: ByteSink, G: Gate>(
    rt: &R,
    alloc: Global,
    gate: &G,
    source: &mut S,
    sink: &mut K,
) -> (Result<Answer, Stop>, Kept)
    ensures serves { Serves (log_of result.1.history result.1.replies) Form.Edit
        (record { tells = S.left; faults = S.faults; before = source.old; after = source.new })
        (record { tells = K.held; faults = K.faults; before = sink.old; after = sink.new }) result.0 }
    ensures words { IsErrOf result.0 Stop.Words → ⊥ }
    ensures kept { IsSome result.1.memo ↔ TellsOfTree (status_of result.0) }
    ensures memo { HoldsMemo (log_of result.1.history result.1.replies) Form.Edit (S.left source.old) result.1.memo }
    ensures log { ¬ TellsOfTree (status_of result.0) → log_of result.1.history result.1.replies ≡ no_log }
{
    match read_source(alloc, source) {
        Ok((instance, scripts)) => answer_callers(rt, alloc, gate, sink, instance, &scripts),
        Err(stop) => (Err(stop), Kept::without_log(alloc, None)),
    }
}
