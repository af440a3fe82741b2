//! A replay of changes that are undone and redone, and the text for it.

ghost use Rattle.std.specs.Prelude.{◌≡◌, ◌≢◌, ◌≤◌, All, length, IfOk, IfErr, IfSome, OnOk, IsErrOf};
ghost use Rattle.std.specs.Io.KnownBytes.{IsAtEnd};
ghost use Rattle.cts_io.specs.Faults.{Rose};
ghost use Rattle.cts_notes.specs.Front.{input_limit};
ghost use Rattle.cts_read.specs.Grammar.{Refuses};
ghost use Rattle.cts_undo.specs.Answers.{AreReplies, after_steps};
ghost use Rattle.cts_undo.specs.ReplayText.{IsPrintableReplay};
ghost use Rattle.cts_script.specs.Replays.{AreReplayed};
ghost use Rattle.cts_undo.specs.Replay.{opening};
ghost use Rattle.cts_top.specs.Log.{no_log};
ghost use Rattle.cts_top.specs.Outcome.{Serves};
ghost use Rattle.cts_top.specs.Reading.{ExplainsBy};
ghost use Rattle.cts_top.specs.Replay.{SpellsReplay, TellsReplay, TellsReplayed, replayed_of, version_at_end};
ghost use Rattle.cts_top.specs.Synthesised.{IsSynthesised};
ghost use Rattle.cts_top.specs.Written.{Answers};

use crate::answer::{Telling, answer_synthesis, synthesise_alone};
use crate::input::give_back;
use crate::stop::{Answer, Stop};
use crate::valid::instance_is_valid;
use crate::words::Form;
use cts_elmore::Figures;
use cts_instance::Instance;
use cts_io::{ByteSink, ByteSource, read_all};
use cts_notes::INPUT_LIMIT;
use cts_num::NoMemory;
use cts_plain::NoTree;
use cts_read::{ReadStop, read_instance};
use cts_script::{ReplayStep, read_replay};
use cts_tree::Tree;
use cts_undo::{Replayed, replay, version_after, write_replay};
use std::alloc::Global;

/// What a replay comes to: the instance with the sinks after the changes that are done at its end, its book
/// with the replies, and the synthesis of that instance.
#[derive(Drop)]
struct Played {
    version: Instance,
    replayed: Replayed,
    synthesis: Result<(Tree, Figures), NoTree>,
}

/// The instance at the front of an input that is not too long, and the steps of a replay after it, which
/// nothing but lines that are skipped may follow; or the first line that offends, with its first cause, or
/// that memory ran out.
fn read_steps(alloc: Global, bytes: &[u8]) -> Result<(Instance, Vec<ReplayStep>), ReadStop>
    requires { length bytes.now ≤ input_limit }
    ensures spells { IfOk result (λ r. SpellsReplay bytes.now r.0 r.1.items) }
    ensures refused { IfErr result (λ stop. Refuses stop (replayed_of bytes.now)) }
    ensures within { IfOk result (λ r. AreReplayed r.1.items) }
{
    let taken = read_instance(alloc, bytes)?;
    let asked = read_replay(alloc, &bytes[taken.used..], taken.lines)?;
    Ok((taken.instance, asked))
}

/// The instance at the front of an input, which is read to its end, and the steps of a replay after it.
/// The bytes go before the first step.
fn read_source<S: ByteSource>(
    alloc: Global,
    source: &mut S,
) -> Result<(Instance, Vec<ReplayStep>), Stop>
    ensures end { OnOk result (IsAtEnd (S.left source.new)) }
    ensures spells { IfOk result (λ r. IfSome (S.left source.old) (λ bytes. SpellsReplay bytes r.0 r.1.items)) }
    ensures within { IfOk result (λ r. AreReplayed r.1.items) }
    ensures explained { IfErr result (λ stop. IfSome (S.left source.old) (ExplainsBy replayed_of stop)) }
    ensures words { IsErrOf result Stop.Words → ⊥ }
    ensures many { IsErrOf result Stop.Many → ⊥ }
    ensures read_fault { IsErrOf result Stop.ReadFault → Rose (S.faults source.old) (S.faults source.new) }
    ensures write_fault { IsErrOf result Stop.WriteFault → ⊥ }
    ensures counted { S.faults source.old ≤ S.faults source.new }
{
    let bytes = read_all(alloc, source, INPUT_LIMIT)?;
    let read = read_steps(alloc, &bytes);
    give_back(bytes);
    Ok(read?)
}

/// The synthesis of an instance, where memory does not run out.
fn synthesise_whole(
    alloc: Global,
    version: &Instance,
) -> Result<Result<(Tree, Figures), NoTree>, NoMemory>
    ensures synthesised { IfOk result (IsSynthesised version.now) }
    ensures told { IfOk result (λ synthesis. IfErr synthesis (λ why. why ≢ NoTree.NoMemory)) }
{
    match synthesise_alone(alloc, version) {
        Err(NoTree::NoMemory) => Err(NoMemory),
        synthesis => Ok(synthesis),
    }
}

/// Goes through the steps of a replay, and makes the synthesis of the sinks at its end.
fn play(alloc: Global, instance: &Instance, asked: &[ReplayStep]) -> Result<Played, NoMemory>
    requires { AreReplayed asked.now }
    ensures state { IfOk result (λ p. p.replayed.book ≡ after_steps (opening instance.now) asked.now) }
    ensures replies { IfOk result (λ p. AreReplies (opening instance.now) asked.now p.replayed.replies.items) }
    ensures printable { IfOk result (λ p. All IsPrintableReplay p.replayed.replies.items) }
    ensures version { IfOk result (λ p. p.version ≡ version_at_end instance.now asked.now) }
    ensures synthesised { IfOk result (λ p. IsSynthesised p.version p.synthesis) }
    ensures told { IfOk result (λ p. IfErr p.synthesis (λ why. why ≢ NoTree.NoMemory)) }
{
    let replayed = replay(alloc, instance, asked)?;
    let version = version_after(alloc, &replayed.book, instance)?;
    let synthesis = synthesise_whole(alloc, &version)?;
    Ok(Played {
        version,
        replayed,
        synthesis,
    })
}

/// Writes the changes that are done at the end of a replay with the replies to its steps, and then the text
/// for the synthesis of the version after them. It takes no memory.
fn write_played<K: ByteSink>(
    sink: &mut K,
    version: &Instance,
    replayed: &Replayed,
    synthesis: Result<(Tree, Figures), NoTree>,
) -> Result<Answer, Stop>
    requires printable { All IsPrintableReplay replayed.now.replies.items }
    requires synthesised { IsSynthesised version.now synthesis }
    requires told { IfErr synthesis (λ why. why ≢ NoTree.NoMemory) }
    ensures { Answers (TellsReplayed version.now replayed.now.book.done replayed.now.replies.items)
        K.held K.faults sink.old sink.new result }
{
    instance_is_valid(version);
    write_replay(sink, replayed.book.done(), &replayed.replies)?;
    answer_synthesis(sink, Telling::Report, version, synthesis)
}

/// Goes through the steps of a replay, and writes the text for it.
fn answer_replay<K: ByteSink>(
    alloc: Global,
    sink: &mut K,
    instance: &Instance,
    asked: &[ReplayStep],
) -> Result<Answer, Stop>
    requires { AreReplayed asked.now }
    ensures { Answers (TellsReplay instance.now asked.now) K.held K.faults sink.old sink.new result }
{
    let Played {
        version,
        replayed,
        synthesis,
    } = play(alloc, instance, asked)?;
    write_played(sink, &version, &replayed, synthesis)
}

/// Reads an instance and the steps of a replay after it, goes through them, and writes the changes that are
/// done at the end, the replies, and the report of the tree after these changes.
pub fn serve_replay<S: ByteSource, K: ByteSink>(
    alloc: Global,
    source: &mut S,
    sink: &mut K,
) -> Result<Answer, Stop>
    ensures serves { Serves no_log Form.Replay
        (record { tells = S.left; faults = S.faults; before = source.old; after = source.new })
        (record { tells = K.held; faults = K.faults; before = sink.old; after = sink.new }) result }
    ensures words { IsErrOf result Stop.Words → ⊥ }
{
    let (instance, asked) = read_source(alloc, source)?;
    answer_replay(alloc, sink, &instance, &asked)
}
