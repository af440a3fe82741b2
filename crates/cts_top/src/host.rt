//! What the program does with what its host gives it: the words that it is called with and its three streams, handed to the
//! top call, whose status is the program's exit status.

ghost use Rattle.std.specs.Prelude.{◌⊎◌, None};
ghost use Rattle.std.specs.Process.{exit_status};
ghost use Rattle.cts_top.specs.Ends.{EndsAsRun, EndsWithoutWords};

use crate::calls::{end_without_memory, run};
use cts_io::{ByteSink, ByteSource};
use cts_notes::{Arguments, HostArguments, exit_code, words_of};
use cts_work::OpenGate;
use std::alloc::AllocError;
use std::process::ExitCode;
use std::rt::Env;
use std::sync::Wait;
use std::thread::Threads;

/// Runs the program on the words that it is called with, and on its input, its output and its notes, and gives
/// its exit status.
///
/// It ends as [`run`] does on some words, by the number of the run's status. Where the arguments are
/// told, these are all their words, in their order, each whole. Where no memory is found for them it ends with
/// `NoMemory`, and input and output are as they were.
///
/// [`run`] may wait for other threads, so no clause says that this call returns.
pub fn run_on<
    R: AllocGlobal + Threads + Wait + Sync,
    A: Arguments,
    S: ByteSource,
    K: ByteSink,
    N: ByteSink,
>(rt: &R, arguments: &A, source: &mut S, sink: &mut K, notes: &mut N) -> ExitCode
    ensures { EndsAsRun (A.told arguments.now)
        (record { tells = S.left; faults = S.faults; before = source.old; after = source.new })
        (record { tells = K.held; faults = K.faults; before = sink.old; after = sink.new })
        (record { tells = N.held; faults = N.faults; before = notes.old; after = notes.new }) (exit_status result)
        ⊎ EndsWithoutWords
        (record { tells = S.left; faults = S.faults; before = source.old; after = source.new })
        (record { tells = K.held; faults = K.faults; before = sink.old; after = sink.new })
        (record { tells = N.held; faults = N.faults; before = notes.old; after = notes.new }) (exit_status result) }
{
    match words_of(rt.alloc(), arguments) {
        Ok(words) => {
            let outcome = run(rt, rt.alloc(), &words, source, sink, notes, &OpenGate);
            exit_code(outcome.status)
        }
        Err(AllocError) => exit_code(end_without_memory(rt.alloc(), notes).status),
    }
}

/// As [`run_on`], on the words that the host calls the program with. The host does not tell them, so no clause
/// says which words these are.
pub fn run_for_host<
    R: Env + AllocGlobal + Threads + Wait + Sync,
    S: ByteSource,
    K: ByteSink,
    N: ByteSink,
>(rt: &R, source: &mut S, sink: &mut K, notes: &mut N) -> ExitCode
    ensures { EndsAsRun None
        (record { tells = S.left; faults = S.faults; before = source.old; after = source.new })
        (record { tells = K.held; faults = K.faults; before = sink.old; after = sink.new })
        (record { tells = N.held; faults = N.faults; before = notes.old; after = notes.new }) (exit_status result)
        ⊎ EndsWithoutWords
        (record { tells = S.left; faults = S.faults; before = source.old; after = source.new })
        (record { tells = K.held; faults = K.faults; before = sink.old; after = sink.new })
        (record { tells = N.held; faults = N.faults; before = notes.old; after = notes.new }) (exit_status result) }
{
    run_on(rt, &HostArguments::new(rt), source, sink, notes)
}
