//! The program `cts-after`: the three standard streams, handed to the top call.
#![tactic(auto)]

use cts_after::tell_after;
use cts_io::{HostSink, HostSource};
use cts_notes::{HostArguments, exit_code, has_words};
use std::process::ExitCode;

fn main(rt: HostRuntime) -> ExitCode {
    let mut source = HostSource::new(rt.stdin());
    let mut sink = HostSink::new(rt.stdout());
    let mut notes = HostSink::new(rt.stderr());
    let status = tell_after(
        rt.alloc(),
        has_words(&HostArguments::new(&rt)),
        &mut source,
        &mut sink,
        &mut notes,
    );
    exit_code(status)
}
