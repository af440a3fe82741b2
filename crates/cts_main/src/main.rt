//! The program `cts`: its three standard streams, handed to the call that answers its words.
#![tactic(auto)]

use cts_io::{HostSink, HostSource};
use cts_top::run_for_host;
use std::process::ExitCode;

fn main(rt: HostRuntime) -> ExitCode {
    let mut source = HostSource::new(rt.stdin());
    let mut sink = HostSink::new(rt.stdout());
    let mut notes = HostSink::new(rt.stderr());
    run_for_host(&rt, &mut source, &mut sink, &mut notes)
}
