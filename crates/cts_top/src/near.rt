//! The synthesis of an instance over its nearest-pair topology, and the text for it.

ghost use Rattle.std.specs.Prelude.{◌≤◌, length};
ghost use Rattle.cts_io.specs.Text.{Writes};
ghost use Rattle.cts_near.specs.Ends.{max_near_sinks};
ghost use Rattle.cts_top.specs.Near.{TellsNear, no_step_text};
ghost use Rattle.cts_top.specs.Written.{Answers};

use crate::answer::{Telling, answer_synthesis};
use crate::stop::{Answer, Stop, ended};
use crate::valid::instance_is_valid;
use cts_instance::Instance;
use cts_io::{ByteSink, SinkBuffer, WriteEnd};
use cts_near::{NoNearTree, synthesise_near};
use cts_notes::put_numbered;
use std::alloc::Global;

/// The line that says at which step there is no topology, and so no tree. It takes no memory.
fn write_no_step<K: ByteSink>(sink: &mut K, step: u32) -> Result<(), WriteEnd>
    ensures { Writes K.held K.faults sink.old sink.new (no_step_text step) result }
{
    let mut out = SinkBuffer::new();
    put_numbered(&mut out, sink, b"no tree: beyond at step ", step as u64);
    out.put(sink, b"\n");
    out.finish(sink)
}

/// Writes the text for the synthesis of an instance over its nearest-pair topology: the report of its tree, or the
/// line that says why it has none.
pub fn answer_near<K: ByteSink>(
    alloc: Global,
    sink: &mut K,
    instance: &Instance,
) -> Result<Answer, Stop>
    requires { length instance.now.sinks ≤ max_near_sinks }
    ensures { Answers (TellsNear instance.now) K.held K.faults sink.old sink.new result }
{
    instance_is_valid(instance);
    match synthesise_near(alloc, instance) {
        Ok((tree, figures)) => {
            answer_synthesis(sink, Telling::Report, instance, Ok((tree, figures)))
        }
        Err(NoNearTree::Over(end)) => {
            answer_synthesis(sink, Telling::Report, instance, Err(end))
        }
        Err(NoNearTree::AtStep { step }) => ended(write_no_step(sink, step), Answer::NoTree),
        // There are few enough sinks.
        Err(NoNearTree::Many) => unreachable!(),
    }
}
