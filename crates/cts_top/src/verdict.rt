//! The verdict on a report, and the line for it.

ghost use Rattle.std.specs.Prelude.{◌≡◌, ◌≤◌, length, drop};
ghost use Rattle.cts_io.specs.Text.{Puts, Writes};
ghost use Rattle.cts_top.specs.Verdict.{TellsVerdict, answer_of_verdict, rule_words, verdict_text};
ghost use Rattle.cts_top.specs.Written.{Answers};

use crate::stop::{Answer, Stop, ended};
use crate::valid::instance_is_valid;
use cts_check::{Rule, Verdict, check_rest};
use cts_instance::Instance;
use cts_io::{ByteSink, SinkBuffer, WriteEnd};
use cts_notes::put_numbered;
use std::alloc::Global;
use std::thread::Threads;

/// The words for a rule.
#[tactic(auto, unfolding(crate::specs::Verdict::rule_words))]
fn put_rule<K: ByteSink>(out: &mut SinkBuffer, sink: &mut K, rule: Rule)
    ensures { Puts K.ByteSink (sink.old, out.old) (sink.new, out.new) (rule_words rule) }
{
    match rule {
        Rule::Sinks => out.put(sink, b"sinks"),
        Rule::Route => out.put(sink, b"route"),
        Rule::Short => out.put(sink, b"short"),
        Rule::BufferBlocked => out.put(sink, b"buffer blocked"),
        Rule::Limit => out.put(sink, b"limit"),
        Rule::Figure => out.put(sink, b"figure"),
    }
}

#[tactic(auto, unfolding(crate::specs::Verdict::verdict_text))]
fn put_verdict<K: ByteSink>(out: &mut SinkBuffer, sink: &mut K, verdict: Verdict)
    ensures { Puts K.ByteSink (sink.old, out.old) (sink.new, out.new) (verdict_text verdict) }
{
    match verdict {
        Verdict::Yes => out.put(sink, b"yes\n"),
        Verdict::NotText { line } => {
            put_numbered(out, sink, b"no: line ", line as u64);
            out.put(sink, b"\n");
        }
        Verdict::Wrong { rule, node } => {
            out.put(sink, b"no: rule ");
            put_rule(out, sink, rule);
            put_numbered(out, sink, b" at node ", node as u64);
            out.put(sink, b"\n");
        }
    }
}

/// The line for a verdict. It takes no memory.
fn write_verdict<K: ByteSink>(sink: &mut K, verdict: Verdict) -> Result<(), WriteEnd>
    ensures { Writes K.held K.faults sink.old sink.new (verdict_text verdict) result }
{
    let mut out = SinkBuffer::new();
    put_verdict(&mut out, sink, verdict);
    out.finish(sink)
}

/// The kind of that line.
fn kind_of(verdict: Verdict) -> Answer
    ensures { result ≡ answer_of_verdict verdict }
{
    match verdict {
        Verdict::Yes => Answer::Text,
        Verdict::NotText { .. } | Verdict::Wrong { .. } => Answer::No,
    }
}

/// Writes the line for the verdict on the bytes of an input from this place on, as a report of an instance. The input
/// goes once it is read.
pub fn answer_verdict<R: Threads + Sync, K: ByteSink>(
    rt: &R,
    alloc: Global,
    sink: &mut K,
    instance: &Instance,
    input: Vec<u8>,
    from: usize,
) -> Result<Answer, Stop>
    requires { from ≤ length input.items }
    ensures { Answers (TellsVerdict instance.now (drop from input.items)) K.held K.faults sink.old sink.new result }
{
    instance_is_valid(instance);
    let verdict = check_rest(rt, alloc, instance, input, from)?;
    ended(write_verdict(sink, verdict), kind_of(verdict))
}
