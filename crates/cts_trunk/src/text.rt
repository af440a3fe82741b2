//! The text of a trunk with repeaters, written to a sink.

ghost use Rattle.std.specs.Prelude.{◌^◌, ◌≤◌, ◌++◌, All, codes};
ghost use Rattle.std.specs.List.{concat};
ghost use Rattle.cts_io.specs.Text.{Puts, Writes};
ghost use Rattle.cts_report.specs.Lines.{capacitance, time};
ghost use Rattle.cts_report.specs.Report.{printed_time};
ghost use Rattle.cts_trunk.specs.Lines.{IsPrintableRepeater, IsPrintableTrunk, closing_lines, count_line, repeater_line, repeater_lines, root_line, trunk_text};

use crate::trunk::{Repeater, Trunk};
use cts_io::{ByteSink, SinkBuffer, WriteEnd};
use cts_report::words::{
    put_answer, put_capacitance, put_delay, put_length, put_place, put_slew, put_whole,
};

/// Writes the text of a trunk with repeaters. It takes no memory.
///
/// - `Ok`: the sink has taken the whole text.
/// - `WriteFault`: only where the sink's count of faults rose in this call; the sink has taken exactly
///   the front of the text that the answer tells.
pub fn write_trunk<K: ByteSink>(sink: &mut K, trunk: &Trunk) -> Result<(), WriteEnd>
    requires { IsPrintableTrunk trunk.now }
    ensures { Writes K.held K.faults sink.old sink.new (trunk_text trunk.now) result }
{
    let repeaters = trunk.repeaters.items();
    let mut out = SinkBuffer::new();
    out.put(sink, b"cts trunk 1\n");
    put_count(&mut out, sink, repeaters.len());
    put_repeaters(&mut out, sink, repeaters);
    put_closing(&mut out, sink, trunk);
    out.finish(sink)
}

/// The line that says how many repeaters there are.
fn put_count<K: ByteSink>(out: &mut SinkBuffer, sink: &mut K, count: usize)
    ensures { Puts K.ByteSink (sink.old, out.old) (sink.new, out.new) (count_line count) }
{
    put_whole(out, sink, b"repeaters ", count as u64);
    out.put(sink, b"\n");
}

/// The lines of all repeaters.
fn put_repeaters<K: ByteSink>(out: &mut SinkBuffer, sink: &mut K, repeaters: &[Repeater])
    requires { All IsPrintableRepeater repeaters.now }
    ensures { Puts K.ByteSink (sink.old, out.old) (sink.new, out.new) (concat (repeater_lines 1 repeaters.now)) }
{
    for number in 0..repeaters.len() {
        put_repeater(out, sink, number + 1, &repeaters[number]);
    }
}

/// The line of the repeater of this number.
fn put_repeater<K: ByteSink>(out: &mut SinkBuffer, sink: &mut K, number: usize, repeater: &Repeater)
    requires { IsPrintableRepeater repeater.now }
    ensures { Puts K.ByteSink (sink.old, out.old) (sink.new, out.new) (repeater_line number repeater.now) }
{
    put_whole(out, sink, b"repeater ", number as u64);
    out.put(sink, b" at");
    put_place(out, sink, repeater.place);
    put_length(out, sink, b" length ", repeater.length);
    put_capacitance(out, sink, b" load ", repeater.load);
    put_delay(out, sink, b" delay ", repeater.delay);
    put_slew(out, sink, b" slew ", repeater.stage);
    out.put(sink, b"\n");
}

/// The lines on the whole tree, and the last line.
fn put_closing<K: ByteSink>(out: &mut SinkBuffer, sink: &mut K, trunk: &Trunk)
    requires { IsPrintableTrunk trunk.now }
    ensures { Puts K.ByteSink (sink.old, out.old) (sink.new, out.new) (concat (closing_lines trunk.now)) }
{
    put_root(out, sink, trunk.root_delay, trunk.root_stage);
    put_delay_line(out, sink, b"delay greatest ", trunk.greatest);
    put_delay_line(out, sink, b"delay least ", trunk.least);
    put_delay_line(out, sink, b"skew ", trunk.skew);
    put_load_line(out, sink, b"source load ", trunk.source_load);
    put_answer(out, sink, b"load met", trunk.load_met);
    put_answer(out, sink, b"slew met", trunk.slew_met);
    out.put(sink, b"end\n");
}

/// The line of the root.
fn put_root<K: ByteSink>(out: &mut SinkBuffer, sink: &mut K, delay: u128, stage: u128)
    requires delay { delay ≤ 10 ^ 37 }
    requires stage { stage ≤ 2 ^ 120 }
    ensures { Puts K.ByteSink (sink.old, out.old) (sink.new, out.new) (root_line delay stage) }
{
    put_delay(out, sink, b"root delay ", delay);
    put_slew(out, sink, b" slew ", stage);
    out.put(sink, b"\n");
}

fn put_load_line<K: ByteSink>(out: &mut SinkBuffer, sink: &mut K, label: &[u8], load: u64)
    ensures { Puts K.ByteSink (sink.old, out.old) (sink.new, out.new) (capacitance label.now load ++ codes "\n") }
{
    put_capacitance(out, sink, label, load);
    out.put(sink, b"\n");
}

fn put_delay_line<K: ByteSink>(out: &mut SinkBuffer, sink: &mut K, label: &[u8], delay: u128)
    requires { delay ≤ 10 ^ 37 }
    ensures { Puts K.ByteSink (sink.old, out.old) (sink.new, out.new) (time label.now (printed_time delay) ++ codes "\n") }
{
    put_delay(out, sink, label, delay);
    out.put(sink, b"\n");
}
