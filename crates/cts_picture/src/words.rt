//! Labels and numbers of a picture.

ghost use Rattle.std.specs.Prelude.{◌^◌, ◌<◌};
ghost use Rattle.cts_io.specs.Text.{Puts};
ghost use Rattle.cts_report.specs.Lines.{capacitance, coordinate, length_in_um, time, whole};

use cts_io::{ByteSink, SinkBuffer};

/// A whole number.
#[tactic(auto, unfolding(cts_report::specs::Lines::labelled, cts_report::specs::Lines::whole))]
pub fn put_whole<K: ByteSink>(out: &mut SinkBuffer, sink: &mut K, label: &[u8], number: u64)
    ensures { Puts K.ByteSink (sink.old, out.old) (sink.new, out.new) (whole label.now number) }
{
    out.put_labelled(sink, label, u128::from(number), 0);
}

/// The length of a wire in nm, as µm.
#[tactic(auto, unfolding(cts_report::specs::Lines::labelled, cts_report::specs::Lines::length_in_um))]
pub fn put_length<K: ByteSink>(out: &mut SinkBuffer, sink: &mut K, label: &[u8], length: u32)
    ensures { Puts K.ByteSink (sink.old, out.old) (sink.new, out.new) (length_in_um label.now length) }
{
    out.put_labelled(sink, label, u128::from(length), 3);
}

/// The length of all wires in nm, as µm.
#[tactic(auto, unfolding(cts_report::specs::Lines::labelled, cts_report::specs::Lines::length_in_um))]
pub fn put_total<K: ByteSink>(out: &mut SinkBuffer, sink: &mut K, label: &[u8], length: u128)
    requires { length < 10 ^ 38 }
    ensures { Puts K.ByteSink (sink.old, out.old) (sink.new, out.new) (length_in_um label.now length) }
{
    out.put_labelled(sink, label, length, 3);
}

/// A length in 10^-4 µm, as µm.
#[tactic(auto, unfolding(cts_report::specs::Lines::labelled, cts_report::specs::Lines::coordinate))]
pub fn put_coordinate<K: ByteSink>(out: &mut SinkBuffer, sink: &mut K, label: &[u8], length: u64)
    ensures { Puts K.ByteSink (sink.old, out.old) (sink.new, out.new) (coordinate label.now length) }
{
    out.put_labelled(sink, label, u128::from(length), 4);
}

/// A load in zF, as fF.
#[tactic(auto, unfolding(cts_report::specs::Lines::labelled, cts_report::specs::Lines::capacitance))]
pub fn put_capacitance<K: ByteSink>(out: &mut SinkBuffer, sink: &mut K, label: &[u8], load: u128)
    requires { load < 10 ^ 38 }
    ensures { Puts K.ByteSink (sink.old, out.old) (sink.new, out.new) (capacitance label.now load) }
{
    out.put_labelled(sink, label, load, 6);
}

/// A time in 10^-16 ps, as ps.
#[tactic(auto, unfolding(cts_report::specs::Lines::labelled, cts_report::specs::Lines::time))]
pub fn put_time<K: ByteSink>(out: &mut SinkBuffer, sink: &mut K, label: &[u8], delay: u128)
    requires { delay < 10 ^ 38 }
    ensures { Puts K.ByteSink (sink.old, out.old) (sink.new, out.new) (time label.now delay) }
{
    out.put_labelled(sink, label, delay, 16);
}
