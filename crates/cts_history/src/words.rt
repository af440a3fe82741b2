//! Words and numbers of a line, each after a space or a label.

ghost use Rattle.std.specs.Prelude.{◌^◌, ◌<◌, ◌≤◌, ◌++◌};
ghost use Rattle.cts_io.specs.Text.{Puts};
ghost use Rattle.cts_num.specs.Decimal.{decimal_text};
ghost use Rattle.cts_script.specs.Text.{after_space, coordinate};
ghost use Rattle.cts_history.specs.History.{length_in_um, time, whole};

use cts_io::{ByteSink, SinkBuffer};

/// A word as it is.
#[inline]
pub fn put_word<K: ByteSink>(out: &mut SinkBuffer, sink: &mut K, word: &[u8])
    ensures { Puts K.ByteSink (sink.old, out.old) (sink.new, out.new) (after_space word.now) }
{
    out.put(sink, b" ");
    out.put(sink, word);
}

/// A number of units of 10^-`places`.
#[inline(always)]
fn put_number<K: ByteSink>(out: &mut SinkBuffer, sink: &mut K, places: u32, value: u128)
    requires value { value < 10 ^ 38 }
    requires places { places ≤ 16 }
    ensures { Puts K.ByteSink (sink.old, out.old) (sink.new, out.new) (after_space (decimal_text places value)) }
{
    out.put_labelled(sink, b" ", value, places);
}

/// A label, and then a whole number.
#[inline(always)]
pub fn put_labelled<K: ByteSink>(out: &mut SinkBuffer, sink: &mut K, label: &[u8], number: u64)
    ensures { Puts K.ByteSink (sink.old, out.old) (sink.new, out.new) (label.now ++ whole number) }
{
    out.put_labelled(sink, label, u128::from(number), 0);
}

/// A whole number.
#[inline]
pub fn put_whole<K: ByteSink>(out: &mut SinkBuffer, sink: &mut K, number: u64)
    ensures { Puts K.ByteSink (sink.old, out.old) (sink.new, out.new) (after_space (whole number)) }
{
    put_number(out, sink, 0, u128::from(number));
}

/// A whole number, as those of lines, callers, ids and versions are.
#[inline]
pub fn put_count<K: ByteSink>(out: &mut SinkBuffer, sink: &mut K, number: u32)
    ensures { Puts K.ByteSink (sink.old, out.old) (sink.new, out.new) (after_space (whole number)) }
{
    put_number(out, sink, 0, u128::from(number));
}

/// A coordinate in nm, which is not below 0.
#[inline]
pub fn put_coordinate<K: ByteSink>(out: &mut SinkBuffer, sink: &mut K, z: i64)
    ensures { Puts K.ByteSink (sink.old, out.old) (sink.new, out.new) (after_space (coordinate z)) }
{
    put_number(out, sink, 3, u128::from(z.unsigned_abs()));
}

/// A capacitance in zF.
#[inline]
pub fn put_capacitance<K: ByteSink>(out: &mut SinkBuffer, sink: &mut K, cap: u64)
    ensures { Puts K.ByteSink (sink.old, out.old) (sink.new, out.new) (after_space (decimal_text 6 cap)) }
{
    put_number(out, sink, 6, u128::from(cap));
}

/// A length in nm.
#[inline]
pub fn put_length<K: ByteSink>(out: &mut SinkBuffer, sink: &mut K, nm: u64)
    ensures { Puts K.ByteSink (sink.old, out.old) (sink.new, out.new) (after_space (length_in_um nm)) }
{
    put_number(out, sink, 3, u128::from(nm));
}

/// A doubled delay in 10^-27 s.
#[inline]
pub fn put_delay<K: ByteSink>(out: &mut SinkBuffer, sink: &mut K, delay: u128)
    requires { delay ≤ 10 ^ 37 }
    ensures { Puts K.ByteSink (sink.old, out.old) (sink.new, out.new) (after_space (time delay)) }
{
    put_number(out, sink, 16, 5 * delay);
}
