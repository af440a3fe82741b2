//! Words of the lines of an instance, each after a space.

ghost use Rattle.std.specs.Prelude.{◌≤◌};
ghost use Rattle.cts_io.specs.Text.{Puts};
ghost use Rattle.cts_num.specs.Decimal.{decimal_text};
ghost use Rattle.cts_script.specs.Text.{after_space, coordinate};

use cts_io::{ByteSink, SinkBuffer};

/// A word as it is.
#[inline]
pub fn put_word<K: ByteSink>(out: &mut SinkBuffer, sink: &mut K, word: &[u8])
    ensures { Puts K.ByteSink (sink.old, out.old) (sink.new, out.new) (after_space word.now) }
{
    out.put(sink, b" ");
    out.put(sink, word);
}

/// A number of units of 10^-`places`.
#[inline]
pub fn put_number<K: ByteSink>(out: &mut SinkBuffer, sink: &mut K, places: u32, value: u64)
    requires { places ≤ 16 }
    ensures { Puts K.ByteSink (sink.old, out.old) (sink.new, out.new) (after_space (decimal_text places value)) }
{
    out.put_labelled(sink, b" ", u128::from(value), places);
}

/// A coordinate in nm, which is not below 0.
#[inline]
pub fn put_coordinate<K: ByteSink>(out: &mut SinkBuffer, sink: &mut K, z: i64)
    ensures { Puts K.ByteSink (sink.old, out.old) (sink.new, out.new) (after_space (coordinate z)) }
{
    put_number(out, sink, 3, z.unsigned_abs());
}
