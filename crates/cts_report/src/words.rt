//! Labels and numbers of a report.

ghost use Rattle.std.specs.Prelude.{◌*◌, ◌^◌, ◌<◌, ◌≤◌, unsigned_abs, codes};
ghost use Rattle.cts_geom.specs.Points.{IsSpotInRange, point_of};
ghost use Rattle.cts_io.specs.Text.{Puts};
ghost use Rattle.cts_units.specs.Delay.{slew_of};
ghost use Rattle.cts_report.specs.Lines.{answer, capacitance, coordinate, labelled, length_in_um, point_words, time, whole};
ghost use Rattle.cts_report.specs.Report.{printed_point, printed_time};

use cts_geom::{Half, Spot, halves};
use cts_io::{ByteSink, SinkBuffer};
use cts_units::slew_tenths;

/// A label, and then a number of units of 10^-`places`.
#[tactic(auto, unfolding(crate::specs::Lines::labelled))]
#[inline(always)]
fn put_number<K: ByteSink>(
    out: &mut SinkBuffer,
    sink: &mut K,
    label: &[u8],
    places: u32,
    value: u128,
)
    requires value { value < 10 ^ 38 }
    requires places { places ≤ 16 }
    ensures { Puts K.ByteSink (sink.old, out.old) (sink.new, out.new) (labelled label.now places value) }
{
    out.put_labelled(sink, label, value, places);
}

/// A whole number.
#[tactic(auto, unfolding(crate::specs::Lines::whole))]
#[inline(always)]
pub fn put_whole<K: ByteSink>(out: &mut SinkBuffer, sink: &mut K, label: &[u8], number: u64)
    ensures { Puts K.ByteSink (sink.old, out.old) (sink.new, out.new) (whole label.now number) }
{
    put_number(out, sink, label, 0, u128::from(number));
}

/// A length in nm.
#[tactic(auto, unfolding(crate::specs::Lines::length_in_um))]
#[inline(always)]
pub fn put_length<K: ByteSink>(out: &mut SinkBuffer, sink: &mut K, label: &[u8], length: u64)
    ensures { Puts K.ByteSink (sink.old, out.old) (sink.new, out.new) (length_in_um label.now length) }
{
    put_number(out, sink, label, 3, u128::from(length));
}

/// A load in zF.
#[tactic(auto, unfolding(crate::specs::Lines::capacitance))]
#[inline(always)]
pub fn put_capacitance<K: ByteSink>(out: &mut SinkBuffer, sink: &mut K, label: &[u8], load: u64)
    ensures { Puts K.ByteSink (sink.old, out.old) (sink.new, out.new) (capacitance label.now load) }
{
    put_number(out, sink, label, 6, u128::from(load));
}

/// A doubled delay in 10^-27 s.
#[tactic(auto, unfolding(crate::specs::Lines::time))]
#[inline(always)]
pub fn put_delay<K: ByteSink>(out: &mut SinkBuffer, sink: &mut K, label: &[u8], delay: u128)
    requires { delay ≤ 10 ^ 37 }
    ensures { Puts K.ByteSink (sink.old, out.old) (sink.new, out.new) (time label.now (printed_time delay)) }
{
    put_number(out, sink, label, 16, 5 * delay);
}

/// The slew of a stage of this doubled delay, in 10^-27 s.
#[tactic(auto, unfolding(crate::specs::Lines::time))]
#[inline(always)]
pub fn put_slew<K: ByteSink>(out: &mut SinkBuffer, sink: &mut K, label: &[u8], stage: u128)
    requires { stage ≤ 2 ^ 120 }
    ensures { Puts K.ByteSink (sink.old, out.old) (sink.new, out.new) (time label.now (slew_of stage)) }
{
    put_number(out, sink, label, 16, slew_tenths(stage));
}

/// The x of a point in half nm, which is not below 0.
#[tactic(auto, unfolding(crate::specs::Lines::coordinate))]
#[inline(always)]
fn put_x<K: ByteSink>(out: &mut SinkBuffer, sink: &mut K, point: Half)
    ensures { Puts K.ByteSink (sink.old, out.old) (sink.new, out.new)
        (coordinate (codes " ") (5 * unsigned_abs point.x)) }
{
    put_number(out, sink, b" ", 4, 5 * u128::from(point.x.unsigned_abs()));
}

/// The y of a point in half nm, which is not below 0.
#[tactic(auto, unfolding(crate::specs::Lines::coordinate))]
#[inline(always)]
fn put_y<K: ByteSink>(out: &mut SinkBuffer, sink: &mut K, point: Half)
    ensures { Puts K.ByteSink (sink.old, out.old) (sink.new, out.new)
        (coordinate (codes " ") (5 * unsigned_abs point.y)) }
{
    put_number(out, sink, b" ", 4, 5 * u128::from(point.y.unsigned_abs()));
}

/// A point in half nm, its x before its y.
#[inline]
pub fn put_point<K: ByteSink>(out: &mut SinkBuffer, sink: &mut K, point: Half)
    ensures { Puts K.ByteSink (sink.old, out.old) (sink.new, out.new) (point_words (printed_point point)) }
{
    put_x(out, sink, point);
    put_y(out, sink, point);
}

/// A place, its x before its y.
#[inline]
pub fn put_place<K: ByteSink>(out: &mut SinkBuffer, sink: &mut K, place: Spot)
    requires { IsSpotInRange place }
    ensures { Puts K.ByteSink (sink.old, out.old) (sink.new, out.new) (point_words (printed_point (point_of place))) }
{
    put_point(out, sink, halves(place));
}

/// Whether a limit is met, and the end of the line.
#[tactic(auto, unfolding(crate::specs::Lines::answer))]
pub fn put_answer<K: ByteSink>(out: &mut SinkBuffer, sink: &mut K, label: &[u8], met: bool)
    ensures { Puts K.ByteSink (sink.old, out.old) (sink.new, out.new) (answer label.now met) }
{
    out.put(sink, label);
    out.put(sink, if met { b" yes\n" } else { b" no\n" });
}
