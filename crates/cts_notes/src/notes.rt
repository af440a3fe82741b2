//! What the notes say of an input that is refused.

ghost use Rattle.std.specs.Prelude.{◌≡◌, ℕ, ◌^◌, ◌<◌};
ghost use Rattle.cts_io.specs.Text.{Puts};
ghost use Rattle.cts_notes.specs.Notes.{cause_words, fault_words, number_words, numbered, refusal_note};

use cts_instance::Fault;
use cts_io::{ByteSink, SinkBuffer};
use cts_num::{DecimalFault, decimal};
use cts_read::Cause;

/// Puts the note of an input whose line offends, with the line's first cause.
#[tactic(auto, unfolding(crate::specs::Notes::refusal_note))]
pub fn put_refusal<N: ByteSink>(out: &mut SinkBuffer, notes: &mut N, line: u32, cause: &Cause)
    ensures { Puts N.ByteSink (notes.old, out.old) (notes.new, out.new) (refusal_note line cause.now) }
{
    put_numbered(out, notes, b"refused: line ", line as u64);
    out.put(notes, b": ");
    put_cause(out, notes, cause);
    out.put(notes, b"\n");
}

#[tactic(auto, unfolding(crate::specs::Notes::cause_words))]
fn put_cause<N: ByteSink>(out: &mut SinkBuffer, notes: &mut N, cause: &Cause)
    ensures { Puts N.ByteSink (notes.old, out.old) (notes.new, out.new) (cause_words cause.now) }
{
    match cause {
        Cause::NotAscii => out.put(notes, b"not ascii"),
        Cause::Word => out.put(notes, b"unexpected word"),
        Cause::Count => out.put(notes, b"wrong count of words"),
        Cause::Number(fault) => put_number_fault(out, notes, fault),
        Cause::Missing => out.put(notes, b"missing"),
        Cause::Fault(fault) => put_fault(out, notes, fault),
    }
}

#[tactic(auto, unfolding(crate::specs::Notes::number_words))]
fn put_number_fault<N: ByteSink>(out: &mut SinkBuffer, notes: &mut N, fault: &DecimalFault)
    ensures { Puts N.ByteSink (notes.old, out.old) (notes.new, out.new) (number_words fault.now) }
{
    match fault {
        DecimalFault::Empty => out.put(notes, b"number without digits"),
        DecimalFault::BadByte { at } => {
            put_numbered(out, notes, b"bad byte in number at ", *at as u64);
        }
        DecimalFault::TooFine { at } => {
            put_numbered(out, notes, b"number too fine at ", *at as u64);
        }
        DecimalFault::TooGreat => out.put(notes, b"number too great"),
    }
}

#[tactic(auto, unfolding(crate::specs::Notes::fault_words))]
fn put_fault<N: ByteSink>(out: &mut SinkBuffer, notes: &mut N, fault: &Fault)
    ensures { Puts N.ByteSink (notes.old, out.old) (notes.new, out.new) (fault_words fault.now) }
{
    match fault {
        Fault::NoSink => out.put(notes, b"no sink"),
        Fault::TwiceSink { id } => {
            put_numbered(out, notes, b"sink ", *id as u64);
            out.put(notes, b" twice");
        }
        Fault::Outside { .. } => out.put(notes, b"outside the die"),
        Fault::InBlock { .. } => out.put(notes, b"source or sink in block"),
        Fault::Range { .. } => out.put(notes, b"out of range"),
        Fault::TooMany { .. } => out.put(notes, b"too many"),
    }
}

/// Puts some words and a number after them.
#[tactic(auto, unfolding(crate::specs::Notes::numbered))]
pub fn put_numbered<N: ByteSink>(out: &mut SinkBuffer, notes: &mut N, before: &[u8], number: u64)
    ensures { Puts N.ByteSink (notes.old, out.old) (notes.new, out.new) (numbered before.now number) }
{
    out.put(notes, before);
    out.put(notes, decimal(number as u128, 0).bytes());
}
