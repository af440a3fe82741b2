//! Histories, with the replies to all callers, written to a sink.

ghost use Rattle.std.specs.Prelude.{◌+◌, ◌++◌, All, codes, length};
ghost use Rattle.std.specs.List.{flat_map};
ghost use Rattle.cts_io.specs.Text.{Puts, Writes};
ghost use Rattle.cts_history.specs.Legal.{lists_of};
ghost use Rattle.cts_script.specs.Text.{after_space, count_line};
ghost use Rattle.cts_history.specs.History.{IsPrintable, IsPrintableReply, caller_text, edit_words, entry_line, history_text, numbered};

use crate::reply::Reply;
use crate::reply_words::put_replies;
use crate::words::{put_capacitance, put_coordinate, put_labelled};
use cts_edit::{Edit, Entry};
use cts_io::{ByteSink, SinkBuffer, WriteEnd};

/// Writes a history of edits, and the replies to the callers, who are numbered from 1. It takes no
/// memory.
///
/// - `Ok`: the sink has taken the whole text.
/// - `WriteFault`: only where the sink's count of faults rose in this call; the sink has taken exactly
///   the front of the text that the answer tells.
pub fn write_history<K: ByteSink>(
    sink: &mut K,
    history: &[Entry],
    replies: &[Vec<Reply>],
) -> Result<(), WriteEnd>
    requires { IsPrintable history.now (lists_of replies.now) }
    ensures { Writes K.held K.faults sink.old sink.new (history_text history.now (lists_of replies.now)) result }
{
    let mut out = SinkBuffer::new();
    out.put(sink, b"cts edit 1\n");
    put_length_of(&mut out, sink, history.len());
    put_entries(&mut out, sink, history);
    put_callers(&mut out, sink, replies);
    out.put(sink, b"end\n");
    out.finish(sink)
}

/// The line that says how many entries there are.
pub fn put_length_of<K: ByteSink>(out: &mut SinkBuffer, sink: &mut K, entries: usize)
    ensures { Puts K.ByteSink (sink.old, out.old) (sink.new, out.new) (count_line (codes "history") entries) }
{
    put_labelled(out, sink, b"history ", entries as u64);
    out.put(sink, b"\n");
}

/// The entries, by the versions that they made.
pub fn put_entries<K: ByteSink>(out: &mut SinkBuffer, sink: &mut K, history: &[Entry])
    ensures { Puts K.ByteSink (sink.old, out.old) (sink.new, out.new) (numbered entry_line 1 history.now) }
{
    for index in 0..history.len() {
        put_entry(out, sink, index as u64 + 1, history[index]);
    }
}

/// The entry that made this version.
fn put_entry<K: ByteSink>(out: &mut SinkBuffer, sink: &mut K, version: u64, entry: Entry)
    ensures { Puts K.ByteSink (sink.old, out.old) (sink.new, out.new) (entry_line version entry) }
{
    put_labelled(out, sink, b"entry ", version);
    put_labelled(out, sink, b" caller ", u64::from(entry.caller));
    put_labelled(out, sink, b" line ", u64::from(entry.line));
    put_edit(out, sink, entry.edit);
    out.put(sink, b"\n");
}

/// An edit, in the words of a script.
fn put_edit<K: ByteSink>(out: &mut SinkBuffer, sink: &mut K, edit: Edit)
    ensures { Puts K.ByteSink (sink.old, out.old) (sink.new, out.new) (flat_map after_space (edit_words edit)) }
{
    match edit {
        Edit::Add { id, x, y, cap } => {
            put_labelled(out, sink, b" add ", u64::from(id));
            put_coordinate(out, sink, x);
            put_coordinate(out, sink, y);
            put_capacitance(out, sink, cap);
        }
        Edit::Remove { id } => {
            put_labelled(out, sink, b" remove ", u64::from(id));
        }
        Edit::Move { id, x, y } => {
            put_labelled(out, sink, b" move ", u64::from(id));
            put_coordinate(out, sink, x);
            put_coordinate(out, sink, y);
        }
        Edit::SetCap { id, cap } => {
            put_labelled(out, sink, b" cap ", u64::from(id));
            put_capacitance(out, sink, cap);
        }
    }
}

/// The callers from 1 on, each with its replies.
fn put_callers<K: ByteSink>(out: &mut SinkBuffer, sink: &mut K, replies: &[Vec<Reply>])
    requires { All (λ one. All IsPrintableReply one) (lists_of replies.now) }
    ensures { Puts K.ByteSink (sink.old, out.old) (sink.new, out.new)
        (numbered caller_text 1 (lists_of replies.now)) }
{
    for index in 0..replies.len() {
        put_caller(out, sink, index as u64 + 1, &replies[index]);
    }
}

/// The replies to the caller of this number, after the line with how many they are.
fn put_caller<K: ByteSink>(out: &mut SinkBuffer, sink: &mut K, caller: u64, replies: &[Reply])
    requires { All IsPrintableReply replies.now }
    ensures { Puts K.ByteSink (sink.old, out.old) (sink.new, out.new) (caller_text caller replies.now) }
{
    put_labelled(out, sink, b"caller ", caller);
    put_labelled(out, sink, b" replies ", replies.len() as u64);
    out.put(sink, b"\n");
    put_replies(out, sink, replies);
}
