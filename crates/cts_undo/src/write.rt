//! The text of a replay, written to a sink.

ghost use Rattle.std.specs.Prelude.{◌++◌, ◌∷◌, [], All, codes};
ghost use Rattle.std.specs.List.{flat_map};
ghost use Rattle.cts_io.specs.Text.{Puts, Writes};
ghost use Rattle.cts_script.specs.Text.{line_of};
ghost use Rattle.cts_history.specs.History.{whole};
ghost use Rattle.cts_undo.specs.ReplayText.{IsPrintableReplay, replay_line, replay_text, replies_text};

use crate::reply::ReplayReply;
use crate::run::CALLER;
use cts_edit::Entry;
use cts_history::{put_count, put_entries, put_length_of, put_reply, put_whole, put_word};
use cts_io::{ByteSink, SinkBuffer, WriteEnd};

/// The line of the script, what was done there, and the version after it.
fn put_moved<K: ByteSink>(out: &mut SinkBuffer, sink: &mut K, line: u32, words: &[u8], version: u32)
    ensures { Puts K.ByteSink (sink.old, out.old) (sink.new, out.new)
        (line_of (codes "line") (whole line ∷ words.now ∷ whole version ∷ [])) }
{
    out.put(sink, b"line");
    put_count(out, sink, line);
    put_word(out, sink, words);
    put_count(out, sink, version);
    out.put(sink, b"\n");
}

/// The line of the reply to a step.
fn put_replay_reply<K: ByteSink>(out: &mut SinkBuffer, sink: &mut K, reply: ReplayReply)
    requires { IsPrintableReplay reply }
    ensures { Puts K.ByteSink (sink.old, out.old) (sink.new, out.new) (replay_line reply) }
{
    match reply {
        ReplayReply::Answered(reply) => put_reply(out, sink, reply),
        ReplayReply::Undone { line, version } => put_moved(out, sink, line, b"undone", version),
        ReplayReply::Redone { line, version } => put_moved(out, sink, line, b"redone", version),
        ReplayReply::Nothing { line, version } => {
            put_moved(out, sink, line, b"nothing at", version);
        }
    }
}

/// The lines of all replies.
fn put_lines<K: ByteSink>(out: &mut SinkBuffer, sink: &mut K, replies: &[ReplayReply])
    requires { All IsPrintableReplay replies.now }
    ensures { Puts K.ByteSink (sink.old, out.old) (sink.new, out.new) (flat_map replay_line replies.now) }
{
    for reply in replies {
        put_replay_reply(out, sink, *reply);
    }
}

/// The replies, after the line with how many they are.
fn put_replies<K: ByteSink>(out: &mut SinkBuffer, sink: &mut K, replies: &[ReplayReply])
    requires { All IsPrintableReplay replies.now }
    ensures { Puts K.ByteSink (sink.old, out.old) (sink.new, out.new) (replies_text replies.now) }
{
    out.put(sink, b"caller");
    put_count(out, sink, CALLER);
    put_word(out, sink, b"replies");
    put_whole(out, sink, replies.len() as u64);
    out.put(sink, b"\n");
    put_lines(out, sink, replies);
}

/// Writes the changes that are done at the end of a replay, and the replies to its steps. It takes no
/// memory.
///
/// - `Ok`: the sink has taken the whole text.
/// - `WriteFault`: only where the sink's count of faults rose in this call; the sink has taken exactly
///   the front of the text that the answer tells.
pub fn write_replay<K: ByteSink>(
    sink: &mut K,
    done: &[Entry],
    replies: &[ReplayReply],
) -> Result<(), WriteEnd>
    requires { All IsPrintableReplay replies.now }
    ensures { Writes K.held K.faults sink.old sink.new (replay_text done.now replies.now) result }
{
    let mut out = SinkBuffer::new();
    out.put(sink, b"cts edit 1\n");
    put_length_of(&mut out, sink, done.len());
    put_entries(&mut out, sink, done);
    put_replies(&mut out, sink, replies);
    out.put(sink, b"end\n");
    out.finish(sink)
}
