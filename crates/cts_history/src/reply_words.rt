//! The lines of the replies to a caller.

ghost use Rattle.std.specs.Prelude.{◌^◌, ◌≤◌, All};
ghost use Rattle.std.specs.List.{flat_map};
ghost use Rattle.cts_io.specs.Text.{Puts};
ghost use Rattle.cts_script.specs.Text.{after_space};
ghost use Rattle.cts_history.specs.History.{IsPrintableReply, cause_words, changed_words, no_tree_words, reply_line, reply_words, tree_words};

use crate::reply::Reply;
use crate::words::{put_count, put_delay, put_labelled, put_length, put_word};
use cts_edit::{EditCause, EditReply};
use cts_io::{ByteSink, SinkBuffer};
use cts_plain::NoTree;

/// The lines of all replies to a caller.
pub fn put_replies<K: ByteSink>(out: &mut SinkBuffer, sink: &mut K, replies: &[Reply])
    requires { All IsPrintableReply replies.now }
    ensures { Puts K.ByteSink (sink.old, out.old) (sink.new, out.new) (flat_map reply_line replies.now) }
{
    for reply in replies {
        put_reply(out, sink, *reply);
    }
}

/// The line of the reply to a step.
pub fn put_reply<K: ByteSink>(out: &mut SinkBuffer, sink: &mut K, reply: Reply)
    requires { IsPrintableReply reply }
    ensures { Puts K.ByteSink (sink.old, out.old) (sink.new, out.new) (reply_line reply) }
{
    out.put(sink, b"line");
    put_words(out, sink, reply);
    out.put(sink, b"\n");
}

/// The line of the script, and the reply to it.
fn put_words<K: ByteSink>(out: &mut SinkBuffer, sink: &mut K, reply: Reply)
    requires { IsPrintableReply reply }
    ensures { Puts K.ByteSink (sink.old, out.old) (sink.new, out.new) (flat_map after_space (reply_words reply)) }
{
    match reply {
        Reply::Edited { line, reply } => {
            put_count(out, sink, line);
            put_changed(out, sink, reply);
        }
        Reply::Drew {
            line,
            version,
            skew,
            wire,
        } => {
            put_count(out, sink, line);
            put_tree(out, sink, version, skew, wire);
        }
        Reply::NoTree { line, version, why } => {
            put_count(out, sink, line);
            put_no_tree(out, sink, version, why);
        }
    }
}

/// The reply to a change, which is no want of memory.
fn put_changed<K: ByteSink>(out: &mut SinkBuffer, sink: &mut K, reply: EditReply)
    ensures { Puts K.ByteSink (sink.old, out.old) (sink.new, out.new) (flat_map after_space (changed_words reply)) }
{
    match reply {
        EditReply::Accepted { version } => {
            put_labelled(out, sink, b" accepted ", u64::from(version));
        }
        EditReply::Refused { cause, version } => {
            put_word(out, sink, b"refused");
            put_cause(out, sink, cause);
            put_labelled(out, sink, b" at ", u64::from(version));
        }
        EditReply::NoMemory => {}
    }
}

/// The cause that refuses an edit.
#[tactic(auto, unfolding(crate::specs::History::cause_words))]
pub fn put_cause<K: ByteSink>(out: &mut SinkBuffer, sink: &mut K, cause: EditCause)
    ensures { Puts K.ByteSink (sink.old, out.old) (sink.new, out.new) (after_space (cause_words cause)) }
{
    match cause {
        EditCause::Known => put_word(out, sink, b"known"),
        EditCause::Unknown => put_word(out, sink, b"unknown"),
        EditCause::Outside => put_word(out, sink, b"outside"),
        EditCause::InBlock => put_word(out, sink, b"in block"),
        EditCause::Full => put_word(out, sink, b"full"),
        EditCause::Last => put_word(out, sink, b"last"),
        EditCause::Long => put_word(out, sink, b"long"),
    }
}

/// The tree of a version, by its skew and its wire.
fn put_tree<K: ByteSink>(out: &mut SinkBuffer, sink: &mut K, version: u32, skew: u128, wire: u64)
    requires { skew ≤ 10 ^ 37 }
    ensures { Puts K.ByteSink (sink.old, out.old) (sink.new, out.new)
        (flat_map after_space (tree_words version skew wire)) }
{
    put_labelled(out, sink, b" tree ", u64::from(version));
    put_word(out, sink, b"skew");
    put_delay(out, sink, skew);
    put_word(out, sink, b"wire");
    put_length(out, sink, wire);
}

/// Why a version has no tree, which is no want of memory.
fn put_no_tree<K: ByteSink>(out: &mut SinkBuffer, sink: &mut K, version: u32, why: NoTree)
    ensures { Puts K.ByteSink (sink.old, out.old) (sink.new, out.new)
        (flat_map after_space (no_tree_words version why)) }
{
    match why {
        NoTree::Beyond { node } => {
            put_labelled(out, sink, b" no tree beyond at node ", u64::from(node));
            put_labelled(out, sink, b" at ", u64::from(version));
        }
        NoTree::Cut { node } => {
            put_labelled(out, sink, b" no tree cut at node ", u64::from(node));
            put_labelled(out, sink, b" at ", u64::from(version));
        }
        NoTree::NoMemory => {}
    }
}
