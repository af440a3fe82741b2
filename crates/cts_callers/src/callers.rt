//! Callers who go through their scripts beside each other.

ghost use Rattle.std.specs.Prelude.{◌≡◌, ◌≤◌, ◌<◌, ◌+◌, [], ◌∷◌, length, IfOk};
ghost use denote.Param.Send.{IsSync};
ghost use Rattle.cts_session.specs.Desks.{AreHandsOf, base_of};
ghost use Rattle.cts_session.specs.Sessions.{edits_of};
ghost use Rattle.cts_history.specs.Legal.{IsAnswered, accepted};
ghost use Rattle.cts_callers.specs.Turns.{AreReady, AreServed, AreTogether, IsOnly, Keeps};

use crate::answer::go_through;
use cts_history::Reply;
use cts_merge::Steps;
use cts_num::NoMemory;
use cts_script::Script;
use cts_session::laws::desk_is_shared;
use cts_session::{Desk, Hands, Session};
use cts_work::Gate;
use std::alloc::Global;
use std::marker::Brand;
use std::sync::Wait;
use std::sync::ledger::{Blank, Ledger};
use std::thread::{Threads, join};

/// What callers leave: the replies to each, and their hands.
#[derive(Drop)]
pub(crate) struct Served {
    pub(crate) replies: Result<Vec<Vec<Reply>>, NoMemory>,
    pub(crate) hands: Hands,
}

/// A caller's way through its script, whose merges this counter counts.
fn go_counted<L: Ledger, R: Wait, G: Gate>(
    rt: &R,
    alloc: Global,
    session: &mut Session<'_>,
    gate: &G,
    script: &Script,
    blank: Blank,
) -> Result<Vec<Reply>, NoMemory>
    requires name { blank.name ≡ L.name }
    requires parts { blank.parts ≡ L.parts }
    requires some { 0 < L.parts }
    ensures desk { session.new.desk ≡ session.old.desk }
    ensures keeps { IfOk result (λ replies. Keeps session.old session.new (length (accepted replies.items))) }
    ensures answered { IfOk result (λ replies. IsAnswered (base_of session.old.desk) (edits_of session.new) session.old.caller script.now replies.items) }
{
    let mut steps = Steps::<L>::open(blank);
    go_through(rt, alloc, session, gate, script, &mut steps)
}

/// A caller's way through its script, whose merges nobody counts.
fn go_alone<R: Wait, G: Gate>(
    rt: &R,
    alloc: Global,
    session: &mut Session<'_>,
    gate: &G,
    script: &Script,
) -> Result<Vec<Reply>, NoMemory>
    ensures desk { session.new.desk ≡ session.old.desk }
    ensures keeps { IfOk result (λ replies. Keeps session.old session.new (length (accepted replies.items))) }
    ensures answered { IfOk result (λ replies. IsAnswered (base_of session.old.desk) (edits_of session.new) session.old.caller script.now replies.items) }
{
    go_counted::<Brand, R, G>(rt, alloc, session, gate, script, Blank::new(1))
}

/// The list of one.
fn only(alloc: Global, replies: Result<Vec<Reply>, NoMemory>) -> Result<Vec<Vec<Reply>>, NoMemory>
    ensures { IfOk result (IsOnly replies) }
{
    let mut all = Vec::new(alloc);
    all.push(replies?)?;
    Ok(all)
}

/// One caller, who goes through its script. The gate is called before its first step.
fn run_one<R: Wait, G: Gate>(
    rt: &R,
    alloc: Global,
    gate: &G,
    desk: &Desk,
    hands: Hands,
    caller: u32,
    script: &Script,
) -> Served
    requires { AreHandsOf desk.now hands }
    ensures { AreServed desk.now hands caller (script.now ∷ []) result }
{
    gate.piece(caller);
    let mut session = Session::of(desk, hands, caller);
    let replies = go_alone(rt, alloc, &mut session, gate, script);
    Served {
        replies: only(alloc, replies),
        hands: session.hands(),
    }
}

/// The replies to all, unless one found no memory.
fn together(
    first: Result<Vec<Vec<Reply>>, NoMemory>,
    second: Result<Vec<Vec<Reply>>, NoMemory>,
) -> Result<Vec<Vec<Reply>>, NoMemory>
    ensures { IfOk result (AreTogether first second) }
{
    let mut all = first?;
    let mut others = second?;
    all.append(&mut others)?;
    Ok(all)
}

/// Callers, numbered from `first` on, who go through their scripts, each in a thread of its own where one
/// can be made.
#[cycle(callers)]
pub(crate) fn run_from<R: Threads + Wait + Sync, G: Gate>(
    rt: &R,
    alloc: Global,
    gate: &G,
    desk: &Desk,
    hands: Hands,
    first: u32,
    scripts: &[Script],
) -> Served
    requires shared { IsSync R.row × IsSync G.row }
    requires ready { AreReady desk.now hands first scripts.now }
    ensures { AreServed desk.now hands first scripts.now result }
{
    if scripts.len() < 2 {
        return run_one(rt, alloc, gate, desk, hands, first, &scripts[0]);
    }
    let (here, there) = scripts.split_at(scripts.len() - scripts.len() / 2);
    let second = first + here.len() as u32;
    let (one, other) = Session::of(desk, hands, first).split(second);
    let (one_hands, other_hands) = (one.hands(), other.hands());
    let front = move || -> Served
        requires { IsSync R.row × IsSync G.row × AreReady desk.now one_hands first here.now }
        ensures { AreServed desk.entry.now one_hands first here.entry.now result }
    { run_from(rt, alloc, gate, desk, one_hands, first, here) };
    let back = move || -> Served
        requires { IsSync R.row × IsSync G.row × AreReady desk.now other_hands second there.now }
        ensures { AreServed desk.entry.now other_hands second there.entry.now result }
    { run_from(rt, alloc, gate, desk, other_hands, second, there) };
    desk_is_shared();
    let (a, b) = join(rt, front, back);
    let one = Session::of(desk, a.hands, first);
    let other = Session::of(desk, b.hands, second);
    Served {
        replies: together(a.replies, b.replies),
        hands: one.join(other).hands(),
    }
}
