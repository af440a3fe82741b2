//! Callers at the desk of one sink at (3, 4) µm with 5 fF, on a die of 20 µm by 20 µm with the source at
//! (0, 0), a wire of 1 Ω and 1 fF per µm and no buffer. What is expected is worked by hand.

ghost use Rattle.std.specs.Prelude.{◌≤◌, length, IfOk};
ghost use Rattle.cts_session.specs.Desks.{AreDivisible, AreHandsOf};

use crate::compare::same;
use crate::drawing::{draw, split};
use crate::gates::Meeting;
use cts_callers::{Run, run_callers};
use cts_design::{EditCause, EditReply};
use cts_elmore::Figures;
use cts_history::Reply;
use cts_instance::Instance;
use cts_plain::NoTree;
use cts_read::read_instance;
use cts_script::{Script, make_instance, read_script};
use cts_session::laws::desk_is_shared;
use cts_session::{Desk, Hands, Session};
use cts_tree::Tree;
use cts_work::Gate;
use std::alloc::Global;
use std::sync::Wait;
use std::sync::atomic::{AtomicU64, Ordering};
use std::test::Fail;
use std::thread::{Threads, join, yield_now};

/// The text, where every reader takes as many bytes.
pub(crate) fn short(text: &[u8]) -> &[u8]
    ensures { length result.now ≤ 67108864 }
{
    if text.len() <= 67_108_864 { text } else { b"" }
}

pub(crate) fn one_sink(alloc: Global) -> Result<Instance, Fail> {
    let text =
        b"cts 1\ndie 0 0 20 20\nsource 0 0 0\nwire 1 1\nlimits 100 100 100\nbuffers 0\nsinks 1\nsink 1 3 4 5\nblocks 0\nend\n";
    Ok(read_instance(alloc, short(text))?.instance)
}

/// The reply to the first step of the caller at this place, where it is an edit.
fn first_reply(run: &Run, place: usize) -> Option<EditReply> {
    match run.replies.get(place)?.first()? {
        Reply::Edited { reply, .. } => Some(*reply),
        _ => None,
    }
}

/// The wire of a tree in nm, and its greatest doubled delay in 10^-27 s.
pub(crate) fn tree_of(synthesis: &Result<(Tree, Figures), NoTree>) -> Option<(u64, u128)> {
    match synthesis {
        Ok((_, figures)) => Some((figures.wire_total, figures.greatest)),
        Err(_) => None,
    }
}

/// What is told of a run: how many edits were accepted, how many sinks there are then, and their tree.
type Told = (usize, usize, Option<(u64, u128)>);

/// What a run of these callers comes to, and the replies to the first steps of the first two.
fn told<R: Threads + Wait + Sync, G: Gate>(
    rt: &R,
    alloc: Global,
    gate: &G,
    text: &[u8],
) -> Result<(Told, (Option<EditReply>, Option<EditReply>)), Fail> {
    let scripts = read_script(alloc, short(text), 10)?;
    let run = run_callers(rt, alloc, gate, one_sink(alloc)?, &scripts)?;
    let told = (run.history.len(), run.sinks.len(), tree_of(&run.synthesis));
    Ok((told, (first_reply(&run, 0), first_reply(&run, 1))))
}

#[test]
fn one_of_two_callers_adds_the_sink_that_both_add(rt: HostRuntime) -> Result<(), Fail> {
    let gate = Meeting::of(1, 2);
    let text = b"callers 2\n1 add 9 10 0 5\n2 add 9 10 0 5\nend\n";
    let (told, replies) = told(&rt, rt.alloc(), &gate, text)?;
    let accepted = Some(EditReply::Accepted { version: 1 });
    let refused = Some(EditReply::Refused {
        cause: EditCause::Known,
        version: 1,
    });
    let is_one = replies == (accepted, refused) || replies == (refused, accepted);
    assert!(rt; is_one, "{replies:?}");
    let tree = Some((15_500, 294_500_000_000_000));
    same(&rt, "one edit, two sinks", told, (1, 2, tree));
    same(&rt, "both began, none late", gate.counted(), (0b110, 0, 0));
    // Two leaves and their pair, of the tree after all edits.
    same(&rt, "made with the number 0", gate.made(), 3);
    Ok(())
}

#[test]
fn callers_begin_before_their_first_draws(rt: HostRuntime) -> Result<(), Fail> {
    let gate = Meeting::of(1, 2);
    let text = b"callers 2\n1 tree\n2 tree\nend\n";
    let (told, _) = told(&rt, rt.alloc(), &gate, text)?;
    let tree = Some((7_000, 119_000_000_000_000));
    same(&rt, "no edit, one sink", told, (0, 1, tree));
    same(&rt, "nothing made before", gate.counted(), (0b110, 0, 0));
    Ok(())
}

/// How often a caller looks for the other one, before it goes on without.
const TURNS: u32 = 10_000_000;

/// A gate that holds caller 1, as it makes a subtree, until caller 2 has its tree.
#[derive(Drop)]
struct HoldFirst {
    held: AtomicU64,
    answered: AtomicU64,
    given_up: AtomicU64,
}

impl HoldFirst {
    fn new() -> HoldFirst {
        HoldFirst {
            held: AtomicU64::new(0),
            answered: AtomicU64::new(0),
            given_up: AtomicU64::new(0),
        }
    }

    /// Waits until the word is set, or gives up.
    fn wait_for(&self, word: &AtomicU64) {
        for _ in 0..TURNS {
            if word.load(Ordering::SeqCst) == 1 {
                return;
            }
            yield_now();
        }
        self.given_up.store(1, Ordering::SeqCst);
    }
}

impl Gate for HoldFirst {
    fn piece(&self, _number: u32) {}

    fn between(&self, number: u32) {
        if number == 1 {
            self.held.store(1, Ordering::SeqCst);
            self.wait_for(&self.answered);
        }
    }
}

/// Draws a caller's tree. The second caller does so while the first is held, and tells the gate when it is
/// answered.
fn draw_held<R: Wait>(
    rt: &R,
    alloc: Global,
    desk: &Desk,
    hands: Hands,
    caller: u32,
    gate: &HoldFirst,
) -> (u64, Hands)
    requires { AreHandsOf desk.now hands }
{
    let mut session = Session::of(desk, hands, caller);
    if caller == 2 {
        gate.wait_for(&gate.held);
    }
    let drawn = draw(rt, alloc, &mut session, gate);
    if caller == 2 {
        gate.answered.store(1, Ordering::SeqCst);
    }
    let wire = match &drawn {
        Ok(drawn) => drawn.figures.wire_total,
        Err(_) => 0,
    };
    (wire, session.hands())
}

/// The wire of two callers' trees, which they draw beside each other.
fn draw_beside<R: Threads + Wait + Sync>(
    rt: &R,
    alloc: Global,
    desk: &Desk,
    hands: Hands,
    gate: &HoldFirst,
) -> (u64, u64)
    requires own { AreHandsOf desk.now hands }
    requires share { AreDivisible hands }
{
    desk_is_shared();
    let (first, second) = split(desk, hands);
    let ((one, _), (two, _)) = join(
        rt,
        || draw_held(rt, alloc, desk, first, 1, gate),
        || draw_held(rt, alloc, desk, second, 2, gate),
    );
    (one, two)
}

/// A desk of 64 sinks.
fn begin(alloc: Global) -> Result<(Desk, Hands), Fail>
    ensures own { IfOk result (λ d. AreHandsOf d.0 d.1) }
    ensures share { IfOk result (λ d. AreDivisible d.1) }
{
    let instance = make_instance(alloc, 14, 64)?;
    Ok(Desk::start(alloc, instance)?)
}

#[test]
fn no_turn_is_held_while_a_tree_is_made(rt: HostRuntime) -> Result<(), Fail> {
    let (desk, hands) = begin(rt.alloc())?;
    let gate = HoldFirst::new();
    let (one, two) = draw_beside(&rt, rt.alloc(), &desk, hands, &gate);
    same(&rt, "both wires", one, two);
    assert!(rt; one > 0);
    same(
        &rt,
        "no caller gave up",
        gate.given_up.load(Ordering::SeqCst),
        0,
    );
    Ok(())
}
