//! Sessions on a die of 20 nm by 20 nm with the source at (0, 0), a wire of 1 µΩ and 1 zF per nm and no
//! buffer. What each draw gives is worked by hand; delays are doubled, in 10^-27 s.

ghost use Rattle.std.specs.Prelude.{◌≡◌, IfOk};
ghost use Rattle.cts_design.specs.Edits.{IsEdit};
ghost use Rattle.cts_session.specs.Desks.{AreDivisible, AreHandsOf};

use crate::compare::same;
use crate::drawing::{draw, split, sum_up};
use crate::instances::{instance, sink, wall};
use cts_block::Block;
use cts_design::{Edit, EditCause, EditReply, Entry};
use cts_memo::Table;
use cts_plain::NoTree;
use cts_session::{Desk, DeskOut, Hands, Session, TreeEnd};
use cts_units::Sink;
use cts_work::OpenGate;
use std::alloc::Global;
use std::process::Abort;
use std::sync::Wait;
use std::test::Fail;

/// A desk of these sinks and blocks.
fn desk_of(alloc: Global, sinks: &[Sink], blocks: &[Block]) -> Result<(Desk, Hands), Fail>
    ensures own { IfOk result (λ d. AreHandsOf d.0 d.1) }
    ensures share { IfOk result (λ d. AreDivisible d.1) }
{
    let instance = instance(alloc, sinks, blocks)?;
    Ok(Desk::start(alloc, instance)?)
}

/// A desk of two sinks on the x axis, at 0 and at 10 nm.
fn begin(alloc: Global) -> Result<(Desk, Hands), Fail>
    ensures own { IfOk result (λ d. AreHandsOf d.0 d.1) }
    ensures share { IfOk result (λ d. AreDivisible d.1) }
{
    desk_of(alloc, &[sink(1, 0, 0, 5), sink(2, 10, 0, 10)], &[])
}

/// What is told of the tree of a session now: its version, wire, greatest and least delay.
fn drawn<R: Wait>(
    rt: &R,
    alloc: Global,
    session: &mut Session<'_>,
) -> Option<(u32, u64, u128, u128)>
    ensures { session.new.desk ≡ session.old.desk }
{
    let drawn = draw(rt, alloc, session, &OpenGate).ok()?;
    let figures = &drawn.figures;
    Some((
        drawn.version,
        figures.wire_total,
        figures.greatest,
        figures.least,
    ))
}

/// Sink 2 with 6 zF in the place of 10.
const LIGHTER: Edit = Edit::SetCap { id: 2, cap: 6 };

/// A sink with an id that is there.
const KNOWN: Edit = Edit::Add {
    id: 1,
    x: 5,
    y: 5,
    cap: 5,
};

/// The reply to the first edit that is accepted.
fn accepted() -> EditReply {
    EditReply::Accepted { version: 1 }
}

/// The second session draws, before and after the first one makes a sink lighter.
fn draws_both<R: Wait + Abort>(rt: &R, alloc: Global, one: &mut Session<'_>, two: &mut Session<'_>)
    ensures one { one.new.desk ≡ one.old.desk }
    ensures two { two.new.desk ≡ two.old.desk }
{
    // 6 nm to the left sink and 4 nm to the right one, with 96 each. Above them are 25 zF at 6 nm: 336.
    let tree = drawn(rt, alloc, two);
    same(rt, "the first tree", tree, Some((0, 16, 432, 432)));
    same(rt, "lighter", one.edit(rt, 7, LIGHTER), accepted());
    // 5 nm to each, with 75 and 85. Above them are 21 zF at 5 nm: 235.
    let tree = drawn(rt, alloc, two);
    same(rt, "the second tree", tree, Some((1, 15, 320, 310)));
}

#[test]
fn an_edit_of_one_session_reaches_the_other(rt: HostRuntime) -> Result<(), Fail> {
    let (desk, hands) = begin(rt.alloc())?;
    let (mut one, mut two) = Session::of(&desk, hands, 1).split(2);
    draws_both(&rt, rt.alloc(), &mut one, &mut two);
    let known = EditReply::Refused {
        cause: EditCause::Known,
        version: 1,
    };
    same(&rt, "known", two.edit(&rt, 8, KNOWN), known);
    Ok(())
}

/// What is told of a session now without its tree: its version, skew and wire.
fn summed_up<R: Wait>(rt: &R, alloc: Global, session: &mut Session<'_>) -> Option<(u32, u128, u64)>
    ensures { session.new.desk ≡ session.old.desk }
{
    let summed = sum_up(rt, alloc, session, &OpenGate).ok()?;
    Some((summed.version, summed.totals.skew, summed.totals.wire))
}

/// The second session tells what its trees would have, before and after the first one makes a sink lighter.
fn sums_both<R: Wait + Abort>(rt: &R, alloc: Global, one: &mut Session<'_>, two: &mut Session<'_>)
    ensures one { one.new.desk ≡ one.old.desk }
    ensures two { two.new.desk ≡ two.old.desk }
{
    // Wires of 6, 4 and 6 nm, and 432 at both sinks.
    let told = summed_up(rt, alloc, two);
    same(rt, "before", told, Some((0, 0, 16)));
    same(rt, "lighter", one.edit(rt, 7, LIGHTER), accepted());
    // Wires of 5, 5 and 5 nm, and 310 and 320 at the sinks.
    let told = summed_up(rt, alloc, two);
    same(rt, "after", told, Some((1, 10, 15)));
}

#[test]
fn totals_are_those_of_the_tree(rt: HostRuntime) -> Result<(), Fail> {
    let (desk, hands) = begin(rt.alloc())?;
    let (mut one, mut two) = Session::of(&desk, hands, 1).split(2);
    sums_both(&rt, rt.alloc(), &mut one, &mut two);
    Ok(())
}

/// The capacitances of two sinks.
fn caps(sinks: &[Sink]) -> Option<(u64, u64)> {
    match sinks {
        [first, second] => Some((first.cap, second.cap)),
        _ => None,
    }
}

/// The only entry.
fn only(edits: &[Entry]) -> Option<Entry> {
    match edits {
        [entry] => Some(*entry),
        _ => None,
    }
}

/// The closed desk has two sinks, the second of which the edit of caller 2 made lighter, and the nodes of both
/// trees: two leaves and a pair, then another leaf and the pair above it.
fn tells_all<R: Abort>(rt: &R, desk: Desk, hands: Hands)
    requires { AreHandsOf desk hands }
{
    let Ok((instance, table, edits, sinks)) = desk.close(hands) else {
        panic!(rt; "hands are out")
    };
    same(rt, "before", caps(instance.sinks()), Some((5, 10)));
    same(rt, "after", caps(&sinks), Some((5, 6)));
    let entry = Entry {
        caller: 2,
        line: 7,
        edit: LIGHTER,
    };
    same(rt, "the only entry", only(&edits), Some(entry));
    has_five(rt, &table);
}

/// The table has five entries.
fn has_five<R: Abort>(rt: &R, table: &Table) {
    assert!(rt; table.entry(4).is_some());
    assert!(rt; table.entry(5).is_none());
}

#[test]
fn a_closed_desk_tells_all(rt: HostRuntime) -> Result<(), Fail> {
    let (desk, hands) = begin(rt.alloc())?;
    let (mut one, mut two) = Session::of(&desk, hands, 1).split(2);
    assert!(rt; drawn(&rt, rt.alloc(), &mut one).is_some());
    same(&rt, "lighter", two.edit(&rt, 7, LIGHTER), accepted());
    assert!(rt; drawn(&rt, rt.alloc(), &mut one).is_some());
    let hands = one.join(two).hands();
    tells_all(&rt, desk, hands);
    Ok(())
}

/// Desk and hands, which come back since the other hands are out.
fn still_open<R: Abort>(rt: &R, desk: Desk, hands: Hands) -> (Desk, Hands)
    requires { AreHandsOf desk hands }
    ensures desk { result.0 ≡ desk }
    ensures hands { result.1 ≡ hands }
{
    match desk.close(hands) {
        Ok(_) => panic!(rt; "the second hands are out"),
        Err(DeskOut { desk, hands }) => (desk, hands),
    }
}

/// Joins both hands of a desk, and closes it.
fn close_both<R: Abort>(rt: &R, desk: Desk, first: Hands, second: Hands)
    requires first { AreHandsOf desk first }
    requires second { AreHandsOf desk second }
{
    let one = Session::of(&desk, first, 1);
    let hands = one.join(Session::of(&desk, second, 2)).hands();
    assert!(rt; desk.close(hands).is_ok());
}

#[test]
fn a_desk_stays_open_while_hands_are_out(rt: HostRuntime) -> Result<(), Fail> {
    let (desk, hands) = begin(rt.alloc())?;
    let (first, second) = split(&desk, hands);
    let (desk, first) = still_open(&rt, desk, first);
    close_both(&rt, desk, first, second);
    Ok(())
}

/// A desk of one sink, at (10, 10), that walls on all four sides cut off.
fn begin_walled(alloc: Global) -> Result<(Desk, Hands), Fail>
    ensures own { IfOk result (λ d. AreHandsOf d.0 d.1) }
{
    let walls = [
        wall(6, 6, 9, 14),
        wall(11, 6, 14, 14),
        wall(6, 6, 14, 9),
        wall(6, 11, 14, 14),
    ];
    desk_of(alloc, &[sink(1, 10, 10, 5)], &walls)
}

/// The version at which the sink that stands at the root is cut off.
fn cut_at<R: Wait>(rt: &R, alloc: Global, session: &mut Session<'_>) -> Option<u32>
    ensures { session.new.desk ≡ session.old.desk }
{
    match draw(rt, alloc, session, &OpenGate) {
        Err(
            TreeEnd::None {
                version,
                why: NoTree::Cut { node: 0 },
            },
        ) => Some(version),
        _ => None,
    }
}

/// The version of which totals tell that the sink is cut off.
fn totals_cut_at<R: Wait>(rt: &R, alloc: Global, session: &mut Session<'_>) -> Option<u32>
    ensures { session.new.desk ≡ session.old.desk }
{
    match sum_up(rt, alloc, session, &OpenGate) {
        Err(
            TreeEnd::None {
                version,
                why: NoTree::Cut { node: 0 },
            },
        ) => Some(version),
        _ => None,
    }
}

#[test]
fn a_sink_that_is_cut_has_no_totals(rt: HostRuntime) -> Result<(), Fail> {
    let (desk, hands) = begin_walled(rt.alloc())?;
    let mut session = Session::of(&desk, hands, 1);
    let cut = totals_cut_at(&rt, rt.alloc(), &mut session);
    same(&rt, "cut off at the start", cut, Some(0));
    let away = Edit::Move { id: 1, x: 1, y: 1 };
    same(&rt, "away", session.edit(&rt, 7, away), accepted());
    // One wire of 2 nm.
    let told = summed_up(&rt, rt.alloc(), &mut session);
    same(&rt, "the totals", told, Some((1, 0, 2)));
    Ok(())
}

#[test]
fn a_sink_that_was_cut_is_moved(rt: HostRuntime) -> Result<(), Fail> {
    let (desk, hands) = begin_walled(rt.alloc())?;
    let mut session = Session::of(&desk, hands, 1);
    let cut = cut_at(&rt, rt.alloc(), &mut session);
    same(&rt, "cut off at the start", cut, Some(0));
    let away = Edit::Move { id: 1, x: 1, y: 1 };
    same(&rt, "away", session.edit(&rt, 7, away), accepted());
    // 5 zF at 2 nm.
    let tree = drawn(&rt, rt.alloc(), &mut session);
    same(&rt, "the tree", tree, Some((1, 2, 24, 24)));
    Ok(())
}
