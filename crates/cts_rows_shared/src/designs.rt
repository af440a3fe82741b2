//! Edits of small instances on a die of 20 nm by 20 nm, whose replies are worked by hand.

ghost use Rattle.std.specs.Prelude.{◌≡◌, ◌≤◌, IfOk};
ghost use Rattle.cts_turn.specs.Passes.{share_of};
ghost use Rattle.cts_design.specs.Edits.{IsEdit};
ghost use Rattle.cts_design.specs.Passes.{IsPassOf, instance_of};

use crate::compare::same;
use crate::instances::{instance, sink};
use cts_design::EditCause::{Full, Known, Long, Outside};
use cts_design::laws::design_is_shared;
use cts_design::{Design, Edit, EditCause, EditReply, Entry, send_edit, snapshot};
use cts_instance::Instance;
use cts_turn::{Pass, Turn};
use cts_units::Sink;
use std::alloc::Global;
use std::process::Abort;
use std::sync::Wait;
use std::test::Fail;
use std::thread::{Threads, join};

fn begin(alloc: Global, sinks: &[Sink]) -> Result<(Turn<Design>, Pass<Design>), Fail>
    ensures own { IfOk result (λ d. IsPassOf d.0 d.1) }
    ensures share { IfOk result (λ d. share_of d.1 ≡ 65536) }
{
    let instance = instance(alloc, sinks, &[])?;
    Ok(Design::start(alloc, &instance)?)
}

fn add(id: u16, x: u8, y: u8, cap: u8) -> Edit
    ensures { IsEdit result }
{
    Edit::Add {
        id: id as u32,
        x: x as i64,
        y: y as i64,
        cap: cap as u64,
    }
}

fn remove(id: u16) -> Edit
    ensures { IsEdit result }
{
    Edit::Remove { id: id as u32 }
}

fn move_to(id: u16, x: u8, y: u8) -> Edit
    ensures { IsEdit result }
{
    Edit::Move {
        id: id as u32,
        x: x as i64,
        y: y as i64,
    }
}

fn set_cap(id: u16, cap: u32) -> Edit
    ensures { IsEdit result }
{
    Edit::SetCap {
        id: id as u32,
        cap: cap as u64,
    }
}

/// Sends an edit of caller 1.
fn send<R: Wait>(rt: &R, design: &Turn<Design>, pass: &mut Pass<Design>, edit: Edit) -> EditReply
    requires own { IsPassOf design.now pass.old }
    requires edit { IsEdit edit }
    ensures own { IsPassOf design.now pass.new }
    ensures share { share_of pass.new ≡ share_of pass.old }
{
    let entry = Entry {
        caller: 1,
        line: 13,
        edit,
    };
    send_edit(design, rt, pass, entry)
}

fn refused(cause: EditCause, version: u32) -> EditReply {
    EditReply::Refused { cause, version }
}

fn accepted(version: u32) -> EditReply {
    EditReply::Accepted { version }
}

/// Sends an edit of caller 1, which has this reply.
fn replies<R: Wait + Abort>(
    rt: &R,
    design: &Turn<Design>,
    pass: &mut Pass<Design>,
    edit: Edit,
    expected: EditReply,
)
    requires own { IsPassOf design.now pass.old }
    requires edit { IsEdit edit }
    ensures own { IsPassOf design.now pass.new }
    ensures share { share_of pass.new ≡ share_of pass.old }
{
    let reply = send(rt, design, pass, edit);
    assert_eq!(rt; reply, expected, "{edit:?}");
}

/// The id, place and capacitance of a sink.
type Numbers = (u32, i64, i64, u64);

fn numbers(sink: &Sink) -> Numbers {
    (sink.id, sink.x, sink.y, sink.cap)
}

/// The version of a snapshot, how many sinks it has, and the sink at this place of them.
fn listed<R: Wait>(
    rt: &R,
    design: &Turn<Design>,
    pass: &mut Pass<Design>,
    place: usize,
) -> Result<(u32, usize, Option<Numbers>), Fail>
    requires own { IsPassOf design.now pass.old }
    ensures own { IsPassOf design.now pass.new }
    ensures share { share_of pass.new ≡ share_of pass.old }
{
    let (version, sinks) = snapshot(design, rt, pass)?;
    let told = sinks.get(place).map(numbers);
    Ok((version, sinks.len(), told))
}

/// The history and the sinks of a design whose passes are all joined.
fn closed<R: Abort>(rt: &R, design: Turn<Design>, pass: Pass<Design>) -> (Vec<Entry>, Vec<Sink>)
    requires { IsPassOf design pass }
{
    match design.close(pass) {
        Ok(design) => design.into_lists(),
        Err(_) => panic!(rt; "a pass is out"),
    }
}

/// Two sinks and a third one, which are edited five times.
fn edit_three<R: Wait + Abort>(rt: &R, design: &Turn<Design>, pass: &mut Pass<Design>)
    requires own { IsPassOf design.now pass.old }
    ensures own { IsPassOf design.now pass.new }
{
    replies(rt, design, pass, add(9, 20, 20, 7), accepted(1));
    replies(rt, design, pass, remove(1), accepted(2));
    replies(rt, design, pass, move_to(2, 8, 1), accepted(3));
    replies(rt, design, pass, set_cap(9, 6), accepted(4));
    replies(rt, design, pass, add(1, 3, 3, 3), accepted(5));
}

/// The second edit of five.
fn second_of_five(history: &[Entry]) -> Option<Edit> {
    match history {
        [_, second, _, _, _] => Some(second.edit),
        _ => None,
    }
}

/// The numbers of three sinks.
fn three(sinks: &[Sink]) -> Option<[Numbers; 3]> {
    match sinks {
        [a, b, c] => Some([numbers(a), numbers(b), numbers(c)]),
        _ => None,
    }
}

#[test]
fn edits_keep_their_order(rt: HostRuntime) -> Result<(), Fail> {
    let (design, mut pass) = begin(rt.alloc(), &[sink(1, 0, 0, 5), sink(2, 10, 0, 10)])?;
    edit_three(&rt, &design, &mut pass);
    let (history, sinks) = closed(&rt, design, pass);
    let second = second_of_five(&history);
    same(&rt, "the second edit", second, Some(Edit::Remove { id: 1 }));
    let expected = [(2, 8, 1, 10), (9, 20, 20, 6), (1, 3, 3, 3)];
    same(&rt, "the sinks", three(&sinks), Some(expected));
    Ok(())
}

/// Adds sinks with the ids from 2 on, and tells the last reply.
fn add_sinks<R: Wait>(rt: &R, design: &Turn<Design>, pass: &mut Pass<Design>, end: u32) -> EditReply
    requires own { IsPassOf design.now pass.old }
    requires end { end ≤ 100000 }
    ensures own { IsPassOf design.now pass.new }
    ensures share { share_of pass.new ≡ share_of pass.old }
{
    let mut reply = EditReply::NoMemory;
    for id in 2..end {
        let edit = Edit::Add {
            id,
            x: 7,
            y: 7,
            cap: 3,
        };
        reply = send(rt, design, pass, edit);
    }
    reply
}

/// Sets the capacitance of sink 1 so many times, and tells the last reply.
fn set_caps<R: Wait>(
    rt: &R,
    design: &Turn<Design>,
    pass: &mut Pass<Design>,
    count: u32,
) -> EditReply
    requires own { IsPassOf design.now pass.old }
    ensures own { IsPassOf design.now pass.new }
    ensures share { share_of pass.new ≡ share_of pass.old }
{
    let mut reply = EditReply::NoMemory;
    for cap in 0..count {
        reply = send(rt, design, pass, set_cap(1, cap));
    }
    reply
}

#[test]
fn a_long_history_takes_no_more(rt: HostRuntime) -> Result<(), Fail> {
    let (design, mut pass) = begin(rt.alloc(), &[sink(1, 3, 4, 5)])?;
    let last = set_caps(&rt, &design, &mut pass, 65_536);
    same(&rt, "the last edit", last, accepted(65_536));
    replies(
        &rt,
        &design,
        &mut pass,
        set_cap(1, 0),
        refused(Long, 65_536),
    );
    let now = listed(&rt, &design, &mut pass, 0)?;
    same(&rt, "the sinks", now, (65_536, 1, Some((1, 3, 4, 65_535))));
    let outside = move_to(1, 0, 21);
    replies(&rt, &design, &mut pass, outside, refused(Outside, 65_536));
    Ok(())
}

#[test]
fn a_full_list_takes_no_more(rt: HostRuntime) -> Result<(), Fail> {
    let (design, mut pass) = begin(rt.alloc(), &[sink(1, 3, 4, 5)])?;
    let last = add_sinks(&rt, &design, &mut pass, 65_537);
    same(&rt, "the last sink", last, accepted(65_535));
    let more = add(0, 1, 1, 1);
    replies(&rt, &design, &mut pass, more, refused(Full, 65_535));
    replies(&rt, &design, &mut pass, remove(40_000), accepted(65_536));
    let now = listed(&rt, &design, &mut pass, 39_999)?;
    let closed_up = Some((40_001, 7, 7, 3));
    same(&rt, "the sinks", now, (65_536, 65_535, closed_up));
    replies(&rt, &design, &mut pass, more, refused(Long, 65_536));
    Ok(())
}

/// Adds sink 9 and gives the pass back.
fn add_nine<R: Wait>(
    rt: &R,
    design: &Turn<Design>,
    mut pass: Pass<Design>,
    caller: u32,
) -> (EditReply, Pass<Design>)
    requires { IsPassOf design.now pass }
    ensures own { IsPassOf design.now result.1 }
{
    let entry = Entry {
        caller,
        line: 13,
        edit: add(9, 10, 0, 5),
    };
    let reply = send_edit(design, rt, &mut pass, entry);
    (reply, pass)
}

/// Two threads add the same sink.
fn add_beside<R: Threads + Wait + Sync>(
    rt: &R,
    design: &Turn<Design>,
    first: Pass<Design>,
    second: Pass<Design>,
) -> (EditReply, EditReply, Pass<Design>)
    requires first { IsPassOf design.now first }
    requires second { IsPassOf design.now second }
    ensures { IsPassOf design.now result.2 }
{
    design_is_shared();
    let ((one, first), (two, second)) = join(
        rt,
        || add_nine(rt, design, first, 1),
        || add_nine(rt, design, second, 2),
    );
    (one, two, design.join(first, second))
}

/// The caller of the only entry.
fn only_caller(history: &[Entry]) -> Option<u32> {
    match history {
        [entry] => Some(entry.caller),
        _ => None,
    }
}

/// The caller whose edit was accepted, where the other one was told that the id is known.
fn accepted_caller(one: EditReply, two: EditReply) -> Option<u32> {
    let known = refused(Known, 1);
    if one == accepted(1) && two == known {
        Some(1)
    } else if one == known && two == accepted(1) {
        Some(2)
    } else {
        None
    }
}

#[test]
fn one_of_two_threads_adds_a_sink(rt: HostRuntime) -> Result<(), Fail> {
    let (design, pass) = begin(rt.alloc(), &[sink(1, 3, 4, 5)])?;
    let (first, second) = design.split(pass);
    let (one, two, pass) = add_beside(&rt, &design, first, second);
    let (history, sinks) = closed(&rt, design, pass);
    let caller = only_caller(&history);
    assert!(rt; caller.is_some());
    same(&rt, "who was accepted", accepted_caller(one, two), caller);
    same(&rt, "sinks", sinks.len(), 2);
    Ok(())
}

/// The instance with the sinks of a snapshot.
fn drawn<R: Wait>(
    rt: &R,
    design: &Turn<Design>,
    pass: &mut Pass<Design>,
    alloc: Global,
    instance: &Instance,
) -> Result<Instance, Fail>
    requires own { IsPassOf design.now pass.old }
    requires base { instance_of design.now ≡ instance.now }
{
    let (_, sinks) = snapshot(design, rt, pass)?;
    Ok(instance.with_sinks(alloc, sinks)?)
}

/// How many sinks an instance has, the first of them, the width of its die and its insertion threshold.
fn told(instance: &Instance) -> (usize, Option<Numbers>, i64, u64) {
    let sinks = instance.sinks();
    let first = sinks.first().map(numbers);
    let threshold = instance.params().insert_at;
    (sinks.len(), first, instance.die().x2, threshold)
}

#[test]
fn a_snapshot_makes_an_instance(rt: HostRuntime) -> Result<(), Fail> {
    let first = instance(rt.alloc(), &[sink(1, 3, 4, 5), sink(2, 6, 8, 9)], &[])?;
    let (design, mut pass) = Design::start(rt.alloc(), &first)?;
    replies(&rt, &design, &mut pass, remove(1), accepted(1));
    let second = drawn(&rt, &design, &mut pass, rt.alloc(), &first)?;
    let expected = (1, Some((2, 6, 8, 9)), 20, 100);
    same(&rt, "the second instance", told(&second), expected);
    Ok(())
}
