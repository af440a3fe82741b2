//! A turn on an object of the tests' own: a list of numbers below 256, of at most eight.

ghost use Rattle.std.specs.Prelude.{◌≡◌, ◌+◌, ◌<◌, ◌≤◌, [], length, IfOk, IfSome};
ghost use Rattle.cts_turn.specs.Passes.{seen_by, made_by, share_of, IsPassOf};

use cts_turn::{Object, Pass, StillOut, Turn};
use std::alloc::Global;
use std::process::Abort;
use std::sync::atomic::{AtomicU64, Ordering};
use std::sync::{Arc, Wait};
use std::test::Fail;
use std::thread::{Threads, join};

#[derive(Drop)]
struct Numbers {
    items: Vec<u8>,
    ghost short: { length items.items ≤ 8 },
}

#[derive(Drop)]
enum Ask {
    Append(u8),
    Read,
}

#[derive(Drop)]
enum Reply {
    At(u64),
    Full,
    NoMemory,
    Items(Vec<u8>),
}

impl Object for Numbers {
    ghost use Rattle.std.specs.Prelude.{◌≡◌, ◌<◌, ◌≤◌, ◌++◌, ◌∷◌, [], length, refl};
    ghost use Rattle.std.proofs.Common.{inl, inr};
    ghost use Rattle.cts_rows_shared.specs.declared.turns.Ask.TheVariants.{Append, Read};
    ghost use Rattle.cts_rows_shared.specs.declared.turns.Reply.TheVariants.{At, Full, NoMemory, Items};

    type Entry = u8;

    type Call = Ask;

    type Reply = Reply;

    const LIMIT: u64 = 8;

    ghost LIMIT = { 8 };

    ghost Base = { Unit {0} };

    ghost base = { λ _. tt };

    ghost told = { λ numbers. numbers.items.items };

    ghost is_sound = { λ _ list. Unit {0} };

    ghost fits = { λ _ list call. Unit {0} };

    ghost allows = { λ _ list. elim [ Append number ↦ elim [ At at ↦ (at ≡ length list) × (length list < 8) | Full ↦ 8 ≤ length list | NoMemory ↦ Unit {0} | Items items ↦ ⊥ ] | Read ↦ elim [ At at ↦ ⊥ | Full ↦ ⊥ | NoMemory ↦ Unit {0} | Items items ↦ items.items ≡ list ] ] };

    ghost after = { λ _ list. elim [ Append number ↦ elim [ At at ↦ list ++ number ∷ [] | Full ↦ list | NoMemory ↦ list | Items items ↦ list ] | Read ↦ λ reply. list ] };

    fn len(&self) -> u64 {
        self.items.len() as u64
    }

    fn act(&mut self, call: Ask) -> Reply {
        match call {
            Ask::Append(number) => {
                let at = self.items.len();
                if at == 8 {
                    return Reply::Full;
                }
                match self.items.push(number) {
                    Ok(()) => Reply::At(at as u64),
                    Err(_) => Reply::NoMemory,
                }
            }
            Ask::Read => match self.items.clone() {
                Ok(items) => Reply::Items(items),
                Err(_) => Reply::NoMemory,
            },
        }
    }

    ghost told_is_sound = { λ numbers. tt };

    ghost told_is_short = { λ numbers. numbers.short };

    ghost appends_at_most_one = { λ _ list. elim [ Append number ↦ elim [ At at ↦ λ allowed. inr (number, refl) | Full ↦ λ allowed. inl refl | NoMemory ↦ λ allowed. inl refl | Items items ↦ λ allowed. inl refl ] | Read ↦ λ reply allowed. inl refl ] };

    ghost still_fits = { λ _ list longer call fits sound goes_on. tt };
}

/// An object whose calls last until two threads have come, or until the limit of turns.
#[derive(Drop)]
struct Door {
    came: Arc<AtomicU64, Global>,
}

impl Object for Door {
    ghost use Rattle.std.specs.Prelude.{◌≡◌, ◌≤◌, [], length, refl};
    ghost use Rattle.std.proofs.Common.{inl, le_refl};

    type Entry = u8;

    type Call = ();

    type Reply = bool;

    const LIMIT: u64 = 0;

    ghost LIMIT = { 0 };

    ghost Base = { Unit {0} };

    ghost base = { λ _. tt };

    ghost told = { λ _. [] };

    ghost is_sound = { λ _ list. Unit {0} };

    ghost fits = { λ _ list call. Unit {0} };

    ghost allows = { λ _ list call reply. Unit {0} };

    ghost after = { λ _ list call reply. list };

    fn len(&self) -> u64 {
        0
    }

    fn act(&mut self, _call: ()) -> bool {
        for _ in 0..100_000_000 {
            if self.came.load(Ordering::SeqCst) == 2 {
                return true;
            }
        }
        false
    }

    ghost told_is_sound = { λ _. tt };

    ghost told_is_short = { λ _. le_refl 0 };

    ghost appends_at_most_one = { λ _ list call reply allowed. inl refl };

    ghost still_fits = { λ _ list longer call fits sound goes_on. tt };
}

fn begin(alloc: Global) -> Result<(Turn<Numbers>, Pass<Numbers>), Fail>
    ensures own { IfOk result (λ t. IsPassOf ⟦<Numbers as Object>⟧ t.0 t.1) }
    ensures made { IfOk result (λ t. made_by t.1 ≡ 0) }
    ensures share { IfOk result (λ t. share_of t.1 ≡ 65536) }
{
    let numbers = Numbers {
        items: Vec::new(alloc),
    };
    Ok(Turn::start(alloc, numbers)?)
}

/// The place of a number that is appended.
fn append<R: Wait + Abort>(
    rt: &R,
    turn: &Turn<Numbers>,
    pass: &mut Pass<Numbers>,
    number: u8,
) -> u64
    requires own { IsPassOf ⟦<Numbers as Object>⟧ turn.now pass.old }
    ensures own { IsPassOf ⟦<Numbers as Object>⟧ turn.now pass.new }
    ensures share { share_of pass.new ≡ share_of pass.old }
    ensures made { made_by pass.new ≡ made_by pass.old + 1 }
{
    match turn.call(rt, pass, Ask::Append(number)) {
        Reply::At(at) => at,
        _ => panic!(rt; "the list is full"),
    }
}

/// Whether the list takes no more.
fn is_full<R: Wait>(rt: &R, turn: &Turn<Numbers>, pass: &mut Pass<Numbers>) -> bool
    requires own { IsPassOf ⟦<Numbers as Object>⟧ turn.now pass.old }
    ensures own { IsPassOf ⟦<Numbers as Object>⟧ turn.now pass.new }
    ensures share { share_of pass.new ≡ share_of pass.old }
{
    matches!(turn.call(rt, pass, Ask::Append(9)), Reply::Full)
}

/// The list.
fn read<R: Wait>(rt: &R, turn: &Turn<Numbers>, pass: &mut Pass<Numbers>) -> Option<Vec<u8>>
    requires own { IsPassOf ⟦<Numbers as Object>⟧ turn.now pass.old }
    ensures own { IsPassOf ⟦<Numbers as Object>⟧ turn.now pass.new }
    ensures share { share_of pass.new ≡ share_of pass.old }
    ensures made { made_by pass.new ≡ made_by pass.old }
    ensures seen { IfSome result (λ list. list.items ≡ seen_by pass.new) }
{
    match turn.call(rt, pass, Ask::Read) {
        Reply::Items(items) => Some(items),
        _ => None,
    }
}

/// Appends the numbers, one after the other.
fn append_all<R: Wait + Abort>(
    rt: &R,
    turn: &Turn<Numbers>,
    mut pass: Pass<Numbers>,
    numbers: &[u8],
) -> Pass<Numbers>
    requires { IsPassOf ⟦<Numbers as Object>⟧ turn.now pass }
    ensures { IsPassOf ⟦<Numbers as Object>⟧ turn.now result }
{
    for number in numbers {
        append(rt, turn, &mut pass, *number);
    }
    pass
}

/// Two threads append, each its own numbers.
fn append_beside<R: Threads + Wait + Abort + Sync>(
    rt: &R,
    turn: &Turn<Numbers>,
    first: Pass<Numbers>,
    second: Pass<Numbers>,
) -> Pass<Numbers>
    requires first { IsPassOf ⟦<Numbers as Object>⟧ turn.now first }
    requires second { IsPassOf ⟦<Numbers as Object>⟧ turn.now second }
    ensures { IsPassOf ⟦<Numbers as Object>⟧ turn.now result }
{
    let (first, second) = join(
        rt,
        || append_all(rt, turn, first, &[1, 2, 3, 4]),
        || append_all(rt, turn, second, &[11, 12, 13, 14]),
    );
    turn.join(first, second)
}

/// The numbers of a turn whose passes are all joined.
fn closed<R: Abort>(rt: &R, turn: Turn<Numbers>, pass: Pass<Numbers>) -> Vec<u8>
    requires { IsPassOf ⟦<Numbers as Object>⟧ turn pass }
{
    match turn.close(pass) {
        Ok(numbers) => numbers.items,
        Err(_) => panic!(rt; "a pass is out"),
    }
}

/// The numbers from the least one up to the end, in their order.
fn those_from(alloc: Global, numbers: &[u8], least: u8, end: u8) -> Result<Vec<u8>, Fail> {
    let mut found = Vec::new(alloc);
    for number in numbers {
        if least <= *number && *number < end {
            found.push(*number)?;
        }
    }
    Ok(found)
}

/// Comes to the door, and calls.
fn come<R: Wait>(rt: &R, turn: &Turn<Door>, mut pass: Pass<Door>, came: &AtomicU64) -> bool
    requires { IsPassOf ⟦<Door as Object>⟧ turn.now pass }
{
    came.fetch_add(1, Ordering::SeqCst);
    turn.call(rt, &mut pass, ())
}

/// Two threads come.
fn come_beside<R: Threads + Wait + Sync>(
    rt: &R,
    turn: &Turn<Door>,
    first: Pass<Door>,
    second: Pass<Door>,
    came: &AtomicU64,
) -> (bool, bool)
    requires first { IsPassOf ⟦<Door as Object>⟧ turn.now first }
    requires second { IsPassOf ⟦<Door as Object>⟧ turn.now second }
{
    join(
        rt,
        || come(rt, turn, first, came),
        || come(rt, turn, second, came),
    )
}

/// The pass made so many entries, which the check shows before the test runs.
fn has_made(_pass: &Pass<Numbers>, _count: u64)
    requires { made_by _pass.now ≡ _count }
{}

#[test]
fn a_pass_that_is_out_keeps_the_turn_open(rt: HostRuntime) -> Result<(), Fail> {
    let (turn, pass) = begin(rt.alloc())?;
    let (first, second) = turn.split(pass);
    assert_eq!(rt; first.share(), 32_768);
    let Err(StillOut { turn, pass, out }) = turn.close(first) else {
        panic!(rt; "the second pass is out")
    };
    assert_eq!(rt; out, 32_768);
    let pass = turn.join(second, pass);
    assert_eq!(rt; pass.share(), 65_536);
    assert!(rt; turn.close(pass).is_ok());
    Ok(())
}

/// Appends 3 and 5.
fn append_two<R: Wait + Abort>(rt: &R, turn: &Turn<Numbers>, pass: &mut Pass<Numbers>)
    requires own { IsPassOf ⟦<Numbers as Object>⟧ turn.now pass.old }
    ensures own { IsPassOf ⟦<Numbers as Object>⟧ turn.now pass.new }
    ensures share { share_of pass.new ≡ share_of pass.old }
    ensures made { made_by pass.new ≡ made_by pass.old + 2 }
{
    assert_eq!(rt; append(rt, turn, pass, 3), 0);
    assert_eq!(rt; append(rt, turn, pass, 5), 1);
}

/// The list that a pass reads is 3 and 5.
fn reads_two<R: Wait + Abort>(rt: &R, turn: &Turn<Numbers>, pass: &mut Pass<Numbers>)
    requires own { IsPassOf ⟦<Numbers as Object>⟧ turn.now pass.old }
    ensures own { IsPassOf ⟦<Numbers as Object>⟧ turn.now pass.new }
    ensures share { share_of pass.new ≡ share_of pass.old }
    ensures made { made_by pass.new ≡ made_by pass.old }
{
    let list = read(rt, turn, pass);
    assert_eq!(rt; list.as_deref(), Some([3, 5].as_slice()));
}

#[test]
fn the_second_pass_reads_what_the_first_one_made(rt: HostRuntime) -> Result<(), Fail> {
    let (turn, mut pass) = begin(rt.alloc())?;
    append_two(&rt, &turn, &mut pass);
    let (first, mut second) = turn.split(pass);
    reads_two(&rt, &turn, &mut second);
    has_made(&second, 0);
    has_made(&first, 2);
    let pass = turn.join(first, second);
    let numbers = closed(&rt, turn, pass);
    assert_eq!(rt; numbers.as_slice(), [3, 5].as_slice());
    Ok(())
}

#[test]
fn each_thread_finds_its_numbers_in_its_order(rt: HostRuntime) -> Result<(), Fail> {
    let (turn, pass) = begin(rt.alloc())?;
    let (first, second) = turn.split(pass);
    let mut pass = append_beside(&rt, &turn, first, second);
    assert!(rt; is_full(&rt, &turn, &mut pass));
    let numbers = closed(&rt, turn, pass);
    assert_eq!(rt; numbers.len(), 8);
    are_found(&rt, rt.alloc(), &numbers, 0, 10, &[1, 2, 3, 4])?;
    are_found(&rt, rt.alloc(), &numbers, 10, 255, &[11, 12, 13, 14])?;
    Ok(())
}

/// The numbers from the least one up to the end are these, in this order.
fn are_found<R: Abort>(
    rt: &R,
    alloc: Global,
    numbers: &[u8],
    least: u8,
    end: u8,
    expected: &[u8],
) -> Result<(), Fail> {
    let found = those_from(alloc, numbers, least, end)?;
    assert_eq!(rt; found.as_slice(), expected);
    Ok(())
}

#[test]
fn the_calls_of_two_threads_meet(rt: HostRuntime) -> Result<(), Fail> {
    let came = Arc::new(rt.alloc(), AtomicU64::new(0))?;
    let door = Door {
        came: Arc::try_clone(&came)?,
    };
    let (turn, pass) = Turn::start(rt.alloc(), door)?;
    let (first, second) = turn.split(pass);
    assert_eq!(rt; come_beside(&rt, &turn, first, second, &came), (true, true));
    Ok(())
}
