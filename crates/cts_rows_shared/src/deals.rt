//! One hand, several hands and two threads draw.

ghost use Rattle.std.specs.Prelude.{◌≡◌, ℕ, ◌+◌, ◌-◌, ◌*◌, ◌/◌, ◌<◌, ◌≤◌, List, [], ◌∷◌, ◌++◌, length};
ghost use Rattle.cts_deal.specs.Hands.{drawn_by, share_of, IsHandOf};

use crate::compare::same;
use cts_deal::{Deal, Hand};
use std::process::Abort;
use std::test::Fail;
use std::thread::{Threads, join};

/// A hand that has not drawn yet draws three numbers.
fn draw_three(deal: &Deal, mut hand: Hand) -> (Hand, [u32; 3])
    requires own { IsHandOf deal.now hand }
    requires none { drawn_by hand ≡ [] }
    ensures own { IsHandOf deal.now result.0 }
    ensures share { share_of result.0 ≡ share_of hand }
    ensures drawn { drawn_by result.0 ≡ result.1 }
{
    let first = deal.draw(&mut hand);
    let second = deal.draw(&mut hand);
    let third = deal.draw(&mut hand);
    (hand, [first, second, third])
}

/// Two threads draw three numbers each.
fn draw_beside<R: Threads + Sync>(
    rt: &R,
    deal: &Deal,
    first: Hand,
    second: Hand,
) -> (Hand, [u32; 3], [u32; 3])
    requires own { IsHandOf deal.now first × IsHandOf deal.now second }
    requires none { (drawn_by first ≡ []) × (drawn_by second ≡ []) }
    ensures own { IsHandOf deal.now result.0 }
    ensures share { share_of result.0 ≡ share_of first + share_of second }
    ensures drawn { drawn_by result.0 ≡ result.1 ++ result.2 }
{
    let (first, second) = join(rt, || draw_three(deal, first), || draw_three(deal, second));
    let (first, one) = first;
    let (second, two) = second;
    (deal.join(first, second), one, two)
}

/// A hand that has not drawn yet draws until it meets a number that is not below the count.
fn draw_past(deal: &Deal, mut hand: Hand, count: u32) -> Hand
    requires own { IsHandOf deal.now hand }
    requires none { drawn_by hand ≡ [] }
    requires few { count ≤ 256 }
    ensures own { IsHandOf deal.now result }
    ensures share { share_of result ≡ share_of hand }
{
    for _ in 0..257_u32 {
        if deal.draw(&mut hand) >= count {
            return hand;
        }
    }
    unreachable!()
}

/// Two threads draw past the count.
fn draw_past_beside<R: Threads + Sync>(
    rt: &R,
    deal: &Deal,
    first: Hand,
    second: Hand,
    count: u32,
) -> Hand
    requires own { IsHandOf deal.now first × IsHandOf deal.now second }
    requires none { (drawn_by first ≡ []) × (drawn_by second ≡ []) }
    requires few { count ≤ 256 }
    ensures own { IsHandOf deal.now result }
    ensures share { share_of result ≡ share_of first + share_of second }
{
    let (first, second) = join(
        rt,
        || draw_past(deal, first, count),
        || draw_past(deal, second, count),
    );
    deal.join(first, second)
}

/// The hand has so many parts, which the check shows before the test runs.
fn has_parts(_hand: &Hand, _count: u64)
    requires { share_of _hand.now ≡ _count }
{}

/// The next number of a hand is this one.
fn draws<R: Abort>(rt: &R, deal: &Deal, hand: &mut Hand, number: u32)
    requires own { IsHandOf deal.now hand.old }
    requires few { length (drawn_by hand.old) < 257 }
    ensures own { IsHandOf deal.now hand.new }
    ensures share { share_of hand.new ≡ share_of hand.old }
    ensures drawn { length (drawn_by hand.new) ≡ length (drawn_by hand.old) + 1 }
{
    assert_eq!(rt; deal.draw(hand), number);
}

/// Ends a deal of which so many numbers were drawn.
fn closes<R: Abort>(rt: &R, deal: Deal, hand: Hand, count: u32)
    requires own { IsHandOf deal hand }
    requires whole { share_of hand ≡ 64 }
{
    assert_eq!(rt; deal.close(hand), count);
}

#[test]
fn one_hand_draws_from_zero_on(rt: HostRuntime) -> Result<(), Fail> {
    let (deal, mut hand) = Deal::start(rt.alloc())?;
    draws(&rt, &deal, &mut hand, 0);
    draws(&rt, &deal, &mut hand, 1);
    draws(&rt, &deal, &mut hand, 2);
    has_parts(&hand, 64);
    closes(&rt, deal, hand, 3);
    Ok(())
}

#[test]
fn nothing_drawn_is_nothing_dealt(rt: HostRuntime) -> Result<(), Fail> {
    let (deal, hand) = Deal::start(rt.alloc())?;
    closes(&rt, deal, hand, 0);
    Ok(())
}

/// Three hands draw by turns.
fn draw_by_turns<R: Abort>(
    rt: &R,
    deal: &Deal,
    first: &mut Hand,
    second: &mut Hand,
    third: &mut Hand,
)
    requires own { IsHandOf deal.now first.old × IsHandOf deal.now second.old × IsHandOf deal.now third.old }
    requires none { (drawn_by first.old ≡ []) × (drawn_by second.old ≡ []) × (drawn_by third.old ≡ []) }
    ensures own { IsHandOf deal.now first.new × IsHandOf deal.now second.new × IsHandOf deal.now third.new }
    ensures first { (share_of first.new ≡ share_of first.old) × (length (drawn_by first.new) ≡ 2) }
    ensures second { (share_of second.new ≡ share_of second.old) × (length (drawn_by second.new) ≡ 2) }
    ensures third { (share_of third.new ≡ share_of third.old) × (length (drawn_by third.new) ≡ 1) }
{
    draws(rt, deal, first, 0);
    draws(rt, deal, second, 1);
    draws(rt, deal, third, 2);
    draws(rt, deal, first, 3);
    draws(rt, deal, second, 4);
}

/// Joins three hands that drew five numbers, which draw the next one together.
fn join_three<R: Abort>(rt: &R, deal: &Deal, first: Hand, second: Hand, third: Hand) -> Hand
    requires own { IsHandOf deal.now first × IsHandOf deal.now second × IsHandOf deal.now third }
    requires few { length (drawn_by first) + length (drawn_by second) + length (drawn_by third) < 257 }
    ensures own { IsHandOf deal.now result }
    ensures share { share_of result ≡ share_of first + share_of second + share_of third }
{
    let hand = deal.join(third, first);
    let mut hand = deal.join(second, hand);
    draws(rt, deal, &mut hand, 5);
    hand
}

#[test]
fn hands_draw_by_turns(rt: HostRuntime) -> Result<(), Fail> {
    let (deal, hand) = Deal::start(rt.alloc())?;
    let (first, mut second) = deal.split(hand);
    let (mut first, mut third) = deal.split(first);
    has_parts(&first, 16);
    has_parts(&second, 32);
    has_parts(&third, 16);
    draw_by_turns(&rt, &deal, &mut first, &mut second, &mut third);
    let hand = join_three(&rt, &deal, first, second, third);
    closes(&rt, deal, hand, 6);
    Ok(())
}

#[test]
fn a_hand_of_three_parts_is_split_in_two_and_one(rt: HostRuntime) -> Result<(), Fail> {
    let (deal, hand) = Deal::start(rt.alloc())?;
    let (hand, a) = deal.split(hand);
    let (hand, b) = deal.split(hand);
    let (hand, c) = deal.split(hand);
    let (hand, d) = deal.split(hand);
    let (e, f) = deal.split(hand);
    let (f, g) = deal.split(f);
    has_parts(&e, 2);
    has_parts(&g, 1);
    let three = deal.join(e, f);
    has_parts(&three, 3);
    let (two, one) = deal.split(three);
    has_parts(&two, 2);
    has_parts(&one, 1);
    let hand = deal.join(deal.join(deal.join(two, one), g), d);
    let hand = deal.join(deal.join(deal.join(a, b), c), hand);
    closes(&rt, deal, hand, 0);
    Ok(())
}

/// A bit for each of the numbers.
fn bits_of(numbers: [u32; 3]) -> u64 {
    let mut bits = 0;
    for number in numbers {
        bits |= 1u64 << (number % 64);
    }
    bits
}

#[test]
fn two_threads_draw_each_number_once(rt: HostRuntime) -> Result<(), Fail> {
    let (deal, hand) = Deal::start(rt.alloc())?;
    let (first, second) = deal.split(hand);
    let (hand, one, two) = draw_beside(&rt, &deal, first, second);
    closes(&rt, deal, hand, 6);
    same(&rt, "from 0 to 5", bits_of(one) | bits_of(two), 0b11_1111);
    Ok(())
}

#[test]
fn each_thread_meets_one_number_past_the_count(rt: HostRuntime) -> Result<(), Fail> {
    let (deal, hand) = Deal::start(rt.alloc())?;
    let (first, second) = deal.split(hand);
    let hand = draw_past_beside(&rt, &deal, first, second, 8);
    closes(&rt, deal, hand, 10);
    Ok(())
}
