//! A deal and its hands.

ghost use Rattle.std.specs.Prelude.{◌≡◌, ◌≢◌, ℕ, ◌+◌, ◌-◌, ◌*◌, ◌/◌, ◌<◌, ◌≤◌, List, [], ◌∷◌, ◌++◌, length, AllPairs, IfOk};

use crate::rule::{Draw, Halves, NEXT, Rule, Whole};
use crate::view::View;
use atomic_table::{Seat, Table};
use cts_num::NoMemory;
use std::alloc::Global;

/// Numbers from 0 on, which threads draw, each number once.
#[derive(Drop)]
pub struct Deal {
    table: Table<(), View, (), Rule, Global>,
    ghost sized: { (table.shared.table_id.words ≡ 1) × (table.shared.table_id.slots ≡ 0) },
}

/// The right to draw numbers of a deal, 257 for each part of its share, and those that it drew.
#[derive(Drop)]
pub struct Hand {
    seat: Seat<(), View>,
}

impl Deal {
    ghost use Rattle.cts_deal.specs.Hands.{drawn_by, share_of, IsHandOf, IsDealt};

    /// A deal of which no number is drawn, and the hand with the whole share of it.
    pub fn start(alloc: Global) -> Result<(Deal, Hand), NoMemory>
        ensures own { IfOk result (λ t. IsHandOf t.0 t.1) }
        ensures none { IfOk result (λ t. drawn_by t.1 ≡ []) }
        ensures share { IfOk result (λ t. share_of t.1 ≡ 64) }
    {
        let (table, seat) = Table::of_words(alloc, &[0], &())?;
        Ok((Deal { table }, Hand { seat }))
    }

    /// Splits a hand that has not drawn yet, so that one of the two can go to another thread. The
    /// first has the greater half of the share.
    #[tactic(auto, using(crate::proofs::Keeps::splits))]
    pub fn split(&self, hand: Hand) -> (Hand, Hand)
        requires own { IsHandOf self.now hand }
        requires share { 2 ≤ share_of hand }
        requires none { drawn_by hand ≡ [] }
        ensures own { IsHandOf self.now result.0 × IsHandOf self.now result.1 }
        ensures none { (drawn_by result.0 ≡ []) × (drawn_by result.1 ≡ []) }
        ensures share { (share_of result.0 ≡ share_of hand - share_of hand / 2) × (share_of result.1 ≡ share_of hand / 2) }
    {
        let Hand { mut seat } = hand;
        let other = self.table.shared.split_seat::<Halves>(&mut seat);
        (Hand { seat }, Hand { seat: other })
    }

    /// Joins two hands. The numbers of the second stand behind those of the first, and shares add up.
    #[tactic(auto, using(crate::proofs::Keeps::joins))]
    pub fn join(&self, a: Hand, b: Hand) -> Hand
        requires own { IsHandOf self.now a × IsHandOf self.now b }
        ensures own { IsHandOf self.now result }
        ensures drawn { drawn_by result ≡ drawn_by a ++ drawn_by b }
        ensures share { share_of result ≡ share_of a + share_of b }
    {
        let Hand { mut seat } = a;
        let Hand { seat: other } = b;
        self.table.shared.join_seat::<Whole>(&mut seat, other);
        Hand { seat }
    }

    /// Draws the next number, in one step of the word.
    pub fn draw(&self, hand: &mut Hand) -> u32
        requires own { IsHandOf self.now hand.old }
        requires room { length (drawn_by hand.old) < 257 * share_of hand.old }
        ensures own { IsHandOf self.now hand.new }
        ensures share { share_of hand.new ≡ share_of hand.old }
        ensures drawn { drawn_by hand.new ≡ drawn_by hand.old ++ result ∷ [] }
        ensures distinct { AllPairs (λ a b. a ≢ b) (drawn_by hand.new) }
    {
        self.table.shared.fetch_add::<Draw>(&mut hand.seat, NEXT, 1) as u32
    }

    /// Ends a deal whose hands are all joined, and answers how many numbers were drawn. The hand has
    /// each number below that once, and no other.
    pub fn close(self, hand: Hand) -> u32
        requires own { IsHandOf self hand }
        requires whole { share_of hand ≡ 64 }
        ensures dealt { IsDealt (drawn_by hand) }
        ensures count { result ≡ length (drawn_by hand) }
    {
        let Deal { table } = self;
        let Hand { seat } = hand;
        let closed = table.close_with(seat);
        let count = closed.word(NEXT);
        closed.free();
        count as u32
    }
}
