//! A turn and its passes.

ghost use Rattle.std.specs.Prelude.{◌≡◌, ◌≢◌, ℕ, ◌+◌, ◌-◌, ◌/◌, ◌%◌, ◌^◌, ◌<◌, ◌≤◌, ◌⊎◌, List, [], ◌∷◌, length, Some, None, IfOk, IfErr};
ghost use mathlib.Core.List.{IsPrefix};

use crate::object::Object;
use crate::rule::{
    Compare, Draw, FIRST_BELL, Halves, LENGTH, PassOn, Record, Recorded, Ring, Rule, SERVING,
    Serve, TICKETS, Whole,
};
use crate::view::View;
use atomic_table::{Refused, Table};
use cts_num::NoMemory;
use std::alloc::Global;
use std::hint::spin_loop;
use std::marker::Brand;
use std::snapshot::Snapshot;
use std::sync::Wait;

/// The parts of a turn's share.
const PARTS: u32 = 65_536;

/// How often a call that is near looks whether its ticket is served before it sleeps: for longer than three
/// callers that sleep take to wake one after another, so that callers who sleep find back to looking.
const LOOKS: u32 = 1_000;

/// How many tickets may be served before that of a call that is near.
const NEAR: u64 = 3;

/// How long a call steps aside where others are at the turn, in looks: they take some 10 to 20 µs, in which a caller that
/// does nothing else makes some fifty calls or more.
const ASIDE: u32 = 300;

/// How many bells there are. Up to so many calls that wait each sleep by a bell of their own.
const BELLS: usize = 64;

/// The words of the table.
const WORDS: usize = FIRST_BELL + BELLS;

type Seat<O> = atomic_table::Seat<Option<O>, View<<O as Object>::Entry, O>>;

/// A shared object, which threads call one at a time, in the order of their tickets.
#[derive(Drop)]
pub struct Turn<O: Object> {
    table: Table<Option<O>, View<O::Entry, O>, Snapshot<O>, Rule<O>, Global>,
    ghost sized: { (table.shared.table_id.words ≡ 74) × (table.shared.table_id.slots ≡ 1) },
}

/// The right to call a turn's object, and what its holder has seen and made of the object's list.
#[derive(Drop)]
pub struct Pass<O: Object> {
    seat: Seat<O>,
    share: u32,
}

/// A turn can't be closed while other passes are out. Turn and pass come back.
#[derive(Drop)]
pub struct StillOut<O: Object> {
    pub turn: Turn<O>,
    pub pass: Pass<O>,
    /// What is missing of 65,536.
    pub out: u32,
}

/// The word by which the caller with this ticket sleeps. It is odd where someone may be asleep, and
/// rises at each ring.
fn bell_of(ticket: u64) -> usize
    ensures bell { (10 ≤ result) × (result < 74) }
{
    FIRST_BELL + (ticket % BELLS as u64) as usize
}

impl<O: Object> Turn<O> {
    ghost use Rattle.cts_turn.specs.Views.{with_ticket, at_turn, after_call, after_turn};
    ghost use Rattle.cts_turn.specs.Steps.{HasActed, MayAct, MayPassOn, TakesTurn};
    ghost use Rattle.cts_turn.specs.Passes.{start_of, seen_by, made_by, share_of, IsPassOf, IsAnswer};

    /// Draws the ticket of a call, modulo 2^64.
    fn draw(&self, seat: &mut Seat<O>) -> u64
        requires own { seat.old.table_id ≡ self.now.table.shared.table_id }
        requires idle { (seat.old.me.0.waits ≡ 0) × (seat.old.me.0.in_turn ≡ 0) × (0 < seat.old.me.0.share) }
        ensures own { seat.new.table_id ≡ seat.old.table_id }
        ensures ticket { (ticket : ℕ) × (result ≡ ticket % 2 ^ 64) × (seat.new.me ≡ (with_ticket ticket seat.old.me.0, seat.old.me.1)) }
    {
        self.table.shared.fetch_add::<Draw>(seat, TICKETS, 1)
    }

    /// Sleeps until the bell of the ticket rings, or for no time where it is served already.
    fn sleep<R: Wait>(&self, rt: &R, seat: &mut Seat<O>, ticket: u64)
        requires own { seat.old.table_id ≡ self.now.table.shared.table_id }
        ensures own { seat.new.table_id ≡ seat.old.table_id }
        ensures same { seat.new.me ≡ seat.old.me }
    {
        let bell = bell_of(ticket);
        let odd = self.table.shared.fetch_or::<Ring>(seat, bell, 1) | 1;
        // Whoever serves the ticket after this look finds the bell odd, and rings it.
        if self.table.shared.peek(SERVING) != ticket {
            self.table.shared.park(rt, bell, (odd & 0xffff_ffff) as u32);
        }
    }

    /// Rings the bell of a ticket, where someone may be asleep by it.
    fn ring(&self, seat: &mut Seat<O>, ticket: u64)
        requires own { seat.old.table_id ≡ self.now.table.shared.table_id }
        ensures own { seat.new.table_id ≡ seat.old.table_id }
        ensures same { seat.new.me ≡ seat.old.me }
    {
        let bell = bell_of(ticket);
        if self.table.shared.peek(bell) % 2 == 1 {
            self.table.shared.fetch_add::<Ring>(seat, bell, 1);
            self.table.shared.wake_all(bell);
        }
    }

    /// Steps aside for a moment where others are at the turn. So whoever is served, and calls again at once, finds nobody
    /// there, and the object stays near one processor for many calls.
    fn step_aside(&self) {
        if self.table.shared.peek(TICKETS) != self.table.shared.peek(SERVING) {
            for _ in 0..ASIDE {
                spin_loop();
            }
        }
    }

    /// Waits until the ticket is served, and takes the slot.
    fn wait<R: Wait>(&self, rt: &R, seat: &mut Seat<O>, ticket: u64)
        requires own { seat.old.table_id ≡ self.now.table.shared.table_id }
        requires waits { (seat.old.me.0.waits ≡ 1) × (seat.old.me.0.in_turn ≡ 0) × (seat.old.me.1 ≡ []) }
        requires ticket { ticket ≡ seat.old.me.0.ticket % 2 ^ 64 }
        ensures own { seat.new.table_id ≡ seat.old.table_id }
        ensures turn { TakesTurn O.told O.base seat.old.me seat.new.me }
    {
        let mut looks = 0;
        for _ in rt.forever() {
            let serving = self.table.shared.load::<Serve<O>>(seat, SERVING);
            if serving == ticket {
                return;
            }
            if looks < LOOKS && ticket.wrapping_sub(serving) <= NEAR {
                looks += 1;
                spin_loop();
            } else {
                self.sleep(rt, seat, ticket);
            }
        }
        unreachable!()
    }

    /// Calls the object where it lies, in the slot that the seat holds. Its reply, and how long the list is that it
    /// tells now.
    #[inline(always)]
    fn act(&self, seat: &mut Seat<O>, call: O::Call) -> (O::Reply, u64)
        requires own { seat.old.table_id ≡ self.now.table.shared.table_id }
        requires holds { MayAct ⟦<O as Object>⟧ seat.old.me.1 call }
        ensures own { seat.new.table_id ≡ seat.old.table_id }
        ensures acted { HasActed ⟦<O as Object>⟧ seat.old.me seat.new.me call result.0 result.1 }
    {
        match seat.slot_mut(&self.table.shared, 0) {
            Some(object) => {
                let reply = object.act(call);
                (reply, object.len())
            }
            None => unreachable!(),
        }
    }

    /// Writes the length of the list that the object tells now.
    fn record<J: Recorded<O::Entry>>(&self, seat: &mut Seat<O>, count: u64)
        requires own { seat.old.table_id ≡ self.now.table.shared.table_id }
        requires count { count ≡ length J.list }
        requires turn { (0 < seat.old.me.0.in_turn) × IsPrefix seat.old.me.0.seen J.list }
        ensures own { seat.new.table_id ≡ seat.old.table_id }
        ensures list { seat.new.me ≡ (after_call J.list seat.old.me.0, seat.old.me.1) }
    {
        self.table.shared.swap::<Record<J>>(seat, LENGTH, count);
    }

    /// Gives the slot back, serves the next ticket, and wakes its caller and the one after it.
    fn pass_on(&self, seat: &mut Seat<O>, ticket: u64)
        requires own { seat.old.table_id ≡ self.now.table.shared.table_id }
        requires holds { MayPassOn O.told O.base seat.old.me }
        requires turn { (seat.old.me.0.waits ≡ 1) × (0 < seat.old.me.0.in_turn) × (ticket ≡ seat.old.me.0.ticket % 2 ^ 64) }
        ensures own { seat.new.table_id ≡ seat.old.table_id }
        ensures free { seat.new.me ≡ (after_turn seat.old.me.0, []) }
    {
        self.table
            .shared
            .store::<PassOn>(seat, SERVING, ticket.wrapping_add(1));
        self.ring(seat, ticket.wrapping_add(1));
        // Who comes after it wakes meanwhile, and looks.
        self.ring(seat, ticket.wrapping_add(2));
    }

    /// A turn on the object, and the pass with the whole share of it. Where memory runs out the
    /// object is dropped.
    pub fn start(alloc: Global, object: O) -> Result<(Turn<O>, Pass<O>), NoMemory>
        ensures turn { IfOk result (λ t. start_of t.0 ≡ object) }
        ensures own { IfOk result (λ t. IsPassOf ⟦<O as Object>⟧ t.0 t.1) }
        ensures pass { IfOk result (λ t. (seen_by t.1 ≡ O.told object) × (made_by t.1 ≡ 0) × (share_of t.1 ≡ 65536)) }
    {
        let first = Snapshot::of(&object);
        let mut words = [0; WORDS];
        words[LENGTH] = object.len();
        let mut slots = Vec::with_capacity(alloc, 1)?;
        slots.push(Some(object))?;
        match Table::new(alloc, &words, slots, &first) {
            Ok((table, seat)) => Ok((Turn { table }, Pass { seat, share: PARTS })),
            Err(Refused { slots: _ }) => Err(NoMemory),
        }
    }

    /// Splits a pass in two, so that one of them can go to another thread. Both have seen what the
    /// pass had seen. The first keeps what the pass made, and the greater half of its share.
    pub fn split(&self, pass: Pass<O>) -> (Pass<O>, Pass<O>)
        requires own { IsPassOf ⟦<O as Object>⟧ self.now pass }
        requires share { 2 ≤ share_of pass }
        ensures own { IsPassOf ⟦<O as Object>⟧ self.now result.0 × IsPassOf ⟦<O as Object>⟧ self.now result.1 }
        ensures seen { (seen_by result.0 ≡ seen_by pass) × (seen_by result.1 ≡ seen_by pass) }
        ensures made { (made_by result.0 ≡ made_by pass) × (made_by result.1 ≡ 0) }
        ensures share { (share_of result.0 ≡ share_of pass - share_of pass / 2) × (share_of result.1 ≡ share_of pass / 2) }
    {
        let Pass { mut seat, share } = pass;
        let half = share / 2;
        let other = self.table.shared.split_seat::<Halves>(&mut seat);
        let first = Pass {
            seat,
            share: share - half,
        };
        let second = Pass {
            seat: other,
            share: half,
        };
        (first, second)
    }

    /// Joins two passes. Of the lists that they had seen one begins the other, and the longer one
    /// stays. Shares, and the numbers of entries made, add up.
    pub fn join(&self, a: Pass<O>, b: Pass<O>) -> Pass<O>
        requires own { IsPassOf ⟦<O as Object>⟧ self.now a × IsPassOf ⟦<O as Object>⟧ self.now b }
        ensures own { IsPassOf ⟦<O as Object>⟧ self.now result }
        ensures seen { ((seen_by result ≡ seen_by a) × IsPrefix (seen_by b) (seen_by a)) ⊎ ((seen_by result ≡ seen_by b) × IsPrefix (seen_by a) (seen_by b)) }
        ensures made { made_by result ≡ made_by a + made_by b }
        ensures share { share_of result ≡ share_of a + share_of b }
    {
        let Pass { mut seat, share } = a;
        let Pass {
            seat: other,
            share: other_share,
        } = b;
        self.table.shared.join_seat::<Whole>(&mut seat, other);
        self.table.shared.load::<Compare>(&mut seat, TICKETS);
        Pass {
            seat,
            share: share + other_share,
        }
    }

    /// Calls the object, once it is this call's turn, and answers its reply.
    ///
    /// The reply is one that the object's base allows at a told list that begins with all that the
    /// pass had seen. Afterwards the pass has seen the list after it.
    #[inline(always)]
    pub fn call<R: Wait>(&self, rt: &R, pass: &mut Pass<O>, call: O::Call) -> O::Reply
        requires own { IsPassOf ⟦<O as Object>⟧ self.now pass.old }
        requires fits { O.fits (O.base (start_of self.now)) (seen_by pass.old) call }
        ensures own { IsPassOf ⟦<O as Object>⟧ self.now pass.new }
        ensures share { share_of pass.new ≡ share_of pass.old }
        ensures goes_on { IsPrefix (seen_by pass.old) (seen_by pass.new) }
        ensures answer { IsAnswer ⟦<O as Object>⟧ (O.base (start_of self.now)) (seen_by pass.old) (made_by pass.old) call result (seen_by pass.new) (made_by pass.new) }
    {
        self.step_aside();
        let seat = &mut pass.seat;
        let ticket = self.draw(seat);
        self.wait(rt, seat, ticket);
        let (reply, count) = self.act(seat, call);
        self.record::<Brand>(seat, count);
        self.pass_on(seat, ticket);
        reply
    }

    /// Ends a turn whose passes are all joined, and gives the object back. Otherwise turn and pass
    /// come back, with what is missing of the share.
    pub fn close(self, pass: Pass<O>) -> Result<O, StillOut<O>>
        requires own { IsPassOf ⟦<O as Object>⟧ self pass }
        ensures whole { IfOk result (λ _. share_of pass ≡ 65536) }
        ensures object { IfOk result (λ o. (O.told o ≡ seen_by pass) × (O.base o ≡ O.base (start_of self))) }
        ensures made { IfOk result (λ _. IsPrefix (O.told (start_of self)) (seen_by pass) × (length (seen_by pass) ≡ length (O.told (start_of self)) + made_by pass)) }
        ensures out { IfErr result (λ e. (0 < e.out) × (e.out + share_of pass ≡ 65536)) }
        ensures back { IfErr result (λ e. (e.turn ≡ self) × (e.pass ≡ pass)) }
    {
        if pass.share != PARTS {
            let out = PARTS - pass.share;
            return Err(StillOut {
                turn: self,
                pass,
                out,
            });
        }
        let Turn { table } = self;
        let Pass { seat, share: _ } = pass;
        let mut closed = table.close_with(seat);
        let slot = closed.take(0);
        closed.free();
        match slot {
            Some(object) => Ok(object),
            None => unreachable!(),
        }
    }
}

impl<O: Object> Pass<O> {
    ghost use Rattle.cts_turn.specs.Passes.{share_of};

    /// Its share of the turn, of 65,536 parts.
    pub fn share(&self) -> u32
        ensures { result ≡ share_of self.now }
    {
        self.share
    }
}
