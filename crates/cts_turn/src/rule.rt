//! The rule that a turn's table keeps, and what each step on it tells.
//!
//! Word 0 counts the tickets that were drawn, word 8 those that were served, both modulo 2^64, and
//! word 9 is the length of the list that the object tells. From word 10 on stand bells, of whose numbers
//! the rule says nothing, no more than of those between. The slot has the object; a call that is in turn
//! holds it.

use crate::object::Object;
use crate::view::View;
use atomic_table::{Join, Play, Split, TableRule};
use std::marker::{Brand, PhantomData};
use std::snapshot::Snapshot;

pub(crate) const TICKETS: usize = 0;

// Eight words on, so that whoever draws a ticket doesn't take the processor's line of memory away from the
// call that is in turn.
pub(crate) const SERVING: usize = 8;

pub(crate) const LENGTH: usize = 9;

pub(crate) const FIRST_BELL: usize = 10;

pub struct Rule<O> {
    object: PhantomData<O>,
}

impl<O: Object> TableRule<Option<O>, View<O::Entry, O>, Snapshot<O>> for Rule<O> {
    ghost use Rattle.cts_turn.specs.History.{IsKept};
    ghost use Rattle.cts_turn.specs.Views.{whole_view};

    ghost holds = { λ k s. IsKept O.told O.base k.value s };

    ghost first = { λ k. whole_view (O.told k.value) k.value };
}

/// A pass is split in two.
pub(crate) struct Halves;

impl<E, O> Split<View<E, O>> for Halves {
    ghost use Rattle.cts_turn.specs.Views.{first_half, second_half};

    ghost left = { first_half };

    ghost right = { second_half };
}

/// Two passes become one.
pub(crate) struct Whole;

impl<E, O> Join<View<E, O>> for Whole {
    ghost use Rattle.cts_turn.specs.Views.{joined, spent_view};

    ghost both = { joined };

    ghost spent = { spent_view };
}

/// A load that compares what two joined passes had seen.
pub(crate) struct Compare;

impl<E, O> Play<Option<O>, View<E, O>> for Compare {
    ghost use Rattle.cts_turn.specs.Steps.{Compares};

    ghost then = { Compares };
}

/// A ticket is drawn.
pub(crate) struct Draw;

impl<E, O> Play<Option<O>, View<E, O>> for Draw {
    ghost use Rattle.cts_turn.specs.Steps.{Draws};

    ghost then = { Draws };
}

/// A look at the ticket that is served. Where it is the pass's own, the pass takes the slot.
pub(crate) struct Serve<O> {
    object: PhantomData<O>,
}

impl<O: Object> Play<Option<O>, View<O::Entry, O>> for Serve<O> {
    ghost use Rattle.cts_turn.specs.Steps.{Waits};

    ghost then = { Waits O.told O.base };
}

/// The list that a step records. Each call picks it.
pub(crate) trait Recorded<E> {
    ghost use Rattle.std.specs.Prelude.{List};

    ghost list: { List E };
}

impl<E> Recorded<E> for Brand {
    ghost use Rattle.std.specs.Prelude.{[]};

    ghost list = { [] };
}

/// The length after a call is written.
pub(crate) struct Record<J> {
    list: PhantomData<J>,
}

impl<E, O, J: Recorded<E>> Play<Option<O>, View<E, O>> for Record<J> {
    ghost use Rattle.cts_turn.specs.Steps.{Records};

    ghost then = { Records J.list };
}

/// The next ticket is served, and the slot goes back.
pub(crate) struct PassOn;

impl<E, O> Play<Option<O>, View<E, O>> for PassOn {
    ghost use Rattle.cts_turn.specs.Steps.{PassesOn};

    ghost then = { PassesOn };
}

/// A step on a bell.
pub(crate) struct Ring;

impl<E, O> Play<Option<O>, View<E, O>> for Ring {
    ghost use Rattle.cts_turn.specs.Steps.{Rings};

    ghost then = { Rings };
}
