//! The rule that a deal's table keeps, and what each step on it tells.
//!
//! Word 0 is the next number. There is no slot.

use crate::view::View;
use atomic_table::{Join, Play, Split, TableRule};

/// The word.
pub(crate) const NEXT: usize = 0;

/// Each number below the word is drawn once, and no other.
pub struct Rule;

impl TableRule<(), View, ()> for Rule {
    ghost use Rattle.cts_deal.specs.Dealing.{IsDealing};
    ghost use Rattle.cts_deal.specs.Views.{whole_view};

    ghost holds = { λ _ s. IsDealing s };

    ghost first = { λ _. whole_view };
}

/// A hand is split in two.
pub(crate) struct Halves;

impl Split<View> for Halves {
    ghost use Rattle.cts_deal.specs.Views.{first_half, second_half};

    ghost left = { first_half };

    ghost right = { second_half };
}

/// Two hands become one.
pub(crate) struct Whole;

impl Join<View> for Whole {
    ghost use Rattle.cts_deal.specs.Views.{joined, spent_view};

    ghost both = { joined };

    ghost spent = { spent_view };
}

/// A number is drawn.
pub(crate) struct Draw;

impl Play<(), View> for Draw {
    ghost use Rattle.cts_deal.specs.Steps.{Draws};

    ghost then = { Draws };
}
