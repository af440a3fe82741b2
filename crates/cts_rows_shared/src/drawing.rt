//! Trees of a session and their totals, whose merges nobody counts, and hands of two callers.

ghost use Rattle.std.specs.Prelude.{◌≡◌, ◌<◌};
ghost use Rattle.cts_session.specs.Desks.{AreDivisible, AreHandsOf};

use cts_merge::Steps;
use cts_session::{Desk, Drawn, Hands, Session, TreeEnd, VersionTotals};
use cts_work::Gate;
use std::alloc::Global;
use std::marker::Brand;
use std::sync::Wait;
use std::sync::ledger::{Blank, Ledger};

fn counted<L: Ledger, R: Wait, G: Gate>(
    rt: &R,
    alloc: Global,
    blank: Blank,
    session: &mut Session<'_>,
    gate: &G,
) -> Result<Drawn, TreeEnd>
    requires name { blank.name ≡ L.name }
    requires parts { blank.parts ≡ L.parts }
    requires some { 0 < L.parts }
    ensures { session.new.desk ≡ session.old.desk }
{
    let mut steps = Steps::<L>::open(blank);
    session.tree(rt, alloc, gate, &mut steps)
}

/// The tree of a session now.
pub(crate) fn draw<R: Wait, G: Gate>(
    rt: &R,
    alloc: Global,
    session: &mut Session<'_>,
    gate: &G,
) -> Result<Drawn, TreeEnd>
    ensures { session.new.desk ≡ session.old.desk }
{
    counted::<Brand, R, G>(rt, alloc, Blank::new(1), session, gate)
}

fn totals_counted<L: Ledger, R: Wait, G: Gate>(
    rt: &R,
    alloc: Global,
    blank: Blank,
    session: &mut Session<'_>,
    gate: &G,
) -> Result<VersionTotals, TreeEnd>
    requires name { blank.name ≡ L.name }
    requires parts { blank.parts ≡ L.parts }
    requires some { 0 < L.parts }
    ensures { session.new.desk ≡ session.old.desk }
{
    let mut steps = Steps::<L>::open(blank);
    session.totals(rt, alloc, gate, &mut steps)
}

/// The skew and the wire of the tree of a session now.
pub(crate) fn sum_up<R: Wait, G: Gate>(
    rt: &R,
    alloc: Global,
    session: &mut Session<'_>,
    gate: &G,
) -> Result<VersionTotals, TreeEnd>
    ensures { session.new.desk ≡ session.old.desk }
{
    totals_counted::<Brand, R, G>(rt, alloc, Blank::new(1), session, gate)
}

/// The hands of callers 1 and 2.
pub(crate) fn split(desk: &Desk, hands: Hands) -> (Hands, Hands)
    requires own { AreHandsOf desk.now hands }
    requires share { AreDivisible hands }
    ensures first { AreHandsOf desk.now result.0 }
    ensures second { AreHandsOf desk.now result.1 }
{
    let (one, two) = Session::of(desk, hands, 1).split(2);
    (one.hands(), two.hands())
}
