//! The rule on figures: each printed figure is that of its definition.

ghost use Rattle.std.specs.Prelude.{◌≡◌, ◌+◌, ◌*◌, ◌^◌, ◌≤◌, ◌↔◌, length, All, IfSome, IsTrue};
ghost use Rattle.cts_elmore.specs.Figures.{AreFiguresInRange, IsFigureInRange};
ghost use Rattle.cts_report.specs.Report.{printed_arrivals, printed_time, printed_totals};
ghost use Rattle.cts_report_reader.specs.Totals.{seen_arrivals, seen_totals};
ghost use Rattle.std.specs.Bool.{OnFalse, OnTrue};
ghost use Rattle.cts_check.specs.Claims.{Agrees, CanBeCompared, IsClaimOf, IsClaimedAt, claims_seen};
ghost use Rattle.cts_check.specs.Rules.{IsFirstFailing};

use crate::told::{Claim, claim_of};
use cts_elmore::{Figures, NodeFigure};
use cts_instance::Version;
use cts_report_reader::{ReportArrivals, ReportNode, ReportTotals};
use cts_units::slew_tenths;
use rayon::prelude::*;
use std::thread::Threads;

/// A doubled delay of 10^-27 s in 10^-16 ps.
fn printed_time(delay: u128) -> u128
    requires { delay ≤ 2 ^ 121 }
    ensures { result ≡ 5 * delay }
{
    5 * delay
}

/// Whether the time that a report prints, if it prints one, is that of this delay.
fn is_time_of(time: Option<u128>, delay: u128) -> bool
    requires { delay ≤ 2 ^ 121 }
    ensures { IsTrue result ↔ IfSome time (λ time. time ≡ printed_time delay) }
{
    match time {
        Some(time) => time == printed_time(delay),
        None => true,
    }
}

/// The arrival of a leaf: its delay and twice the offset that its sink wants.
fn arrival_of(figure: &NodeFigure) -> u128
    requires { IsFigureInRange figure.now }
    ensures { result ≡ figure.now.delay + 2 * figure.now.offset }
{
    figure.delay + 2 * u128::from(figure.offset)
}

/// Whether a node's figures are those that a report prints of it.
fn is_claim_of(claim: &Claim, figure: &NodeFigure) -> bool
    requires { IsFigureInRange figure.now }
    ensures { IsTrue result ↔ IsClaimOf claim.now figure.now }
{
    claim.load == u128::from(figure.below)
        && claim.delay == printed_time(figure.delay)
        && claim.slew == slew_tenths(figure.stage)
        && is_time_of(claim.residue, figure.residue)
        && is_time_of(claim.arrival, arrival_of(figure))
}

/// Whether the arrivals of a whole tree are those that a report of this version prints.
fn are_arrivals_of(version: Version, arrivals: Option<ReportArrivals>, figures: &Figures) -> bool
    requires { AreFiguresInRange figures.now }
    ensures { IsTrue result ↔ (seen_arrivals arrivals
        ≡ printed_arrivals version figures.now.arrival_greatest figures.now.arrival_least) }
{
    match (version, arrivals) {
        (Version::One, None) => true,
        (Version::Two, Some(arrivals)) => {
            arrivals.greatest == printed_time(figures.arrival_greatest)
                && arrivals.least == printed_time(figures.arrival_least)
        }
        (Version::One, Some(_)) | (Version::Two, None) => false,
    }
}

/// Whether the figures of a whole tree are those that a report of this version prints of it.
fn are_totals_of(version: Version, totals: &ReportTotals, figures: &Figures) -> bool
    requires { AreFiguresInRange figures.now }
    ensures { IsTrue result ↔ (seen_totals totals.now ≡ printed_totals version figures.now) }
{
    totals.source_load == u128::from(figures.source_load)
        && totals.wire_total == u128::from(figures.wire_total)
        && totals.greatest == printed_time(figures.greatest)
        && totals.least == printed_time(figures.least)
        && are_arrivals_of(version, totals.arrivals, figures)
        && totals.skew == printed_time(figures.skew)
        && totals.bound == printed_time(figures.bound)
        && totals.load_met == figures.load_met
        && totals.slew_met == figures.slew_met
}

/// The number of the first node of which a wrong figure is printed. The nodes are looked at on several
/// threads where there are processors for them.
fn first_wrong_node(
    rt: &(impl Threads + Sync),
    nodes: &[ReportNode],
    figures: &[NodeFigure],
) -> Option<usize>
    requires few { length nodes.now ≤ 131071 }
    requires one_each { length figures.now ≡ length nodes.now }
    requires in_range { All IsFigureInRange figures.now }
    ensures { IsFirstFailing (IsClaimedAt (claims_seen nodes.now) figures.now) result }
{
    (0..nodes.len()).into_par_iter().position_first(
        rt,
        |k: usize| -> bool
            requires { CanBeCompared (claims_seen nodes.now) figures.now k }
            ensures { OnTrue result (¬ IsClaimedAt (claims_seen nodes.entry.now) figures.entry.now k)
                × OnFalse result (IsClaimedAt (claims_seen nodes.entry.now) figures.entry.now k) }
        { !is_claim_of(&claim_of(&nodes[k]), &figures[k]) },
    )
}

/// The first number at which a printed figure is wrong: that of a node, or the number of nodes where
/// a figure of the whole tree is.
pub fn first_wrong_figure(
    rt: &(impl Threads + Sync),
    version: Version,
    nodes: &[ReportNode],
    totals: &ReportTotals,
    figures: &Figures,
) -> Option<u32>
    requires few { length nodes.now ≤ 131071 }
    requires one_each { length figures.now.nodes ≡ length nodes.now }
    requires in_range { AreFiguresInRange figures.now }
    ensures { IsFirstFailing (Agrees version (claims_seen nodes.now) totals.now figures.now) result }
{
    match first_wrong_node(rt, nodes, figures.nodes.items()) {
        Some(number) => Some(number as u32),
        None if are_totals_of(version, totals, figures) => None,
        None => Some(nodes.len() as u32),
    }
}
