//! The lines of a report but those of its nodes.

ghost use Rattle.std.specs.Prelude.{◌≡◌, ℕ, ◌+◌, ◌^◌, ◌<◌, ◌≤◌, ◌-◌, length, IfSome};
ghost use Rattle.cts_report_reader.specs.Lines.{answer_at, count_at, figure_at};
ghost use Rattle.cts_report_reader.specs.Seen.{FindsLine};
ghost use Rattle.cts_report_reader.specs.Totals.{seen_arrivals, seen_closing, seen_later, seen_totals};
ghost use Rattle.cts_report_reader.specs.Whole.{arrivals_at, closing_at, later_at, totals_at};
ghost use Rattle.cts_report_reader.specs.Words.{Finds, same};

use crate::form::arrival_count;
use crate::words::{after_word, labelled};
use cts_instance::Version;

/// The greatest and the least arrival that a report prints, in 10^-16 ps.
#[derive(Clone, Copy, Debug, PartialEq, Eq)]
pub struct ReportArrivals {
    pub greatest: u128,
    pub least: u128,
}

/// The figures of the whole tree that a report prints.
#[derive(Clone, Copy, Debug, PartialEq, Eq)]
pub struct ReportTotals {
    /// The load of the source in zF.
    pub source_load: u128,
    /// The length of all wires in nm.
    pub wire_total: u128,
    /// The greatest delay in 10^-16 ps.
    pub greatest: u128,
    /// The least delay in 10^-16 ps.
    pub least: u128,
    /// The arrivals, where they are told.
    pub arrivals: Option<ReportArrivals>,
    /// The skew in 10^-16 ps.
    pub skew: u128,
    /// The bound on the skew in 10^-16 ps.
    pub bound: u128,
    /// Whether the limit on loads is met.
    pub load_met: bool,
    /// Whether the limit on slews is met.
    pub slew_met: bool,
}

/// The line of a figure.
#[tactic(auto, unfolding(crate::specs::Lines::figure_at))]
fn figure<'a>(bytes: &'a [u8], label: &[u8], places: u32) -> Option<(u128, &'a [u8])>
    requires { places ≤ 16 }
    ensures { Finds same result (figure_at label.now places bytes.now) }
{
    let (value, rest) = labelled(bytes, label, places)?;
    let ((), rest) = after_word(rest, b"\n")?;
    Some((value, rest))
}

/// The line that says whether a limit is met.
#[tactic(auto, unfolding(crate::specs::Lines::answer_at))]
fn answer<'a>(bytes: &'a [u8], label: &[u8]) -> Option<(bool, &'a [u8])>
    ensures { Finds same result (answer_at label.now bytes.now) }
{
    let ((), rest) = after_word(bytes, label)?;
    if let Some(((), rest)) = after_word(rest, b" yes\n") {
        return Some((true, rest));
    }
    let ((), rest) = after_word(rest, b" no\n")?;
    Some((false, rest))
}

/// The line that says how many nodes there are.
#[tactic(auto, unfolding(crate::specs::Lines::count_at))]
pub fn count(bytes: &[u8]) -> Option<(u32, &[u8])>
    ensures found { Finds same result (count_at bytes.now) }
    ensures few { IfSome result (λ found. found.0 ≤ 131071) }
{
    let (value, rest) = labelled(bytes, b"nodes ", 0)?;
    if value > 131_071 || value % 2 != 1 {
        return None;
    }
    let ((), rest) = after_word(rest, b"\n")?;
    Some((value as u32, rest))
}

/// The figures from the skew on.
#[derive(Clone, Copy)]
struct Closing {
    skew: u128,
    bound: u128,
    load_met: bool,
    slew_met: bool,
}

/// The figures from the least delay on.
#[derive(Clone, Copy)]
struct LaterTotals {
    least: u128,
    arrivals: Option<ReportArrivals>,
    closing: Closing,
}

/// The lines of the greatest and the least arrival, which only version 2 has, after `at` others.
#[tactic(auto, unfolding(crate::specs::Whole::arrivals_at))]
fn read_arrivals(
    version: Version,
    bytes: &[u8],
    at: u32,
) -> Result<(Option<ReportArrivals>, &[u8]), u32>
    requires { at ≤ 2 ^ 21 }
    ensures { FindsLine seen_arrivals result (arrivals_at version at bytes.now) }
{
    match version {
        Version::One => Ok((None, bytes)),
        Version::Two => {
            let Some((greatest, rest)) = figure(bytes, b"arrival greatest ", 16) else {
                return Err(at + 1);
            };
            let Some((least, rest)) = figure(rest, b"arrival least ", 16) else {
                return Err(at + 2);
            };
            Ok((Some(ReportArrivals { greatest, least }), rest))
        }
    }
}

/// The lines from the skew on, after `at` others.
#[tactic(auto, unfolding(crate::specs::Whole::closing_at))]
fn read_closing(bytes: &[u8], at: u32) -> Result<(Closing, &[u8]), u32>
    requires { at ≤ 2 ^ 21 }
    ensures { FindsLine seen_closing result (closing_at at bytes.now) }
{
    let Some((skew, rest)) = figure(bytes, b"skew ", 16) else {
        return Err(at + 1);
    };
    let Some((bound, rest)) = figure(rest, b"bound ", 16) else {
        return Err(at + 2);
    };
    let Some((load_met, rest)) = answer(rest, b"load met") else {
        return Err(at + 3);
    };
    let Some((slew_met, rest)) = answer(rest, b"slew met") else {
        return Err(at + 4);
    };
    let Some(((), rest)) = after_word(rest, b"end\n") else {
        return Err(at + 5);
    };
    let closing = Closing {
        skew,
        bound,
        load_met,
        slew_met,
    };
    Ok((closing, rest))
}

/// The lines from the least delay on, after `at` others.
#[tactic(auto, unfolding(crate::specs::Whole::later_at))]
fn later(version: Version, bytes: &[u8], at: u32) -> Result<(LaterTotals, &[u8]), u32>
    requires { at ≤ 2 ^ 21 - 3 }
    ensures { FindsLine seen_later result (later_at version at bytes.now) }
{
    let Some((least, rest)) = figure(bytes, b"delay least ", 16) else {
        return Err(at + 1);
    };
    let (arrivals, rest) = read_arrivals(version, rest, at + 1)?;
    let (closing, rest) = read_closing(rest, at + 1 + arrival_count(version))?;
    let later = LaterTotals {
        least,
        arrivals,
        closing,
    };
    Ok((later, rest))
}

/// The lines on the whole tree, after `at` others.
#[tactic(auto, unfolding(crate::specs::Whole::totals_at))]
pub fn totals(version: Version, bytes: &[u8], at: u32) -> Result<(ReportTotals, &[u8]), u32>
    requires { at ≤ 2 ^ 20 }
    ensures { FindsLine seen_totals result (totals_at version at bytes.now) }
{
    let Some((source_load, rest)) = figure(bytes, b"source load ", 6) else {
        return Err(at + 1);
    };
    let Some((wire_total, rest)) = figure(rest, b"wire total ", 3) else {
        return Err(at + 2);
    };
    let Some((greatest, rest)) = figure(rest, b"delay greatest ", 16) else {
        return Err(at + 3);
    };
    match later(version, rest, at + 3) {
        Ok((later, rest)) => {
            let totals = ReportTotals {
                source_load,
                wire_total,
                greatest,
                least: later.least,
                arrivals: later.arrivals,
                skew: later.closing.skew,
                bound: later.closing.bound,
                load_met: later.closing.load_met,
                slew_met: later.closing.slew_met,
            };
            Ok((totals, rest))
        }
        Err(line) => Err(line),
    }
}
