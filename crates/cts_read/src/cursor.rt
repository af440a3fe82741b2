//! A cursor over the lines that are not skipped.

ghost use Rattle.std.specs.Prelude.{◌≡◌, ◌+◌, ◌-◌, ◌^◌, ◌<◌, ◌≤◌, ◌↔◌, ◌⊎◌, [], ◌∷◌, length, drop, MatchOption, IsNone, IfNone, IfSome, IfOk, Ok};
ghost use Rattle.cts_io.specs.Lines.{lines_of};
ghost use Rattle.cts_read.specs.Place.{IsAfterLine};
ghost use Rattle.cts_read.specs.Grammar.{Gives, left_of, line_at};

use crate::stop::{Cause, ReadStop};
use crate::words::is_skipped;
use cts_io::Lines;
use std::marker::Model;

/// A cursor over the lines of a text.
#[derive(Drop)]
pub struct Cursor<'a> {
    text: &'a [u8],
    lines: Lines<'a>,
}

impl<'a> Model for Cursor<'a> {
    ghost use Rattle.cts_read.specs.Place.{Place, IsPlace};

    ghost Value = { Place };

    ghost view = { λ s. record { text = s.text.now; rest = s.lines.rest; line = s.lines.line } };

    ghost invariant = { λ s. IsPlace (record { text = s.text.now; rest = s.lines.rest; line = s.lines.line }) };
}

impl<'a> Cursor<'a> {
    /// A cursor at the front of a text.
    #[tactic(auto, using(crate::proofs::Places::place_at_start))]
    pub fn new(text: &'a [u8]) -> Cursor<'a>
        requires { length text.now ≤ 2 ^ 30 }
        ensures text { result.text ≡ text.now }
        ensures rest { result.rest ≡ text.now }
        ensures line { result.line ≡ 0 }
    {
        Cursor {
            text,
            lines: Lines::new(text, 0),
        }
    }

    /// The next line, with its number.
    fn next(&mut self) -> Option<(u32, &'a [u8])>
        ensures none { IsNone result ↔ (lines_of self.old.rest ≡ []) }
        ensures first { IfSome result (λ next. lines_of self.old.rest ≡ next.1.now ∷ lines_of self.new.rest) }
        ensures number { IfSome result (λ next. next.0 ≡ self.old.line + 1) }
        ensures after { IfSome result (λ next. self.new.line ≡ next.0) }
        ensures kept { IfNone result (self.new ≡ self.old) }
        ensures text { self.new.text ≡ self.old.text }
    {
        let next = self.lines.next()?;
        Some(next)
    }

    /// The number of the line given last.
    pub fn line(&self) -> u32
        ensures line { result ≡ self.now.line }
        ensures bound { result < 2 ^ 32 - 1 }
    {
        self.lines.line()
    }

    /// How many bytes of the text the lines given so far take, their ends included.
    pub fn used(&self) -> usize
        ensures within { result ≤ length self.now.text }
        ensures rest { drop result self.now.text ≡ self.now.rest }
        ensures lines { lines_of (drop result self.now.text) ≡ drop self.now.line (lines_of self.now.text) }
        ensures passed { self.now.line ≤ length (lines_of self.now.text) }
        ensures after { (self.now.line ≡ 0) ⊎ IsAfterLine self.now.text self.now.rest }
    {
        self.text.len() - self.lines.rest().len()
    }
}

/// The next line that is not skipped, with its number.
fn content_line<'a>(lines: &mut Cursor<'a>) -> Option<(u32, &'a [u8])>
    ensures next { MatchOption result
        ((left_of lines.old).lines ≡ [])
        (λ next. line_at (left_of lines.old) ≡ Ok ((next.0, next.1.now), left_of lines.new)) }
    ensures end { IfNone result ((left_of lines.old).missing ≡ lines.new.line + 1) }
    ensures number { IfSome result (λ next. lines.new.line ≡ next.0) }
    ensures some { IfSome result (λ next. 0 < next.0) }
    ensures text { lines.new.text ≡ lines.old.text }
{
    while let Some((number, line)) = lines.next() {
        if !is_skipped(line) {
            return Some((number, line));
        }
    }
    None
}

/// The next line that is not skipped, which has to be there.
#[tactic(auto, unfolding(crate::specs::Grammar::line_at))]
pub fn next_line<'a>(lines: &mut Cursor<'a>) -> Result<(u32, &'a [u8]), ReadStop>
    ensures read { Gives (λ next. (next.0, next.1.now)) result (left_of lines.new) (line_at (left_of lines.old)) }
    ensures number { IfOk result (λ next. lines.new.line ≡ next.0) }
    ensures some { IfOk result (λ next. 0 < next.0) }
    ensures text { lines.new.text ≡ lines.old.text }
{
    match content_line(lines) {
        Some(next) => Ok(next),
        None => Err(ReadStop::Refused {
            line: lines.line() + 1,
            cause: Cause::Missing,
        }),
    }
}
