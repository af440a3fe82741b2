//! The lines that are left of a text before which other lines came.

ghost use Rattle.std.specs.Prelude.{◌≡◌, ◌+◌, [], MatchOption, IfNone, Ok};
ghost use Rattle.cts_read.specs.Grammar.{Gives, left_in, line_at};
ghost use Rattle.cts_read.specs.Whole.{Rests, rest_of};

use crate::stop::{Cause, ReadStop};
use crate::words::{is_printable, is_skipped};
use cts_io::Lines;

/// The next line that is not skipped, with its number.
fn content_line<'a>(lines: &mut Lines<'a>) -> Option<(u32, &'a [u8])>
    ensures next { MatchOption result
        ((left_in lines.old).lines ≡ [])
        (λ next. line_at (left_in lines.old) ≡ Ok ((next.0, next.1.now), left_in lines.new)) }
    ensures end { IfNone result ((left_in lines.old).missing ≡ lines.new.line + 1) }
{
    while let Some((number, line)) = lines.next() {
        if !is_skipped(line) {
            return Some((number, line));
        }
    }
    None
}

/// The next line that is not skipped, which has to be there.
#[tactic(auto, unfolding(crate::specs::Grammar::line_at))]
pub fn line_left<'a>(lines: &mut Lines<'a>) -> Result<(u32, &'a [u8]), ReadStop>
    ensures { Gives (λ next. (next.0, next.1.now)) result (left_in lines.new) (line_at (left_in lines.old)) }
{
    match content_line(lines) {
        Some(next) => Ok(next),
        None => Err(ReadStop::Refused {
            line: lines.line() + 1,
            cause: Cause::Missing,
        }),
    }
}

/// Whether nothing but lines that are skipped is left. It takes no memory.
///
/// - `Ok`: exactly where only skipped lines are left.
/// - `Refused`: the first other line, with `NotAscii` where it holds a byte that it can't, else with
///   `Word`.
pub fn none_left(lines: &mut Lines<'_>) -> Result<(), ReadStop>
    ensures { Rests result (rest_of (left_in lines.old).lines) }
{
    let Some((line, words)) = content_line(lines) else {
        return Ok(());
    };
    let cause = if is_printable(words) {
        Cause::Word
    } else {
        Cause::NotAscii
    };
    Err(ReadStop::Refused { line, cause })
}
