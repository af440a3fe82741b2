//! The fields of a line: its first word, the count of its words, and its numbers.

ghost use Rattle.std.specs.Prelude.{◌≡◌, ◌^◌, ◌<◌, ◌≤◌, IfOk};
ghost use Rattle.cts_read.specs.Grammar.{Finds, fields_of, number_of, refuse};
ghost use Rattle.cts_read.specs.Lines.{words_of};

use crate::stop::Cause;
use crate::words::{count_words, is_printable, word_at};
use cts_instance::Fault;
use cts_num::read_decimal;

/// What comes after the first word of a line, which has to be `key` and to be followed by `count`
/// words.
#[tactic(auto, unfolding(crate::specs::Grammar::fields_of))]
pub fn fields<'a>(key: &[u8], count: usize, line: &'a [u8]) -> Result<&'a [u8], Cause>
    ensures { Finds (λ rest. words_of rest.now) result (fields_of key.now count line.now) }
{
    if !is_printable(line) {
        return Err(Cause::NotAscii);
    }
    match word_at(line) {
        None => Err(Cause::Word),
        Some((word, _)) if word != key => Err(Cause::Word),
        Some((_, rest)) if count_words(rest) != count => Err(Cause::Count),
        Some((_, rest)) => Ok(rest),
    }
}

/// The next word as a number of units of 10^-`places`, and what comes after it.
#[tactic(auto, unfolding(crate::specs::Grammar::number_of))]
pub fn number(places: u32, words: &[u8]) -> Result<(u64, &[u8]), Cause>
    requires { places ≤ 16 }
    ensures read { Finds (λ x. (x.0, words_of x.1.now)) result (number_of places (words_of words.now)) }
    ensures bound { IfOk result (λ x. x.0 < 10 ^ 18) }
{
    let Some((word, rest)) = word_at(words) else {
        return Err(Cause::Count);
    };
    match read_decimal(word, places) {
        Ok(value) => Ok((value, rest)),
        Err(fault) => Err(Cause::Number(fault)),
    }
}

/// A line is refused where it has a fault.
pub fn refuse(fault: Option<Fault>) -> Result<(), Cause>
    ensures { result ≡ refuse fault }
{
    match fault {
        None => Ok(()),
        Some(fault) => Err(Cause::Fault(fault)),
    }
}
