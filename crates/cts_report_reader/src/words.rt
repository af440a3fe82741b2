//! The words of a report's lines, each read from the front of the bytes that are left.

ghost use Rattle.std.specs.Prelude.{◌≡◌, ℕ, ◌^◌, ◌<◌, ◌≤◌, length, IfSome};
ghost use Rattle.std.specs.List.{prefix_len};
ghost use Rattle.cts_report_reader.specs.Reader.{is_number_byte};
ghost use Rattle.cts_report_reader.specs.Words.{Finds, bounded_at, labelled_at, number_at, same, word_at};

use crate::digits::{is_number_byte, short_number};
use cts_num::read_canonical;

/// What follows a word that has to stand at the front.
#[inline(always)]
pub fn after_word<'a>(bytes: &'a [u8], word: &[u8]) -> Option<((), &'a [u8])>
    ensures { Finds same result (word_at word.now bytes.now) }
{
    let rest = bytes.strip_prefix(word)?;
    Some(((), rest))
}

/// A number in canonical text with so many places, and what follows it.
#[inline(always)]
pub fn number(bytes: &[u8], places: u32) -> Option<(u128, &[u8])>
    requires { places ≤ 16 }
    ensures found { Finds same result (number_at places bytes.now) }
    ensures small { IfSome result (λ found. found.0 < 10 ^ 38) }
{
    if let Some(found) = short_number(bytes, places as usize) {
        return Some(found);
    }
    any_number(bytes, places)
}

// The same of any size: its digits are counted, read and compared with the text of the number read.
#[cold]
fn any_number(bytes: &[u8], places: u32) -> Option<(u128, &[u8])>
    requires { places ≤ 16 }
    ensures found { Finds same result (number_at places bytes.now) }
    ensures small { IfSome result (λ found. found.0 < 10 ^ 38) }
{
    let (text, rest) = bytes.split_at(number_size(bytes));
    let value = read_canonical(text, places)?;
    Some((value, rest))
}

// How many bytes stand at the front that a number is written with.
fn number_size(bytes: &[u8]) -> usize
    ensures longest { result ≡ prefix_len is_number_byte bytes.now }
    ensures inside { result ≤ length bytes.now }
{
    let mut size = 0;
    while size < bytes.len() && is_number_byte(bytes[size]) {
        size += 1;
    }
    size
}

/// A label, and a number in canonical text with so many places.
#[tactic(auto, unfolding(crate::specs::Words::labelled_at))]
#[inline(always)]
pub fn labelled<'a>(bytes: &'a [u8], label: &[u8], places: u32) -> Option<(u128, &'a [u8])>
    requires { places ≤ 16 }
    ensures found { Finds same result (labelled_at label.now places bytes.now) }
    ensures small { IfSome result (λ found. found.0 < 10 ^ 38) }
{
    let ((), rest) = after_word(bytes, label)?;
    number(rest, places)
}

/// A label, and a number in canonical text with so many places that is at most `bound`.
#[tactic(auto, unfolding(crate::specs::Words::bounded_at))]
#[inline(always)]
pub fn bounded<'a>(
    bytes: &'a [u8],
    label: &[u8],
    places: u32,
    bound: u64,
) -> Option<(u64, &'a [u8])>
    requires { places ≤ 16 }
    ensures found { Finds same result (bounded_at label.now places bound bytes.now) }
    ensures small { IfSome result (λ found. found.0 ≤ bound) }
{
    let (value, rest) = labelled(bytes, label, places)?;
    if value <= u128::from(bound) {
        Some((value as u64, rest))
    } else {
        None
    }
}
