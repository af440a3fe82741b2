//! The line of a sink in its plainest form, and the numbers of such lines, read in one pass over their
//! bytes.

ghost use Rattle.std.specs.Prelude.{◌≡◌, ◌^◌, ◌<◌, ◌≤◌, ◌++◌, codes, Ok, IfSome};
ghost use Rattle.cts_read.specs.Items.{sink_numbers};
ghost use Rattle.cts_read.specs.Plain.{IsPlainEnd, IsPlainNumber, IsPlainOffset};

use cts_instance::Version;
use cts_num::{read_front, read_long_front};
use cts_units::Sink;

/// A sink, where the words of its line stand one space apart and no number has a fault. Other lines
/// are not looked into any further.
pub fn plain_sink(version: Version, line: &[u8]) -> Option<Sink>
    ensures { IfSome result (λ sink. sink_numbers version line.now ≡ Ok sink) }
{
    let rest = after_key(line)?;
    let (id, rest) = plain_number(rest, 0)?;
    let (x, rest) = plain_number(rest, 3)?;
    let (y, rest) = plain_number(rest, 3)?;
    let (cap, rest) = plain_number(rest, 6)?;
    let (offset, rest) = plain_offset(version, rest)?;
    if !rest.is_empty() {
        return None;
    }
    Some(Sink {
        id: id.min(u64::from(u32::MAX)) as u32,
        x: x as i64,
        y: y as i64,
        cap,
        offset,
    })
}

/// What follows the first word of a sink's line and a space.
fn after_key(line: &[u8]) -> Option<&[u8]>
    ensures { IfSome result (λ rest. line.now ≡ codes "sink " ++ rest.now) }
{
    match line {
        [b's', b'i', b'n', b'k', b' ', rest @ ..] => Some(rest),
        _ => None,
    }
}

/// The number of the first word in units of 10^-`places`, and what follows it and a space. None where
/// the text begins with another byte than a digit, the number has a fault, or it ends with neither the
/// text nor a space.
#[inline(always)]
pub fn plain_number(bytes: &[u8], places: u32) -> Option<(u64, &[u8])>
    requires { places ≤ 16 }
    ensures plain { IfSome result (λ found. IsPlainNumber places bytes.now found.0 found.1.now) }
    ensures bound { IfSome result (λ found. found.0 < 10 ^ 18) }
{
    let (Ok(value), size) = read_front(bytes, places) else {
        return None;
    };
    let rest = after_word(&bytes[size..])?;
    Some((value, rest))
}

/// As [`plain_number`], for a number that may have many digits.
#[inline(always)]
fn long_number(bytes: &[u8], places: u32) -> Option<(u64, &[u8])>
    requires { places ≤ 16 }
    ensures plain { IfSome result (λ found. IsPlainNumber places bytes.now found.0 found.1.now) }
    ensures bound { IfSome result (λ found. found.0 < 10 ^ 18) }
{
    let (Ok(value), size) = read_long_front(bytes, places) else {
        return None;
    };
    let rest = after_word(&bytes[size..])?;
    Some((value, rest))
}

/// The offset, a word of version 2 alone, and what follows it and a space.
#[inline(always)]
fn plain_offset(version: Version, bytes: &[u8]) -> Option<(u64, &[u8])>
    ensures { IfSome result (λ found. IsPlainOffset version bytes.now found.0 found.1.now) }
{
    match version {
        Version::One => Some((0, bytes)),
        Version::Two => long_number(bytes, 15),
    }
}

/// What follows a space, or the end.
#[inline(always)]
fn after_word(bytes: &[u8]) -> Option<&[u8]>
    ensures { IfSome result (λ rest. IsPlainEnd bytes.now rest.now) }
{
    match bytes {
        [] => Some(bytes),
        [b' ', rest @ ..] => Some(rest),
        _ => None,
    }
}
