//! The lines before the lists: version, die, source, wire and limits.

ghost use Rattle.std.specs.Prelude.{◌≡◌, None, IfOk};
ghost use Rattle.cts_instance.specs.FirstFault.{die_fault, limits_fault, source_fault, wire_fault};
ghost use Rattle.cts_read.specs.Grammar.{Finds};
ghost use Rattle.cts_read.specs.Header.{die_of, limits_of, source_of, version_in, version_of, wire_of};
ghost use Rattle.cts_read.specs.Lines.{words_of};

use crate::fields::{fields, number, refuse};
use crate::stop::Cause;
use crate::words::word_at;
use cts_geom::Die;
use cts_instance::Version;
use cts_instance::lines::{die_fault, limits_fault, source_fault, wire_fault};
use cts_units::Wire;

/// The source: its place in nm, and its resistance in µΩ.
#[derive(Clone, Copy)]
pub struct Source {
    pub x: i64,
    pub y: i64,
    pub r: u64,
}

/// The insertion threshold and the load limit in zF, and the slew limit in 10^-27 s.
#[derive(Clone, Copy)]
pub struct Limits {
    pub insert_at: u64,
    pub load: u64,
    pub slew: u64,
}

/// The version, whose number is compared as a word.
#[tactic(auto, unfolding(crate::specs::Header::version_in))]
fn version_in(words: &[u8]) -> Result<Version, Cause>
    ensures { result ≡ version_in (words_of words.now) }
{
    match word_at(words) {
        Some((word, _)) if word == b"1".as_slice() => Ok(Version::One),
        Some((word, _)) if word == b"2".as_slice() => Ok(Version::Two),
        _ => Err(Cause::Word),
    }
}

/// The first line, which says the version.
#[tactic(auto, unfolding(crate::specs::Header::version_of))]
pub fn version_of(line: &[u8]) -> Result<Version, Cause>
    ensures { result ≡ version_of line.now }
{
    version_in(fields(b"cts", 1, line)?)
}

/// The die: its lower left and its upper right corner, in nm.
#[tactic(auto, unfolding(crate::specs::Header::die_of))]
pub fn die_of(line: &[u8]) -> Result<Die, Cause>
    ensures read { result ≡ die_of line.now }
    ensures sound { IfOk result (λ die. die_fault die ≡ None) }
{
    let rest = fields(b"die", 4, line)?;
    let (x1, rest) = number(3, rest)?;
    let (y1, rest) = number(3, rest)?;
    let (x2, rest) = number(3, rest)?;
    let (y2, _) = number(3, rest)?;
    let die = Die {
        x1: x1 as i64,
        y1: y1 as i64,
        x2: x2 as i64,
        y2: y2 as i64,
    };
    refuse(die_fault(&die))?;
    Ok(die)
}

/// The source, which stands in the die.
#[tactic(auto, unfolding(crate::specs::Header::source_of))]
pub fn source_of(die: &Die, line: &[u8]) -> Result<Source, Cause>
    ensures read { result ≡ source_of die.now line.now }
    ensures sound { IfOk result (λ source. source_fault die.now source.x source.y source.r ≡ None) }
{
    let rest = fields(b"source", 3, line)?;
    let (x, rest) = number(3, rest)?;
    let (y, rest) = number(3, rest)?;
    let (r, _) = number(6, rest)?;
    let source = Source {
        x: x as i64,
        y: y as i64,
        r,
    };
    refuse(source_fault(die, source.x, source.y, source.r))?;
    Ok(source)
}

/// The wire: its resistance in µΩ and its capacitance in zF per nm.
#[tactic(auto, unfolding(crate::specs::Header::wire_of))]
pub fn wire_of(line: &[u8]) -> Result<Wire, Cause>
    ensures read { result ≡ wire_of line.now }
    ensures sound { IfOk result (λ wire. wire_fault wire ≡ None) }
{
    let rest = fields(b"wire", 2, line)?;
    let (r, rest) = number(3, rest)?;
    let (c, _) = number(3, rest)?;
    let wire = Wire { r, c };
    refuse(wire_fault(wire))?;
    Ok(wire)
}

/// The three limits, each below 10^18 of its unit.
#[tactic(auto, unfolding(crate::specs::Header::limits_of))]
pub fn limits_of(line: &[u8]) -> Result<Limits, Cause>
    ensures read { result ≡ limits_of line.now }
    ensures sound { IfOk result (λ limits. limits_fault limits.insert_at limits.load limits.slew ≡ None) }
{
    let rest = fields(b"limits", 3, line)?;
    let (insert_at, rest) = number(6, rest)?;
    let (load, rest) = number(6, rest)?;
    let (slew, _) = number(15, rest)?;
    refuse(limits_fault(insert_at, load, slew))?;
    Ok(Limits {
        insert_at,
        load,
        slew,
    })
}
