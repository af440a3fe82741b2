//! Points and corners, in half nm.

ghost use Rattle.std.specs.Prelude.{◌≡◌, ℕ, ◌≤◌, pos, ◌≤ℤ◌, length, map, All, IfSome, IfOk};
ghost use Rattle.cts_report_reader.specs.Seen.{FindsIn, IsSeen, seen_half, seen_point};
ghost use Rattle.cts_report_reader.specs.Words.{Finds, coordinate_at, corners_at, place_at, point_at, points_at};

use crate::words::{after_word, bounded};
use cts_geom::Half;
use cts_num::NoMemory;
use cts_tree::Corners;
use std::alloc::Global;

// The greatest coordinate, in 10^-4 µm.
const GREATEST: u64 = 1_000_000_000;

/// A coordinate after a space.
#[tactic(auto, unfolding(crate::specs::Words::coordinate_at, crate::specs::Words::bounded_at))]
#[inline(always)]
fn coordinate(bytes: &[u8]) -> Option<(i64, &[u8])>
    ensures found { Finds seen_half result (coordinate_at bytes.now) }
    ensures low { IfSome result (λ found. pos 0 ≤ℤ found.0) }
    ensures high { IfSome result (λ found. found.0 ≤ℤ pos 200000000) }
{
    let (number, rest) = bounded(bytes, b" ", 4, GREATEST)?;
    if number % 5 == 0 {
        Some(((number / 5) as i64, rest))
    } else {
        None
    }
}

/// A point: x and y, each after a space.
#[tactic(auto, unfolding(crate::specs::Words::point_at))]
fn point(bytes: &[u8]) -> Option<(Half, &[u8])>
    ensures found { Finds seen_point result (point_at bytes.now) }
    ensures seen { IfSome result (λ found. IsSeen found.0) }
{
    let (x, rest) = coordinate(bytes)?;
    let (y, rest) = coordinate(rest)?;
    Some((Half { x, y }, rest))
}

/// The place of a node: a point whose coordinates are both whole or both half, in nm.
#[tactic(auto, unfolding(crate::specs::Words::place_at))]
pub fn place(bytes: &[u8]) -> Option<(Half, &[u8])>
    ensures found { Finds (λ p. (tt, seen_point p)) result (place_at bytes.now) }
    ensures seen { IfSome result (λ found. IsSeen found.0) }
{
    let ((), rest) = after_word(bytes, b" at")?;
    let (at, rest) = point(rest)?;
    if (at.x + at.y) % 2 == 0 {
        Some((at, rest))
    } else {
        None
    }
}

/// So many points.
fn points(alloc: Global, count: u64, bytes: &[u8]) -> Result<Option<(Vec<Half>, &[u8])>, NoMemory>
    ensures found { FindsIn (λ ps. map seen_point ps.items) result (points_at count bytes.now) }
    ensures seen { IfOk result (λ found. IfSome found (λ points. All IsSeen points.0.items)) }
{
    let mut items = Vec::new(alloc);
    let mut rest = bytes;
    for _index in 0..count {
        let Some((next, after)) = point(rest) else {
            return Ok(None);
        };
        items.push(next)?;
        rest = after;
    }
    Ok(Some((items, rest)))
}

/// The number of corners, and then the corners.
#[tactic(auto, unfolding(crate::specs::Words::corners_at))]
pub fn corners(alloc: Global, bytes: &[u8]) -> Result<Option<(Corners, &[u8])>, NoMemory>
    ensures found { FindsIn (λ cs. map seen_point cs) result (corners_at bytes.now) }
    ensures seen { IfOk result (λ found. IfSome found (λ corners. All IsSeen corners.0)) }
{
    let Some((count, rest)) = bounded(bytes, b" via ", 0, 65_536) else {
        return Ok(None);
    };
    if count == 1 {
        return Ok(one_corner(rest));
    }
    let Some((items, rest)) = points(alloc, count, rest)? else {
        return Ok(None);
    };
    Ok(Some((Corners::of(alloc, items)?, rest)))
}

// One corner, as most routes have, takes no memory.

fn one_corner(bytes: &[u8]) -> Option<(Corners, &[u8])>
    ensures found { Finds (λ cs. map seen_point cs) result (points_at 1 bytes.now) }
    ensures seen { IfSome result (λ corners. All IsSeen corners.0) }
{
    match point(bytes) {
        Some((corner, rest)) => Some((Corners::one(corner), rest)),
        None => None,
    }
}
