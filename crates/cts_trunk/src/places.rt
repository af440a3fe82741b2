//! Where repeaters stand on the trunk.

ghost use Rattle.std.specs.Prelude.{◌≡◌, ◌+◌, ◌*◌, ◌-◌, ◌/◌, ◌^◌, ◌<◌, ◌≤◌, ℕ, length, IfErr, IfOk};
ghost use Rattle.cts_tree.specs.Path.{path_length};
ghost use Rattle.cts_trunk.specs.Road.{AreStands, EndsWalk, IsRoad};

use crate::look::{Look, see};
use crate::trunk::TrunkEnd;
use crate::way::{Cursor, advance};
use cts_block::FreeMap;
use cts_geom::{Half, Spot};
use std::alloc::Global;

/// The most repeaters on a trunk.
const MOST_REPEATERS: usize = 65_536;

/// Where a repeater stands: its place, and the length in nm of the wire from the source to it.
#[derive(Clone, Copy)]
pub struct Stand {
    pub place: Spot,
    pub length: u64,
}

/// How many multiples of a step lie before a distance in half nm, at most `count` of them.
fn multiples_before(until: u64, step: u64, count: u64) -> u64
    requires until { 0 < until }
    requires step { 0 < step }
    requires small { step < 2 ^ 31 }
    ensures count { result ≤ count }
    ensures before { 2 * (result * step) < until }
    ensures most { (m : ℕ) → m ≤ count → 2 * (m * step) < until → m ≤ result }
{
    ((until - 1) / (2 * step)).min(count)
}

/// The free places among the multiples of a step along a way, up to the one of the number `count`, in the order of their
/// lengths. Answers `Many` exactly where there are more than 65,536, and `NoMemory` where an allocation fails.
///
/// Over a stretch that lies inside a block it goes in one step.
pub fn stands_along(
    alloc: Global,
    map: &FreeMap,
    points: &[Half],
    step: u64,
    count: u64,
) -> Result<Vec<Stand>, TrunkEnd>
    requires road { 0 < count → IsRoad map.now.blocks map.now.die points.now }
    requires some { 0 < length points.now }
    requires step { 0 < step }
    requires small { step < 2 ^ 31 }
    requires count { 0 < count → 2 * (count * step) < path_length points.now }
    ensures stands { IfOk result (λ stands. AreStands map.now.blocks map.now.die points.now step count stands.items) }
    ensures end { IfErr result (EndsWalk map.now.blocks map.now.die points.now step count) }
{
    let mut stands = Vec::new(alloc);
    let mut cursor = Cursor {
        segment: 0,
        begin: 0,
    };
    let mut passed = 0;
    while passed < count {
        let length = (passed + 1) * step;
        cursor = advance(points, cursor, 2 * length);
        match see(map, points, cursor, 2 * length) {
            Look::Free { place } => {
                if stands.len() == MOST_REPEATERS {
                    return Err(TrunkEnd::Many);
                }
                stands.push(Stand { place, length })?;
                passed += 1;
            }
            Look::Blocked { until } => passed = multiples_before(until, step, count),
        }
    }
    Ok(stands)
}
