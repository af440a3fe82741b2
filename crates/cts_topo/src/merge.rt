//! The pins of a list along an axis, merged of those that keep their order and of the fresh ones.

ghost use Rattle.std.specs.Prelude.{◌≡◌, ◌≤◌, length, All, Contains, IfOk, IsTrue};
ghost use Rattle.cts_units.specs.Limits.{max_sinks};
ghost use Rattle.cts_topo.specs.Rising.{AreFresh, IsNext, Rises};

use crate::divide::{comes_before, sorted_along};
use crate::overlap::Overlap;
use crate::pin::Pin;
use cts_num::NoMemory;
use std::alloc::Global;

/// The pins that stayed, in their last order along the axis, with the fresh ones among them. It ends before a pin that
/// does not come behind the one before it: the last order is another one then.
pub(crate) fn merged(
    alloc: Global,
    pins: &[Pin],
    last: &[u32],
    overlap: &Overlap,
    wide: bool,
) -> Result<Vec<Pin>, NoMemory>
    requires few { length pins.now ≤ max_sinks }
    requires fresh { AreFresh pins.now overlap.now.fresh.items }
    ensures { IfOk result (λ some. Rises wide pins.now some.items) }
{
    // Each of the two has a loop of its own, which need not ask for the axis.
    if wide {
        merged_along(alloc, pins, last, overlap, true)
    } else {
        merged_along(alloc, pins, last, overlap, false)
    }
}

/// The same, once for each axis.
#[inline(always)]
fn merged_along(
    alloc: Global,
    pins: &[Pin],
    last: &[u32],
    overlap: &Overlap,
    wide: bool,
) -> Result<Vec<Pin>, NoMemory>
    requires few { length pins.now ≤ max_sinks }
    requires fresh { AreFresh pins.now overlap.now.fresh.items }
    ensures { IfOk result (λ some. Rises wide pins.now some.items) }
{
    let fresh = sorted_along(alloc, overlap.fresh.as_slice(), wide)?;
    let fresh = fresh.as_slice();
    let mut some = Vec::with_capacity(alloc, pins.len())?;
    let mut next = 0;
    for old in last {
        let Some(pin) = overlap.pin(pins, *old) else {
            continue;
        };
        while next < fresh.len() && comes_before(wide, &fresh[next], pin) {
            if !is_next(wide, some.as_slice(), &fresh[next]) {
                return Ok(some);
            }
            some.push(fresh[next])?;
            next += 1;
        }
        if !is_next(wide, some.as_slice(), pin) {
            return Ok(some);
        }
        some.push(*pin)?;
    }
    for pin in &fresh[next..] {
        if !is_next(wide, some.as_slice(), pin) {
            return Ok(some);
        }
        some.push(*pin)?;
    }
    Ok(some)
}

/// Whether a pin comes behind the last of these.
#[inline(always)]
fn is_next(wide: bool, some: &[Pin], pin: &Pin) -> bool
    ensures { IsTrue result → IsNext wide some.now pin.now }
{
    let count = some.len();
    count == 0 || comes_before(wide, &some[count - 1], pin)
}
