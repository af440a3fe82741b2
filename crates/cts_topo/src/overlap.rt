//! What a list of pins has of the last one.

ghost use Rattle.std.specs.Prelude.{◌≡◌, [], Contains, IfOk, IfSome};
ghost use Rattle.cts_topo.specs.Rising.{AreFresh};

use crate::pin::Pin;
use cts_num::NoMemory;
use std::alloc::Global;

/// The place of a pin that is gone.
const NOWHERE: u32 = u32::MAX;

/// What a list of pins has of the last one. Where too few pins stayed, nothing.
#[derive(Drop)]
pub(crate) struct Overlap {
    /// The place of each of the last pins in the new list, and `NOWHERE` for one that is gone or has moved.
    places: Vec<u32>,
    /// The pins that came or moved.
    pub(crate) fresh: Vec<Pin>,
}

impl Overlap {
    /// Compares two lists by one walk. Of the last list some pins are gone, those that moved stand where they stood, and
    /// those that came stand at the end; in other lists hardly a pin is found again.
    pub(crate) fn between(alloc: Global, last: &[Pin], pins: &[Pin]) -> Result<Overlap, NoMemory>
        ensures { IfOk result (λ overlap. AreFresh pins.now overlap.fresh.items) }
    {
        let mut places = Vec::with_capacity(alloc, last.len())?;
        let mut fresh = Vec::new(alloc);
        let mut next = 0;
        for old in last {
            let mut place = NOWHERE;
            if next < pins.len() && pins[next].id == old.id {
                if stayed(old, &pins[next]) {
                    place = pins[next].sink;
                } else {
                    fresh.push(pins[next])?;
                }
                next += 1;
            }
            places.push(place)?;
        }
        if are_many(fresh.len(), pins.len() - next, pins.len()) {
            return Ok(Overlap::nothing(alloc));
        }
        for pin in &pins[next..] {
            fresh.push(*pin)?;
        }
        Ok(Overlap { places, fresh })
    }

    /// Nothing of the last list.
    fn nothing(alloc: Global) -> Overlap
        ensures { result.fresh.items ≡ [] }
    {
        Overlap {
            places: Vec::new(alloc),
            fresh: Vec::new(alloc),
        }
    }

    /// The pin that stood at this place of the last list, if it stayed.
    #[inline(always)]
    pub(crate) fn pin<'a>(&self, pins: &'a [Pin], old: u32) -> Option<&'a Pin>
        ensures { IfSome result (λ pin. Contains pins.now pin.now) }
    {
        let place = *self.places.get(old as usize)?;
        pins.get(place as usize)
    }
}

/// Whether a sink's pin is where it was.
fn stayed(old: &Pin, new: &Pin) -> bool {
    old.x == new.x && old.y == new.y
}

/// Whether more than a quarter of the pins moved or came, so that a sort takes no longer than a merge.
fn are_many(moved: usize, came: usize, pins: usize) -> bool {
    came > pins / 4 || moved > pins / 4 - came
}
