//! The order of sinks along both axes.

ghost use Rattle.std.specs.Prelude.{◌≡◌, length, IfOk};

use crate::pin::Pin;
use cts_num::NoMemory;
use std::alloc::Global;
use std::mem;

/// The order of sinks along both axes, kept from one list of sinks to the next. Nothing rests on it: an order of other
/// sinks makes a shape slower, and changes nothing in it.
#[derive(Drop)]
pub struct Order {
    /// The pins of the sinks, in the order of their list.
    pub(crate) pins: Vec<Pin>,
    /// The places of these pins in that list, in their order along x.
    pub(crate) by_x: Vec<u32>,
    /// The same along y.
    pub(crate) by_y: Vec<u32>,
}

impl Order {
    /// The order of no sinks.
    pub fn none(alloc: Global) -> Order {
        Order {
            pins: Vec::new(alloc),
            by_x: Vec::new(alloc),
            by_y: Vec::new(alloc),
        }
    }

    /// Takes the order of other pins, which were sorted along x and along y. Answers the room of the last ones: as many
    /// pins, whichever.
    pub(crate) fn keep(
        &mut self,
        pins: Vec<Pin>,
        by_x: &[Pin],
        by_y: &[Pin],
    ) -> Result<Vec<Pin>, NoMemory>
        ensures { IfOk result (λ room. length room.items ≡ length pins.items) }
    {
        put_places(&mut self.by_x, by_x)?;
        put_places(&mut self.by_y, by_y)?;
        let count = pins.len();
        let mut room = mem::replace(&mut self.pins, pins);
        room.resize(
            count,
            Pin {
                x: 0,
                y: 0,
                id: 0,
                sink: 0,
            },
        )?;
        Ok(room)
    }
}

/// Lists the places of these pins in place of others.
fn put_places(places: &mut Vec<u32>, pins: &[Pin]) -> Result<(), NoMemory> {
    places.clear();
    for pin in pins {
        places.push(pin.sink)?;
    }
    Ok(())
}
