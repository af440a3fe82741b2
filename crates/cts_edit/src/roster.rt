//! Sinks in their order, which are found by their ids.

ghost use Rattle.std.specs.Prelude.{◌≡◌, ◌<◌, ◌≤◌, false, ◌++◌, ◌∷◌, [], length, vec_len, slice_set, Some, IfOk, OnOk, OnErr};
ghost use Rattle.std.specs.Ordering.{nat_cmp};
ghost use Rattle.std.specs.BTreeMap.{get, IsUnchanged, Updates};
ghost use Rattle.cts_edit.specs.Edits.{moved_to, with_cap};
ghost use Rattle.cts_edit.specs.Roster.{is_present, present, vacancy};

use cts_num::NoMemory;
use cts_units::Sink;
use std::alloc::Global;
use std::collections::BTreeMap;
use std::marker::Model;

/// The id of a vacant slot, which no sink has.
const VACANT: u32 = u32::MAX;

/// What stands in a vacant slot.
const VACANCY: Sink = Sink {
    id: VACANT,
    x: 0,
    y: 0,
    cap: 0,
    offset: 0,
};

/// Sinks with distinct ids, in their order. Contracts see the list of them.
///
/// A sink that is taken out leaves a vacant slot, so that nothing moves. The slot of an id is found in
/// an ordered map: no choice of ids makes that slow.
#[derive(Drop)]
pub struct Roster {
    slots: Vec<Sink>,
    places: BTreeMap<u32, usize>,
    count: usize,
}

impl Model for Roster {
    ghost use Rattle.std.specs.Prelude.{List};
    ghost use Rattle.cts_units.specs.declared.params.Sink.{Sink};
    ghost use Rattle.cts_edit.specs.Roster.{present, IsRoster};

    ghost Value = { List Sink };

    ghost view = { λ roster. present roster.slots.items };

    ghost invariant = { λ roster. IsRoster roster.slots.items roster.places roster.count };
}

impl Roster {
    ghost use Rattle.std.specs.Prelude.{◌≡◌, ◌≤◌, false, ◌++◌, ◌∷◌, [], All, length, IfOk, OnOk, OnErr};
    ghost use Rattle.cts_units.specs.Ids.{HasDistinctIds};
    ghost use Rattle.cts_edit.specs.Edits.{IsId, has_id, without, changed, moved_to, with_cap};

    /// No sinks.
    pub fn new(alloc: Global) -> Roster
        ensures { result ≡ [] }
    {
        Roster {
            slots: Vec::new(alloc),
            places: BTreeMap::new(alloc),
            count: 0,
        }
    }

    /// These sinks, in this order.
    pub fn of(alloc: Global, sinks: &[Sink]) -> Result<Roster, NoMemory>
        requires ids { All (λ sink. IsId sink.id) sinks.now }
        requires distinct { HasDistinctIds (λ sink. sink.id) sinks.now }
        ensures { IfOk result (λ roster. roster ≡ sinks.now) }
    {
        let mut roster = Roster::new(alloc);
        for sink in sinks {
            roster.add(*sink)?;
        }
        Ok(roster)
    }

    /// How many sinks there are.
    pub fn len(&self) -> usize
        ensures { result ≡ length self.now }
    {
        self.count
    }

    /// Whether some sink has the id.
    pub fn has(&self, id: u32) -> bool
        ensures { result ≡ has_id id self.now }
    {
        self.places.contains_key(&id)
    }

    /// Puts a sink behind the others. Want of memory changes nothing.
    pub fn add(&mut self, sink: Sink) -> Result<(), NoMemory>
        requires id { IsId sink.id }
        requires new { has_id sink.id self.old ≡ false }
        ensures ok { OnOk result (self.new ≡ self.old ++ sink ∷ []) }
        ensures err { OnErr result (self.new ≡ self.old) }
    {
        append(&mut self.slots, &mut self.places, sink)?;
        self.count += 1;
        Ok(())
    }

    /// Takes the sink of this id out, if there is one.
    pub fn remove(&mut self, id: u32)
        ensures { self.new ≡ without id self.old }
    {
        if let Some(place) = self.places.remove(&id) {
            vacate(&mut self.slots, place);
            self.count -= 1;
        }
    }

    /// Gives the sink of this id another place, in nm.
    pub fn move_to(&mut self, id: u32, x: i64, y: i64)
        ensures { self.new ≡ changed id (moved_to x y) self.old }
    {
        if let Some(place) = place_of(&self.places, id) {
            let sink = self.slots[place];
            self.slots[place] = at_place(sink, x, y);
        }
    }

    /// Gives the sink of this id another capacitance, in zF.
    pub fn set_cap(&mut self, id: u32, cap: u64)
        ensures { self.new ≡ changed id (with_cap cap) self.old }
    {
        if let Some(place) = place_of(&self.places, id) {
            let sink = self.slots[place];
            self.slots[place] = of_cap(sink, cap);
        }
    }

    /// The sinks in order.
    pub fn to_vec(&self, alloc: Global) -> Result<Vec<Sink>, NoMemory>
        ensures { IfOk result (λ sinks. sinks.items ≡ self.now) }
    {
        copy_of(alloc, self.count, self.slots.as_slice())
    }

    /// The sinks in order. It takes no memory.
    pub fn into_vec(self) -> Vec<Sink>
        ensures { result.items ≡ self }
    {
        let Roster { slots, .. } = self;
        closed_up(slots)
    }
}

/// The sinks of the slots. There are about so many.
fn copy_of(alloc: Global, count: usize, slots: &[Sink]) -> Result<Vec<Sink>, NoMemory>
    ensures { IfOk result (λ sinks. sinks.items ≡ present slots.now) }
{
    let mut sinks = Vec::with_capacity(alloc, count)?;
    for slot in slots {
        if is_present(slot) {
            sinks.push(*slot)?;
        }
    }
    Ok(sinks)
}

/// The sinks of the slots, without the vacant ones between them.
fn closed_up(slots: Vec<Sink>) -> Vec<Sink>
    ensures { result.items ≡ present slots.items }
{
    let mut sinks = slots;
    sinks.retain(|slot| slot.id != VACANT);
    sinks
}

/// The slot of an id.
fn place_of(places: &BTreeMap<u32, usize>, id: u32) -> Option<usize>
    ensures { result ≡ get nat_cmp places.now id }
{
    places.get(&id).copied()
}

/// A sink at another place, in nm.
fn at_place(sink: Sink, x: i64, y: i64) -> Sink
    ensures { result ≡ moved_to x y sink }
{
    Sink { x, y, ..sink }
}

/// A sink with another capacitance, in zF.
fn of_cap(sink: Sink, cap: u64) -> Sink
    ensures { result ≡ with_cap cap sink }
{
    Sink { cap, ..sink }
}

/// Takes the sink out of a slot, and moves no other.
fn vacate(slots: &mut Vec<Sink>, place: usize)
    requires { place < vec_len slots.old }
    ensures { slots.new.items ≡ slice_set slots.old.items place vacancy }
{
    slots[place] = VACANCY;
}

/// Whether there is a sink in the slot.
fn is_present(slot: &Sink) -> bool
    ensures { result ≡ is_present slot.now }
{
    slot.id != VACANT
}

/// Puts a sink into a slot behind the others, and its slot into the map.
fn append(
    slots: &mut Vec<Sink>,
    places: &mut BTreeMap<u32, usize>,
    sink: Sink,
) -> Result<(), NoMemory>
    ensures slots { OnOk result (slots.new.items ≡ slots.old.items ++ sink ∷ []) }
    ensures places { OnOk result (Updates nat_cmp places.old places.new sink.id (Some (length slots.old.items))) }
    ensures same_slots { OnErr result (slots.new.items ≡ slots.old.items) }
    ensures same_places { OnErr result (IsUnchanged places.old places.new) }
{
    let place = slots.len();
    slots.push(sink)?;
    match places.insert(sink.id, place) {
        Ok(_) => Ok(()),
        Err(_) => {
            slots.pop();
            Err(NoMemory)
        }
    }
}
