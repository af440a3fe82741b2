//! Sinks in a list, which are found by their ids.

ghost use Rattle.std.specs.Prelude.{◌≡◌, ◌<◌, ◌≤◌, ◌++◌, ◌∷◌, [], true, false, length, vec_len, slice_set, Some, IfOk, IfSome, IfErr, OnOk, OnErr};
ghost use Rattle.std.specs.Bool.{OnTrue};
ghost use Rattle.std.specs.List.{insert, remove};
ghost use Rattle.std.specs.Ordering.{nat_cmp};
ghost use Rattle.std.specs.BTreeMap.{get, is_at, IsUnchanged, Updates, UpdatesBy};
ghost use Rattle.cts_edit.specs.Edits.{has_id, moved_to, with_cap};
ghost use Rattle.cts_undo.specs.Inverses.{StandsAt};
ghost use Rattle.cts_undo.specs.SinkList.{IsIndexed};

use crate::inverse::{Inverse, inverse_at, place_of};
use cts_edit::Edit;
use cts_num::NoMemory;
use cts_units::Sink;
use std::alloc::Global;
use std::collections::BTreeMap;
use std::marker::Model;

/// Sinks in a list. Contracts see the list.
///
/// An ordered map has the ids that are there, each with the place where its sink was seen last: no choice
/// of ids makes that slow. The sink is there still, or as many places away as sinks were taken out and
/// put in before it since then.
#[derive(Drop)]
pub struct SinkList {
    sinks: Vec<Sink>,
    places: BTreeMap<u32, usize>,
}

impl Model for SinkList {
    ghost use Rattle.std.specs.Prelude.{List};
    ghost use Rattle.cts_units.specs.declared.params.Sink.{Sink};
    ghost use Rattle.cts_undo.specs.SinkList.{IsIndexed};

    ghost Value = { List Sink };

    ghost view = { λ list. list.sinks.items };

    ghost invariant = { λ list. IsIndexed list.sinks.items list.places };
}

/// Whether the sink of this id has this place.
fn is_at(sinks: &[Sink], place: usize, id: u32) -> bool
    ensures { OnTrue result (StandsAt sinks.now id place) }
{
    place < sinks.len() && sinks[place].id == id
}

/// The place of the sink of this id, looked for from a place outward; none where it isn't found.
fn near(sinks: &[Sink], guess: usize, id: u32) -> Option<usize>
    ensures { IfSome result (λ place. StandsAt sinks.now id place) }
{
    for distance in 0..sinks.len() {
        let before = guess.saturating_sub(distance);
        if is_at(sinks, before, id) {
            return Some(before);
        }
        let behind = guess.saturating_add(distance);
        if is_at(sinks, behind, id) {
            return Some(behind);
        }
    }
    None
}

/// The place of the sink of this id, looked for first near where it was seen last.
fn find(sinks: &[Sink], seen: Option<usize>, id: u32) -> usize
    requires { has_id id sinks.now ≡ true }
    ensures { StandsAt sinks.now id result }
{
    match near(sinks, seen.unwrap_or(0), id) {
        Some(place) => place,
        None => place_of(sinks, id),
    }
}

/// The ids of the sinks with their places.
fn places_of(alloc: Global, sinks: &[Sink]) -> Result<BTreeMap<u32, usize>, NoMemory>
    ensures { IfOk result (λ places. IsIndexed sinks.now places) }
{
    let mut places = BTreeMap::new(alloc);
    for (place, sink) in sinks.iter().enumerate() {
        places.insert(sink.id, place)?;
    }
    Ok(places)
}

/// Puts a sink into a list, and its id into the map. Want of memory changes nothing.
fn put_in(
    sinks: &mut Vec<Sink>,
    places: &mut BTreeMap<u32, usize>,
    place: usize,
    sink: Sink,
) -> Result<(), NoMemory>
    requires place { place ≤ vec_len sinks.old }
    ensures sinks { OnOk result (sinks.new.items ≡ insert sinks.old.items place sink) }
    ensures places { OnOk result (Updates nat_cmp places.old places.new sink.id (Some place)) }
    ensures same_sinks { OnErr result (sinks.new.items ≡ sinks.old.items) }
    ensures same_places { OnErr result (IsUnchanged places.old places.new) }
{
    sinks.insert(place, sink)?;
    match places.insert(sink.id, place) {
        Ok(_) => Ok(()),
        Err(_) => {
            sinks.remove(place);
            Err(NoMemory)
        }
    }
}

/// A sink at another place of the die, in nm.
fn at_place(sink: Sink, x: i64, y: i64) -> Sink
    ensures { result ≡ moved_to x y sink }
{
    Sink { x, y, ..sink }
}

/// A sink with another capacitance, in zF.
fn of_cap(sink: Sink, cap: u64) -> Sink
    ensures { result ≡ with_cap cap sink }
{
    Sink { cap, ..sink }
}

impl SinkList {
    ghost use Rattle.std.specs.Prelude.{◌≡◌, ◌≤◌, ◌++◌, ◌∷◌, [], true, length, IfOk, OnOk, OnErr};
    ghost use Rattle.std.specs.List.{insert};
    ghost use Rattle.cts_units.specs.Ids.{HasDistinctIds};
    ghost use Rattle.cts_edit.specs.Edits.{IsEdit, applied, has_id, without, changed, moved_to, with_cap};
    ghost use Rattle.cts_undo.specs.Inverses.{Fits, IsPlaceOf, Meets, StandsAt, taken_back};

    /// These sinks, in this order.
    pub fn of(alloc: Global, sinks: &[Sink]) -> Result<SinkList, NoMemory>
        ensures { IfOk result (λ list. list ≡ sinks.now) }
    {
        let places = places_of(alloc, sinks)?;
        let sinks = Vec::from_slice(alloc, sinks)?;
        Ok(SinkList { sinks, places })
    }

    /// The sinks in order.
    pub fn as_slice(&self) -> &[Sink]
        ensures { result.now ≡ self.now }
    {
        self.sinks.as_slice()
    }

    /// Whether some sink has the id.
    pub fn has(&self, id: u32) -> bool
        ensures { result ≡ has_id id self.now }
    {
        self.places.contains_key(&id)
    }

    /// The place of the sink of this id.
    fn place(&self, id: u32) -> usize
        requires { has_id id self.now ≡ true }
        ensures { StandsAt self.now id result }
    {
        find(self.sinks.as_slice(), self.places.get(&id).copied(), id)
    }

    /// Puts a sink in at a place. Want of memory changes nothing.
    fn insert(&mut self, place: usize, sink: Sink) -> Result<(), NoMemory>
        requires place { place ≤ length self.old }
        ensures ok { OnOk result (self.new ≡ insert self.old place sink) }
        ensures err { OnErr result (self.new ≡ self.old) }
    {
        put_in(&mut self.sinks, &mut self.places, place, sink)
    }

    /// Puts a sink behind the others. Want of memory changes nothing.
    fn add(&mut self, sink: Sink) -> Result<(), NoMemory>
        ensures ok { OnOk result (self.new ≡ self.old ++ sink ∷ []) }
        ensures err { OnErr result (self.new ≡ self.old) }
    {
        let place = self.as_slice().len();
        self.insert(place, sink)
    }

    /// Takes the sink of this id out.
    fn remove(&mut self, id: u32)
        requires there { has_id id self.old ≡ true }
        requires distinct { HasDistinctIds (λ sink. sink.id) self.old }
        ensures { self.new ≡ without id self.old }
    {
        let place = self.place(id);
        self.sinks.remove(place);
        self.places.remove(&id);
    }

    /// Gives the sink of this id another place, in nm.
    fn move_to(&mut self, id: u32, x: i64, y: i64)
        requires there { has_id id self.old ≡ true }
        requires distinct { HasDistinctIds (λ sink. sink.id) self.old }
        ensures { self.new ≡ changed id (moved_to x y) self.old }
    {
        let place = self.place(id);
        self.sinks[place] = at_place(self.sinks[place], x, y);
    }

    /// Gives the sink of this id another capacitance, in zF.
    fn set_cap(&mut self, id: u32, cap: u64)
        requires there { has_id id self.old ≡ true }
        requires distinct { HasDistinctIds (λ sink. sink.id) self.old }
        ensures { self.new ≡ changed id (with_cap cap) self.old }
    {
        let place = self.place(id);
        self.sinks[place] = of_cap(self.sinks[place], cap);
    }

    /// Puts a sink in the place of the one that has its id.
    fn restore(&mut self, sink: Sink)
        requires there { has_id sink.id self.old ≡ true }
        requires distinct { HasDistinctIds (λ sink. sink.id) self.old }
        ensures { self.new ≡ changed sink.id (λ _. sink) self.old }
    {
        let place = self.place(sink.id);
        self.sinks[place] = sink;
    }

    /// Makes an edit. Want of memory changes nothing.
    pub fn apply(&mut self, edit: Edit) -> Result<(), NoMemory>
        requires within { IsEdit edit }
        requires meets { Meets edit self.old }
        requires distinct { HasDistinctIds (λ sink. sink.id) self.old }
        ensures ok { OnOk result (self.new ≡ applied edit self.old) }
        ensures err { OnErr result (self.new ≡ self.old) }
    {
        match edit {
            Edit::Add { id, x, y, cap } => self.add(Sink {
                id,
                x,
                y,
                cap,
                offset: 0,
            }),
            Edit::Remove { id } => {
                self.remove(id);
                Ok(())
            }
            Edit::Move { id, x, y } => {
                self.move_to(id, x, y);
                Ok(())
            }
            Edit::SetCap { id, cap } => {
                self.set_cap(id, cap);
                Ok(())
            }
        }
    }

    /// The place of the sink that an edit names; any number, where the edit adds it.
    fn sought(&self, edit: Edit) -> usize
        requires { Meets edit self.now }
        ensures { IsPlaceOf edit self.now result }
    {
        match edit {
            Edit::Add { .. } => 0,
            Edit::Remove { id } => self.place(id),
            Edit::Move { id, .. } => self.place(id),
            Edit::SetCap { id, .. } => self.place(id),
        }
    }

    /// What takes an edit back.
    pub fn inverse_of(&self, edit: Edit) -> Inverse
        requires few { length self.now ≤ 65536 }
        requires distinct { HasDistinctIds (λ sink. sink.id) self.now }
        requires meets { Meets edit self.now }
        ensures back { taken_back result (applied edit self.now) ≡ self.now }
        ensures fits { Fits result (applied edit self.now) }
    {
        inverse_at(self.as_slice(), self.sought(edit), edit)
    }

    /// Takes an edit back by its inverse. Want of memory changes nothing.
    pub fn take_back(&mut self, inverse: Inverse) -> Result<(), NoMemory>
        requires fits { Fits inverse self.old }
        requires distinct { HasDistinctIds (λ sink. sink.id) self.old }
        ensures ok { OnOk result (self.new ≡ taken_back inverse self.old) }
        ensures err { OnErr result (self.new ≡ self.old) }
    {
        match inverse {
            Inverse::Remove { id } => {
                self.remove(id);
                Ok(())
            }
            Inverse::Insert { at, sink } => self.insert(at as usize, sink),
            Inverse::Restore { sink } => {
                self.restore(sink);
                Ok(())
            }
        }
    }
}
