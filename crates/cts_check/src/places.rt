//! Sinks by their ids.

ghost use Rattle.std.specs.Prelude.{◌≡◌, ◌<◌, ◌≤◌, List, length, slice_index_or, IfSome, IfOk};
ghost use Rattle.cts_units.specs.Ids.{HasDistinctIds};
ghost use Rattle.cts_units.specs.declared.params.Sink.{Sink};
ghost use Rattle.cts_check.specs.declared.places.NamedSink.{NamedSink};
ghost use Rattle.cts_check.specs.Places.{AreNamed, FindsSinks};
ghost use Rattle.cts_check.specs.Told.{place_of_id};

use cts_num::NoMemory;
use cts_units::Sink;
use std::alloc::Global;

/// A sink by its id, with its place in the list of sinks.
#[derive(Clone, Copy)]
pub struct NamedSink {
    pub id: u32,
    pub place: u32,
}

/// The ids of sinks in rising order, each with the place of its sink in their list. Whoever writes an
/// instance picks the ids, and no choice makes a look-up in a sorted list slow.
pub fn ids_of(alloc: Global, sinks: &[Sink]) -> Result<Vec<NamedSink>, NoMemory>
    requires ids { HasDistinctIds (λ s. s.id) sinks.now }
    requires few { length sinks.now ≤ 65536 }
    ensures { IfOk result (λ ids. FindsSinks sinks.now ids.items) }
{
    let mut ids = named_sinks(alloc, sinks)?;
    ids.sort_unstable_by_key(|named| named.id);
    Ok(ids)
}

/// The sinks by their ids, in the order of their list.
fn named_sinks(alloc: Global, sinks: &[Sink]) -> Result<Vec<NamedSink>, NoMemory>
    requires { length sinks.now ≤ 65536 }
    ensures { IfOk result (λ ids. AreNamed sinks.now ids.items) }
{
    let mut ids = Vec::with_capacity(alloc, sinks.len())?;
    for (place, sink) in sinks.iter().enumerate() {
        ids.push(NamedSink {
            id: sink.id,
            place: place as u32,
        })?;
    }
    Ok(ids)
}

/// Where a sink with this id stands in the list, if the ids up to it follow each other. Mostly they do, and then
/// no search is needed.
fn in_sequence(ids: &[NamedSink], id: u32) -> Option<usize>
    ensures inside { IfSome result (λ at. at < length ids.now) }
    ensures found { IfSome result (λ at. (named : NamedSink) → (slice_index_or ids.now at named).id ≡ id) }
{
    let first = ids.first()?;
    let at = id.checked_sub(first.id)? as usize;
    if ids.get(at)?.id == id {
        Some(at)
    } else {
        None
    }
}

/// The place of the sink with this id; where no sink has it, the number of sinks.
pub fn place_of(ids: &[NamedSink], id: u32) -> u32
    requires { length ids.now ≤ 65536 }
    ensures { (sinks : List Sink) → FindsSinks sinks ids.now → result ≡ place_of_id sinks id }
{
    if let Some(at) = in_sequence(ids, id) {
        return ids[at].place;
    }
    match ids.binary_search_by_key(&id, |named| named.id) {
        Ok(at) => ids[at].place,
        Err(_) => ids.len() as u32,
    }
}
