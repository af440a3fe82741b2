//! What takes an edit of a list of sinks back.

ghost use Rattle.std.specs.Prelude.{◌≡◌, ◌<◌, ◌≤◌, true, length, slice_get, Some};
ghost use Rattle.cts_units.specs.Ids.{HasDistinctIds};
ghost use Rattle.cts_edit.specs.Edits.{applied, has_id};
ghost use Rattle.cts_undo.specs.Inverses.{Fits, IsPlaceOf, Meets, StandsAt, taken_back};

use cts_edit::Edit;
use cts_units::Sink;

/// What takes an edit of a list of sinks back.
#[derive(Clone, Copy)]
pub enum Inverse {
    /// Takes the sink of this id out. Those behind it close up.
    Remove { id: u32 },
    /// Puts a sink in, so that it has this place in the list, counted from 0. Those behind it move on.
    Insert { at: u32, sink: Sink },
    /// Puts a sink in the place of the one that has its id.
    Restore { sink: Sink },
}

/// The place of the sink of this id.
pub fn place_of(sinks: &[Sink], id: u32) -> usize
    requires { has_id id sinks.now ≡ true }
    ensures { StandsAt sinks.now id result }
{
    for (place, sink) in sinks.iter().enumerate() {
        if sink.id == id {
            return place;
        }
    }
    unreachable!()
}

/// The sink at the place of this id.
fn sink_at(sinks: &[Sink], place: usize, id: u32) -> Sink
    requires { StandsAt sinks.now id place }
    ensures { slice_get sinks.now place ≡ Some result }
{
    // The contract alone reads the id.
    let _ = id;
    sinks[place]
}

/// The place of the sink that an edit names; any number, where the edit adds it.
fn sought(sinks: &[Sink], edit: Edit) -> usize
    requires { Meets edit sinks.now }
    ensures { IsPlaceOf edit sinks.now result }
{
    match edit {
        Edit::Add { .. } => 0,
        Edit::Remove { id } => place_of(sinks, id),
        Edit::Move { id, .. } => place_of(sinks, id),
        Edit::SetCap { id, .. } => place_of(sinks, id),
    }
}

/// What takes an edit back, where the sink that it names has this place.
pub fn inverse_at(sinks: &[Sink], place: usize, edit: Edit) -> Inverse
    requires few { length sinks.now ≤ 65536 }
    requires distinct { HasDistinctIds (λ sink. sink.id) sinks.now }
    requires place { IsPlaceOf edit sinks.now place }
    ensures back { taken_back result (applied edit sinks.now) ≡ sinks.now }
    ensures fits { Fits result (applied edit sinks.now) }
{
    match edit {
        Edit::Add { id, .. } => Inverse::Remove { id },
        Edit::Remove { id } => Inverse::Insert {
            at: place as u32,
            sink: sink_at(sinks, place, id),
        },
        Edit::Move { id, .. } => Inverse::Restore {
            sink: sink_at(sinks, place, id),
        },
        Edit::SetCap { id, .. } => Inverse::Restore {
            sink: sink_at(sinks, place, id),
        },
    }
}

/// What takes an edit of these sinks back: after the edit and its inverse the sinks are as before, their
/// order, capacitances and offsets included.
///
/// The edit adds no id that is there, and names one that is there otherwise. It takes no memory, and
/// looks at the sinks up to the one that is named.
pub fn inverse_of(sinks: &[Sink], edit: Edit) -> Inverse
    requires few { length sinks.now ≤ 65536 }
    requires distinct { HasDistinctIds (λ sink. sink.id) sinks.now }
    requires meets { Meets edit sinks.now }
    ensures back { taken_back result (applied edit sinks.now) ≡ sinks.now }
    ensures fits { Fits result (applied edit sinks.now) }
{
    inverse_at(sinks, sought(sinks, edit), edit)
}
