//! What the words of the contracts mean, as laws: each is the contract of a function that does nothing.

ghost use Rattle.cts_instance.specs.Laws.{ValidPartsHaveNoFault, PlacesAreOnChip, PlacesAreCoordinates, PlacesAreFree};

/// The lines of an instance have no fault exactly where its parts are valid.
pub fn valid_parts_have_no_fault()
    ensures { ValidPartsHaveNoFault }
{}

/// The source and the sinks of a valid instance have coordinates from 0 to 10^8 nm.
pub fn places_are_on_the_chip()
    ensures { PlacesAreOnChip }
{}

/// The places of a valid instance are small enough for every call of the geometry.
pub fn places_are_coordinates()
    ensures { PlacesAreCoordinates }
{}

/// Wires may run through the source and the sinks of a valid instance.
pub fn places_are_free()
    ensures { PlacesAreFree }
{}
