//! What the nearest free point is, as laws: each is the contract of a function that does nothing.
ghost use Rattle.cts_block.specs.NearestFree.{NearestFreeIsOne, HasNearestFree};

/// A place has no more than one nearest free point.
pub fn nearest_free_is_one()
    ensures { NearestFreeIsOne }
{}

/// Where all blocks lie in the die, every place has a nearest free point, since no block covers the
/// corners of the die.
pub fn every_place_has_a_nearest_free_point()
    ensures { HasNearestFree }
{}
