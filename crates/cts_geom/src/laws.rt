//! What the words of the contracts mean, as laws: each is the contract of a function that does nothing.

ghost use Rattle.cts_geom.specs.PointLaws.{DistanceIsManhattan, SpotsAreApart};
ghost use Rattle.cts_geom.specs.RegionLaws.{RegionsAreSets, GapIsLeast, NearestIsOne, MeetStaysInBox, MeetIsSegment};

/// The greater of |du| and |dv| is the Manhattan distance |dx| + |dy| of the two points.
pub fn distance_is_manhattan()
    ensures { DistanceIsManhattan }
{}

/// No point has two spots.
pub fn spots_are_apart()
    ensures { SpotsAreApart }
{}

/// Two regions with the same spots are equal.
pub fn regions_are_sets()
    ensures { RegionsAreSets }
{}

/// The least distance of the points of two regions is the gap by their numbers.
pub fn gap_is_least()
    ensures { GapIsLeast }
{}

/// The nearest point of a region, least (u, v) on ties, is the one by its numbers.
pub fn nearest_is_one()
    ensures { NearestIsOne }
{}

/// Where the lengths are the gap together, or one of them is 0, the points of a meet
/// lie in every box in x and y in which all points of the two regions lie.
pub fn meet_stays_in_box()
    ensures { MeetStaysInBox }
{}

/// With such lengths two segments meet in a segment.
pub fn meet_is_segment()
    ensures { MeetIsSegment }
{}
