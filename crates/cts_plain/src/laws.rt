//! What holds of every synthesis, as laws: each is the contract of a function that does nothing.

ghost use Rattle.cts_plain.specs.Laws.{
  BeyondHasOneReason,
  InstancesHaveOneSynthesis,
  NothingIsCutWithoutWalls,
  SynthesisExists,
  SynthesisIsOne,
  TreesAreSound,
  TreesHaveFewCorners,
};
ghost use Rattle.cts_plain.specs.Residues.{ResiduesAreSmall, SkewIsSmall};

/// Over one shape there is one synthesis at most.
pub fn synthesis_is_one()
    ensures { SynthesisIsOne }
{}

/// Over each shape of its sinks a valid instance has a synthesis.
pub fn synthesis_exists()
    ensures { SynthesisExists }
{}

/// A valid instance has exactly one synthesis: a tree, or the number of the one node that is beyond or
/// cut.
pub fn instances_have_one_synthesis()
    ensures { InstancesHaveOneSynthesis }
{}

/// Where a node is beyond in the plan, no node is beyond in the balance.
pub fn beyond_has_one_reason()
    ensures { BeyondHasOneReason }
{}

/// The tree of a shape is sound, stands in the die, and is made of the instance's sinks and buffers.
pub fn trees_are_sound()
    ensures { TreesAreSound }
{}

/// Each route of the tree of a shape has at most 65,536 corners.
pub fn trees_have_few_corners()
    ensures { TreesHaveFewCorners }
{}

/// Where no block stops wires no node is cut.
pub fn nothing_is_cut_without_walls()
    ensures { NothingIsCutWithoutWalls }
{}

/// In the tree of a shape twice the residue of each pair is at most what one unit more would add to a wire of the longer of its
/// two lengths into the greater of its two loads.
pub fn residues_are_small()
    ensures { ResiduesAreSmall }
{}

/// So twice the skew is at most so many times the height of the tree, for the longest wire and the greatest load in it.
pub fn skew_is_small()
    ensures { SkewIsSmall }
{}
