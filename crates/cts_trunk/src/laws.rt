//! What repeaters on the trunk change, as laws: each is the contract of a function that does nothing.

ghost use Rattle.cts_trunk.specs.Laws.{
  DelaysShiftAlike,
  EndIsOne,
  FreeIsForBuffers,
  LaidHasNoEnd,
  SkewStays,
  StagesShiftAlike,
  TrunkIsOne,
};

/// The delays of all nodes are shifted by one amount, that of the root.
pub fn delays_shift_alike()
    ensures { DelaysShiftAlike }
{}

/// The skew with repeaters is that of the tree.
pub fn skew_stays()
    ensures { SkewStays }
{}

/// A stage that begins at a buffer of the tree stays, and every other is shifted by one amount, that of the root.
pub fn stages_shift_alike()
    ensures { StagesShiftAlike }
{}

/// A point is free exactly where a buffer may stand.
pub fn free_is_for_buffers()
    ensures { FreeIsForBuffers }
{}

/// A tree has one trunk with repeaters of one buffer at one step.
pub fn trunk_is_one()
    ensures { TrunkIsOne }
{}

/// Where a tree has such a trunk, `lay_trunk` ends with nothing but want of memory.
pub fn laid_has_no_end()
    ensures { LaidHasNoEnd }
{}

/// Of the ends beside want of memory one holds at most.
pub fn end_is_one()
    ensures { EndIsOne }
{}
