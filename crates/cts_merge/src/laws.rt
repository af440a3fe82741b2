//! What the words of the contracts mean, as laws: each is the contract of a function that does nothing.

ghost use Rattle.cts_merge.specs.Laws.{
  MergeResidueIsBounded,
  BalanceResidueIsBounded,
  MergePairExists,
  BalancePairExists,
  MergePairIsOne,
  BalancePairIsOne,
  LeafIsOne,
  MergedIsOne,
  MergedIsNotBeyond,
  LeafExists,
  SidesMergeOrAreBeyond,
  BalancedIsNotBeyond,
  MergedRegionHasEnds,
  MergingKeepsSegments,
  MergingStaysInBox,
};

/// Twice the difference of the two delays of a least pair (ea, eb) over a gap is at most
/// `r·(c·(2·(ea + eb) + 1) + 2·Ca + 2·Cb)`.
pub fn merge_residue_is_bounded()
    ensures { MergeResidueIsBounded }
{}

/// Twice the difference of the two delays of a least pair over two routes is at most
/// `r·(c·(2·E + 1) + 2·K)`, with E the longer of its lengths and K the greater load.
pub fn balance_residue_is_bounded()
    ensures { BalanceResidueIsBounded }
{}

/// Two sides have a least pair over every gap.
pub fn merge_pair_exists()
    ensures { MergePairExists }
{}

/// Two sides have a least pair over routes of any two lengths.
pub fn balance_pair_exists()
    ensures { BalancePairExists }
{}

/// Two sides have one least pair over the gap of their regions.
pub fn merge_pair_is_one()
    ensures { MergePairIsOne }
{}

/// Two sides have one least pair over two routes.
pub fn balance_pair_is_one()
    ensures { BalancePairIsOne }
{}

/// A sink has one leaf.
pub fn leaf_is_one()
    ensures { LeafIsOne }
{}

/// Two sides have one pair.
pub fn merged_is_one()
    ensures { MergedIsOne }
{}

/// Two sides that have a pair are not beyond.
pub fn merged_is_not_beyond()
    ensures { MergedIsNotBeyond }
{}

/// Every sink has a leaf.
pub fn leaf_exists()
    ensures { LeafExists }
{}

/// Any two sides have a pair or are beyond.
pub fn sides_merge_or_are_beyond()
    ensures { SidesMergeOrAreBeyond }
{}

/// Two sides that are balanced over two routes are not beyond.
pub fn balanced_is_not_beyond()
    ensures { BalancedIsNotBeyond }
{}

/// The merging region of a pair is what the two regions share when each is widened by its length.
pub fn merged_region_has_ends()
    ensures { MergedRegionHasEnds }
{}

/// The merging region of two points, or of segments at 45 degrees, is a point or such a segment.
pub fn merging_keeps_segments()
    ensures { MergingKeepsSegments }
{}

/// The merging region lies in every box of x and y that holds both regions.
pub fn merging_stays_in_box()
    ensures { MergingStaysInBox }
{}
