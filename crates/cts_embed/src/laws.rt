//! What the definitions of this crate say, as laws: each is the contract of a function that does nothing.

ghost use Rattle.cts_embed.specs.Laws.{
  PlacedTreeIsOne,
  PlacedIsNotCut,
  GreatestCutIsOne,
  PlansArePlacedOrCut,
  PlacedTreesFit,
  PlacesLieInDie,
  PairPlacesAreFree,
  PartsAreWithinReach,
  BalanceIsOne,
  BalancedTreeIsOne,
  BalancedIsNotBeyond,
  LeastBeyondIsOne,
  PlacedTreesAreBalancedOrBeyond,
};

/// A shape has one placed tree at most.
pub fn placed_tree_is_one()
    ensures { PlacedTreeIsOne }
{}

/// A shape that has a placed tree has no node that is cut.
pub fn placed_is_not_cut()
    ensures { PlacedIsNotCut }
{}

/// One number at most is the greatest of a node that is cut.
pub fn greatest_cut_is_one()
    ensures { GreatestCutIsOne }
{}

/// Every plan of a valid instance has a placed tree or a node that is cut.
pub fn plans_are_placed_or_cut()
    ensures { PlansArePlacedOrCut }
{}

/// A placed tree has no more nodes than a tree over 65,536 sinks, and names sinks and buffers of the
/// instance.
pub fn placed_trees_fit()
    ensures { PlacedTreesFit }
{}

/// All places of a placed tree lie in the closed die.
pub fn places_lie_in_die()
    ensures { PlacesLieInDie }
{}

/// The place of a pair is free for its buffer, or for wires where it has none.
pub fn pair_places_are_free()
    ensures { PairPlacesAreFree }
{}

/// Where the final place of a pair lies in its own region, the first place of each of its children is at
/// most the child's length of the upward pass away.
pub fn parts_are_within_reach()
    ensures { PartsAreWithinReach }
{}

/// The balance makes one thing of a tree.
pub fn balance_is_one()
    ensures { BalanceIsOne }
{}

/// A placed tree has one balanced tree at most.
pub fn balanced_tree_is_one()
    ensures { BalancedTreeIsOne }
{}

/// A placed tree that has a balanced tree has no node that is beyond.
pub fn balanced_is_not_beyond()
    ensures { BalancedIsNotBeyond }
{}

/// One number at most is the least of a node that is beyond in the balance.
pub fn least_beyond_is_one()
    ensures { LeastBeyondIsOne }
{}

/// Every placed tree has a balanced tree or a node that is beyond in the balance.
pub fn placed_trees_are_balanced_or_beyond()
    ensures { PlacedTreesAreBalancedOrBeyond }
{}
