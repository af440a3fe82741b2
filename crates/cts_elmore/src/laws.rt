//! What holds of every tree and of its figures, as laws: each is the contract of a function that does nothing.

ghost use Rattle.cts_elmore.specs.Laws.{ArrivalsAreDelays, FiguresAreInRange, FiguresAreOne, PairsAddUp, PathsAddUp, SkewIsAtMostBound, SoundTreesHaveOneLeafASink, SoundTreesStandInDie};

/// The skew of a tree, the spread of its arrivals, is at most its bound.
pub fn skew_is_at_most_bound()
    ensures { SkewIsAtMostBound }
{}

/// A tree has one set of figures at most.
pub fn figures_are_one()
    ensures { FiguresAreOne }
{}

/// The load, the greatest arrival and the bound of a pair, from those of its two parts.
pub fn pairs_add_up()
    ensures { PairsAddUp }
{}

/// The delay and the stage at the root, and at a part of a pair from those at the pair.
pub fn paths_add_up()
    ensures { PathsAddUp }
{}

/// Where no sink wants an offset, the arrivals of the leaves are their delays.
pub fn arrivals_are_delays()
    ensures { ArrivalsAreDelays }
{}

/// A tree of at most 131,071 nodes that is within the limits of wires, loads and delays has one figure for each node, and its
/// delays and arrivals are in range.
pub fn figures_are_in_range()
    ensures { FiguresAreInRange }
{}

/// Each node of a sound tree of a valid instance, and each corner of its routes, lies in the die or on its edges.
pub fn sound_trees_stand_in_die()
    ensures { SoundTreesStandInDie }
{}

/// A sound tree of a valid instance has one leaf for each sink, so twice as many nodes as there are sinks, less one.
pub fn sound_trees_have_one_leaf_a_sink()
    ensures { SoundTreesHaveOneLeafASink }
{}
