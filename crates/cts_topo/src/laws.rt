//! What the words of the contracts mean, as laws: each is the contract of a function that does nothing.

ghost use Rattle.cts_topo.specs.Laws.{ShapesAreDivided, ShapesNameEachSink, ShapesHaveCounts, ShapesAreShallow};

/// The tree that a shape spells is divided by the rule at each pair, with half of the
/// sinks, rounded up, on the left.
pub fn shapes_are_divided()
    ensures { ShapesAreDivided }
{}

/// A shape over n sinks names each of them once and has 2n - 1 nodes.
pub fn shapes_name_each_sink()
    ensures { ShapesNameEachSink }
{}

/// Every shape over n sinks, whatever its form, has n leaves and 2n - 1 nodes.
pub fn shapes_have_counts()
    ensures { ShapesHaveCounts }
{}

/// The depth of a shape over n sinks is at most the logarithm of n to the base 2, rounded
/// up, and so never above 16.
pub fn shapes_are_shallow()
    ensures { ShapesAreShallow }
{}
