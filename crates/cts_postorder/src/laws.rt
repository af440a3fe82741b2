//! What holds of every tree beside its list of nodes in post-order.

ghost use Rattle.cts_postorder.specs.Stack.{OpenIsCompletable};
ghost use Rattle.cts_postorder.specs.Laws.{ChildrenComeBefore, FrontsKeepTrees, PostOrderIsTree, TipsAreOccurrences, TipsStandBelow, TreesAreSubtrees};

/// A list of nodes is in post-order exactly where it has the nodes of a tree that is
/// numbered from 0.
pub fn post_order_is_a_tree<N>()
    ensures { PostOrderIsTree N }
{}

/// Of such a tree, the trees at its nodes are its subtrees, and the last is the whole.
pub fn trees_are_subtrees<N>()
    ensures { TreesAreSubtrees N }
{}

/// The trees of a front of the list are the front of the list's trees.
pub fn fronts_keep_trees<N>()
    ensures { FrontsKeepTrees N }
{}

/// The right child of a pair is the node before it, and the left child comes before all
/// of the right part.
pub fn children_come_before<N>()
    ensures { ChildrenComeBefore N }
{}

/// The tips of a tree are its subtrees without parts, from left to right. There is one more of
/// them than there are pairs, and the pairs above each are at most the depth.
pub fn tips_are_occurrences<N>()
    ensures { TipsAreOccurrences N }
{}

/// Below further pairs a tree has the same tips, with these pairs above their own.
pub fn tips_stand_below<N>()
    ensures { TipsStandBelow N }
{}

/// A stack of trees is read to its end by some list of so many nodes exactly where their
/// number allows it.
pub fn open_is_completable()
    ensures { OpenIsCompletable }
{}
