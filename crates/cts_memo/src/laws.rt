//! What the words of the contracts mean, as laws: each is the contract of a function that does nothing.

ghost use Rattle.cts_memo.specs.Laws.{
  MemoIsShared,
  NothingIsMissing,
  NumberedIsFinished,
  NumbersStay,
  OneCapMissesSixteen,
  OneChangeMissesDepth,
  RootTellsAll,
};

/// A number in a list of entries is the number in every list that begins with it.
pub fn numbers_stay()
    ensures { NumbersStay }
{}

/// The entry of a tree's number is what the upward pass makes of the tree.
pub fn numbered_is_finished()
    ensures { NumberedIsFinished }
{}

/// Where every node of a shape has a number nothing is missing.
pub fn nothing_is_missing()
    ensures { NothingIsMissing }
{}

/// Where the root of a shape has a number every node has one.
pub fn root_tells_all()
    ensures { RootTellsAll }
{}

/// After one sink has changed at most as many pairs are missing as the shape is deep.
pub fn one_change_misses_depth()
    ensures { OneChangeMissesDepth }
{}

/// After one capacitance has changed the shape over the sinks is the same, and at most 16 of its pairs
/// are missing.
pub fn one_cap_misses_sixteen()
    ensures { OneCapMissesSixteen }
{}

/// Threads may share a memo. A caller of `join` whose closures hold one calls this before.
pub fn memo_is_shared()
    ensures { MemoIsShared }
{}
