//! What the words of the contracts mean, as laws: each is the contract of a function that does nothing.

ghost use Rattle.cts_up.specs.Laws.{
  FinishedIsOne,
  PlanIsOne,
  PlanIsNotBeyond,
  LeastBeyondIsOne,
  ShapesHavePlans,
  RegionsAreSegments,
  RegionsLieInBox,
  RegionsLieInDie,
  RegionsAreSmall,
  SidesCanBeMerged,
};

/// A node of a tree is made of one thing alone.
pub fn finished_is_one()
    ensures { FinishedIsOne }
{}

/// A shape over sinks has one plan at most.
pub fn plan_is_one()
    ensures { PlanIsOne }
{}

/// A shape that has a plan has no node that is beyond.
pub fn plan_is_not_beyond()
    ensures { PlanIsNotBeyond }
{}

/// One number at most is the least of a node that is beyond.
pub fn least_beyond_is_one()
    ensures { LeastBeyondIsOne }
{}

/// Every shape over sinks has a plan or a node that is beyond.
pub fn shapes_have_plans()
    ensures { ShapesHavePlans }
{}

/// Every region of a plan is a point or a segment at 45 degrees to the axes.
pub fn regions_are_segments()
    ensures { RegionsAreSegments }
{}

/// Every region of a plan lies in each box of x and y that holds the sinks: its points lie on shortest
/// paths between points of its two parts, or in one of them.
pub fn regions_lie_in_box()
    ensures { RegionsLieInBox }
{}

/// Every point of every region over sinks of a die lies in the closed die.
pub fn regions_lie_in_die()
    ensures { RegionsLieInDie }
{}

/// The coordinates u and v of every region over sinks of a die are below 2^32 nm in size.
pub fn regions_are_small()
    ensures { RegionsAreSmall }
{}

/// Every side of a plan is within the limits that `merge` asks for.
pub fn sides_can_be_merged()
    ensures { SidesCanBeMerged }
{}
