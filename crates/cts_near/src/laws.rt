//! What the words of the contracts mean, as laws: each is the contract of a function that does nothing.

ghost use Rattle.cts_near.specs.Laws.{NearIsOne, NearShapesNameEachSink, NearShapesHavePlans, NearSynthesesAreOne, NearTreesAreSound};

/// Sinks with distinct ids come to one shape, or to one first step that is beyond, and never to both.
pub fn near_is_one()
    ensures { NearIsOne }
{}

/// The shape that sinks come to names each of them by one leaf.
pub fn near_shapes_name_each_sink()
    ensures { NearShapesNameEachSink }
{}

/// The shape that sinks come to has a plan: no node of it is beyond.
pub fn near_shapes_have_plans()
    ensures { NearShapesHavePlans }
{}

/// A valid instance comes to one step that is beyond, or to one synthesis, and never to both.
pub fn near_syntheses_are_one()
    ensures { NearSynthesesAreOne }
{}

/// The tree is sound, stands in the die, and is made of the instance's sinks and buffers.
pub fn near_trees_are_sound()
    ensures { NearTreesAreSound }
{}
