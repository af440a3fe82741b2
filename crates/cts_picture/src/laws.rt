//! What holds of every picture, as laws: each is the contract of a function that does nothing.

ghost use Rattle.cts_picture.specs.Laws.{EachNodeHasOneWire, InstancesLieInFrame, ReadingsCanBeDrawn, WiresLeadToNodes, WiresLieInFrame};

/// A report that was read can be drawn.
pub fn readings_can_be_drawn()
    ensures { ReadingsCanBeDrawn }
{}

/// In the picture of a tree each node has exactly one wire.
pub fn each_node_has_one_wire()
    ensures { EachNodeHasOneWire }
{}

/// Each wire of a picture leads to a node, by whose number it goes.
pub fn wires_lead_to_nodes()
    ensures { WiresLeadToNodes }
{}

/// Where a tree lies in the die, all points of its wires are drawn inside the picture's frame.
pub fn wires_lie_in_frame()
    ensures { WiresLieInFrame }
{}

/// The sinks, the blocks and the source of a valid instance are drawn inside the picture's frame.
pub fn instances_lie_in_frame()
    ensures { InstancesLieInFrame }
{}
