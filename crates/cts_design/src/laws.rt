//! What threads may do with a design, as a law: the contract of a function that does nothing.

ghost use Rattle.cts_design.specs.Laws.{DesignIsShared};

/// Threads may share the turn of a design. A caller of `join` whose closures hold one calls this
/// before.
pub fn design_is_shared()
    ensures { DesignIsShared }
{}
