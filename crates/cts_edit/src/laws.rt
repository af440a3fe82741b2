//! What the words of the contracts mean, as laws: each is the contract of a function that does nothing.

ghost use Rattle.cts_edit.specs.Laws.{AcceptedMayBeMade, SoundIsValid};

/// An edit is accepted exactly where it may be made of the sinks after the history, and the history has
/// room for it.
pub fn accepted_may_be_made()
    ensures { AcceptedMayBeMade }
{}

/// The sinks after a sound history are valid with the other parts of the instance.
pub fn sound_is_valid()
    ensures { SoundIsValid }
{}
