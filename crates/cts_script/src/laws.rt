//! What the words of the contracts mean, as laws: each is the contract of a function that does nothing.

ghost use Rattle.cts_script.specs.Laws.{InstancesComeBack, NothingIsLeft, ScriptsComeBack};

/// Reading gives every valid instance back from its canonical text, whatever comes after it.
pub fn instances_come_back()
    ensures { InstancesComeBack }
{}

/// Reading the canonical text of a valid instance leaves no line.
pub fn nothing_is_left()
    ensures { NothingIsLeft }
{}

/// Reading gives the steps of every script back from its canonical text, each with the number of its
/// line.
pub fn scripts_come_back()
    ensures { ScriptsComeBack }
{}
