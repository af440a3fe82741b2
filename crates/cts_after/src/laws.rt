//! What holds of every input, and of what `edit` writes, as laws: each is the contract of a function that does
//! nothing.

ghost use Rattle.cts_after.specs.Laws.{EditsGoOn, OutcomeIsOne, SpelledIsServed};

/// An input comes to one thing at most.
pub fn outcome_is_one()
    ensures { OutcomeIsOne }
{}

/// No input is refused that spells an instance and a history.
pub fn spelled_is_served()
    ensures { SpelledIsServed }
{}

/// What `edit` writes on an instance comes to the instance of its report, which `check` accepts.
pub fn edits_go_on()
    ensures { EditsGoOn }
{}
