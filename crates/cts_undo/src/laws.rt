//! What holds of edits and their inverses and of the replies to every replay, as laws: each is the contract of a function that does nothing.

ghost use Rattle.cts_undo.specs.Laws.{EditsHaveInverses, InversesTakeBack, RepliesAreOne, TextIsOne};

/// Each edit that a list of sinks may meet has an inverse, however many sinks there are.
pub fn edits_have_inverses()
    ensures { EditsHaveInverses }
{}

/// The edit and then its inverse give the list back, places and order included.
pub fn inverses_take_back()
    ensures { InversesTakeBack }
{}

/// The steps of a replay have one list of replies at most: what is done before a step decides the reply to it.
pub fn replies_are_one()
    ensures { RepliesAreOne }
{}

/// So they have one text, that of what is done after them and of the replies.
pub fn text_is_one()
    ensures { TextIsOne }
{}
