//! What the definitions of this crate say of whole texts.

ghost use Rattle.cts_read.specs.Laws.{RefusalGoesByFront, RefusedLineIsWithin};

/// A line that is refused is one of the text, or the one that is missing after its last.
pub fn refused_line_is_within()
    ensures { RefusedLineIsWithin }
{}

/// A refusal goes by the lines up to the one that is refused, and by nothing after it.
pub fn refusal_goes_by_front()
    ensures { RefusalGoesByFront }
{}
