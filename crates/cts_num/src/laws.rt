//! What the words of the contracts mean, as laws: each is the contract of a function that does nothing.

ghost use Rattle.cts_num.specs.Canonical.{CanonicalIsWritten};
ghost use Rattle.cts_num.specs.Laws.{DecimalIsReadBack, ReadingIsComputed, ReadingIsUnique, ValueIsUnique, WrittenIsRead};

/// A text writes at most one value at each number of places.
pub fn value_is_unique()
    ensures { ValueIsUnique }
{}

/// A text has at most one reading at each number of places, a value or a fault.
pub fn reading_is_unique()
    ensures { ReadingIsUnique }
{}

/// Every text has a reading at each number of places.
pub fn reading_is_computed()
    ensures { ReadingIsComputed }
{}

/// The canonical text of a value is read as that value.
pub fn decimal_is_read_back()
    ensures { DecimalIsReadBack }
{}

/// The canonical text of a value below 10^18 is read, at the places at which it was written, as
/// that value and no fault.
pub fn written_is_read()
    ensures { WrittenIsRead }
{}

/// A text is read as a number exactly where it is the canonical text of that number, and the number
/// has at most 38 digits.
pub fn canonical_is_written()
    ensures { CanonicalIsWritten }
{}
