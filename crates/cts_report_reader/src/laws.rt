//! What the words of the contracts mean, as laws: each is the contract of a function that does nothing.

ghost use Rattle.cts_report_reader.specs.Reports.{FirstLineIsOne, ReportIsUnique};

/// Bytes are the text of one report at most, so a reading tells all that they can mean.
pub fn report_is_unique()
    ensures { ReportIsUnique }
{}

/// Bytes that are the text of no report go wrong at one line.
pub fn first_line_is_one()
    ensures { FirstLineIsOne }
{}
