//! What the words of the contracts mean, as laws: each is the contract of a function that does nothing.

ghost use Rattle.cts_io.specs.Lines.{LinesComeBack, NoMoreLinesThanBytes};
ghost use Rattle.cts_io.specs.Text.{CutIsExact};

/// The lines of a text that was written line by line, with an LF behind each, are those lines.
pub fn lines_come_back()
    ensures { LinesComeBack }
{}

/// A text has no more lines than bytes.
pub fn no_more_lines_than_bytes()
    ensures { NoMoreLinesThanBytes }
{}

/// What `written` counts, in a text that was cut.
pub fn cut_is_exact()
    ensures { CutIsExact }
{}
