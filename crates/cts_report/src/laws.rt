//! Which trees can be printed, as laws: each is the contract of a function that does nothing.

ghost use Rattle.cts_report.specs.Laws.{FiguresInRangeArePrintable, SoundTreesArePrintable};

/// Figures as [`cts_elmore::measure`] answers them can be printed beside nodes whose places and corners can.
pub fn figures_in_range_are_printable()
    ensures { FiguresInRangeArePrintable }
{}

/// A sound tree of a valid instance can be printed with its figures.
pub fn sound_trees_are_printable()
    ensures { SoundTreesArePrintable }
{}
