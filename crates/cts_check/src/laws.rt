//! What holds of every verdict, as laws: each is the contract of a function that does nothing.

ghost use Rattle.cts_check.specs.Laws.{SoundReportsAreAccepted, VerdictIsOne};

/// Some bytes have one verdict, so that each comes exactly where it is meant.
pub fn verdict_is_one()
    ensures { VerdictIsOne }
{}

/// The report of a sound tree of a valid instance has the verdict `Yes`, where no route has more than 65,536 corners.
pub fn sound_reports_are_accepted()
    ensures { SoundReportsAreAccepted }
{}
