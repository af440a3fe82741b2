//! What holds of what every run of callers leaves.

ghost use Rattle.cts_callers.specs.Laws.{RunsCanBePrinted};

/// The history and the replies of a run can be printed.
pub fn runs_can_be_printed()
    ensures { RunsCanBePrinted }
{}
