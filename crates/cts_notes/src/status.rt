//! How a run ended.

ghost use Rattle.std.specs.Prelude.{◌≡◌};
ghost use Rattle.std.specs.Process.{exit_status};
ghost use Rattle.cts_notes.specs.Status.{code_of};

use std::process::ExitCode;

/// How a run ended.
#[derive(Clone, Copy, Debug, PartialEq, Eq)]
pub enum Status {
    /// The text was written whole.
    Done,
    /// The report that was checked is not right; a line that says so was written whole.
    No,
    /// The words ask for nothing that is served.
    Words,
    /// The input is not served.
    Refused,
    /// The tree is beyond the limits; a line that says so was written whole.
    NoTree,
    /// Reading the input failed.
    ReadFault,
    /// Writing the report failed.
    WriteFault,
    /// Memory ran out.
    NoMemory,
    /// The tree has no trunk with the repeaters that are asked for; a line that says so was written whole.
    NoTrunk,
}

impl Status {
    /// The program's exit status.
    pub fn code(self) -> u8
        ensures { result ≡ code_of self }
    {
        match self {
            Status::Done => 0,
            Status::No => 1,
            Status::Words => 2,
            Status::Refused => 3,
            Status::NoTree => 4,
            Status::ReadFault => 5,
            Status::WriteFault => 6,
            Status::NoMemory => 7,
            Status::NoTrunk => 8,
        }
    }
}

/// The program's exit status, as its host takes it.
pub fn exit_code(status: Status) -> ExitCode
    ensures { exit_status result ≡ code_of status }
{
    ExitCode::from(status.code())
}
