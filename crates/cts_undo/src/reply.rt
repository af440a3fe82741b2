//! Replies to the steps of a replay.

ghost use Rattle.std.specs.Prelude.{◌≡◌};
ghost use Rattle.cts_undo.specs.Answers.{answered_version, edited_version};

use cts_edit::EditReply;
use cts_history::Reply;

/// The reply to a step of a replay. A version is the number of changes that are done after the step.
#[derive(Clone, Copy, Debug)]
pub enum ReplayReply {
    /// To a change or a draw.
    Answered(Reply),
    /// To an undo of a change.
    Undone { line: u32, version: u32 },
    /// To a redo of a change.
    Redone { line: u32, version: u32 },
    /// To an undo or a redo where there is nothing to undo or redo.
    Nothing { line: u32, version: u32 },
}

/// The version that the reply to a change tells.
fn edited_version(reply: EditReply) -> u32
    ensures { result ≡ edited_version reply }
{
    match reply {
        EditReply::Accepted { version } => version,
        EditReply::Refused { version, .. } => version,
        EditReply::NoMemory => 0,
    }
}

/// The version that the reply to a change or a draw tells.
fn answered_version(reply: Reply) -> u32
    ensures { result ≡ answered_version reply }
{
    match reply {
        Reply::Edited { reply, .. } => edited_version(reply),
        Reply::Drew { version, .. } => version,
        Reply::NoTree { version, .. } => version,
    }
}

impl ReplayReply {
    ghost use Rattle.std.specs.Prelude.{◌≡◌};
    ghost use Rattle.cts_undo.specs.Answers.{told_version};

    /// The version that the reply tells.
    pub fn version(self) -> u32
        ensures { result ≡ told_version self }
    {
        match self {
            ReplayReply::Answered(reply) => answered_version(reply),
            ReplayReply::Undone { version, .. } => version,
            ReplayReply::Redone { version, .. } => version,
            ReplayReply::Nothing { version, .. } => version,
        }
    }
}
