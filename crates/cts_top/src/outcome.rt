//! What a run tells its caller.

use cts_design::Entry;
use cts_history::Reply;
use cts_memo::Table;
use cts_notes::Status;
use std::alloc::Global;

/// What a run tells its caller.
#[derive(Drop)]
pub struct Outcome {
    pub status: Status,
    /// The table of the memo over which more than one worker made a tree, or found that there is none; or
    /// over which callers drew theirs.
    pub memo: Option<Table>,
    /// The edits of callers that were accepted, in order.
    pub history: Vec<Entry>,
    /// The replies to the callers, from the first on, each in the order of its script.
    pub replies: Vec<Vec<Reply>>,
}

/// What a run keeps beside the text that it wrote.
#[derive(Drop)]
pub struct Kept {
    pub memo: Option<Table>,
    pub history: Vec<Entry>,
    pub replies: Vec<Vec<Reply>>,
}

impl Kept {
    ghost use Rattle.std.specs.Prelude.{◌≡◌};
    ghost use Rattle.cts_top.specs.Log.{log_of, no_log};

    /// A memo, if there is one, and no log of callers. It takes no memory.
    pub fn without_log(alloc: Global, memo: Option<Table>) -> Kept
        ensures memo { result.memo ≡ memo }
        ensures log { log_of result.history result.replies ≡ no_log }
    {
        Kept {
            memo,
            history: Vec::new(alloc),
            replies: Vec::new(alloc),
        }
    }

    /// The outcome of a run that kept this.
    pub fn outcome(self, status: Status) -> Outcome
        ensures status { result.status ≡ status }
        ensures memo { result.memo ≡ self.memo }
        ensures history { result.history ≡ self.history }
        ensures replies { result.replies ≡ self.replies }
    {
        Outcome {
            status,
            memo: self.memo,
            history: self.history,
            replies: self.replies,
        }
    }
}
