//! The program's one call: from words, an input and an output to a status.
//!
//! The layer above may use [`run`], which may wait for its workers or callers, [`run_alone`], which returns and serves the
//! forms of one thread, [`end_without_memory`] where it can't even collect the words, the statuses, and what an [`Outcome`] is made of: the [`Table`] of a
//! memo, the [`Entry`]s of a history, and each [`Reply`] to a caller. What stands beside them is private: the
//! words (`words`), what each form does (`serve`), the instance of an input (`input`), its
//! synthesis by workers (`by_workers`, `workers`) and by one thread, and the text for it (`answer`), its trunk with repeaters
//! (`trunk`, `trunk_words`), the edits of callers (`edit`), the tree over the nearest-pair topology (`near`), the verdict on a
//! report (`verdict`), the room that their lists share (`room`), that an instance is valid (`valid`), and the notes (`stop`,
//! `notes`).
#![tactic(auto)]

mod answer;
mod by_workers;
mod calls;
mod edit;
mod host;
mod input;
mod near;
mod notes;
mod outcome;
mod replay;
mod room;
mod serve;
mod stop;
mod trunk;
mod trunk_words;
mod valid;
mod verdict;
mod words;
mod workers;

pub use calls::{end_without_memory, run, run_alone};
pub use cts_design::Entry;
pub use cts_history::Reply;
pub use cts_memo::Table;
pub use cts_notes::Status;
pub use host::{run_for_host, run_on};
pub use outcome::Outcome;
