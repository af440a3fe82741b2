//! Scripts of edits, instances that are made from a number, and the canonical text of an instance.
//!
//! A layer above uses [`read_script`], which reads the scripts of all callers from the text that
//! `specs/Steps.antt` and `specs/Scripts.antt` define, [`read_replay`], which reads that of one caller
//! who undoes and redoes changes (`specs/Replays.antt`), [`make_instance`], whose result is told by
//! `specs/Generator.antt`, and [`write_instance`], which writes the text of `specs/Text.antt`. The
//! [`laws`] say that the readers take every valid instance back from that text, and every script from
//! that of `specs/ScriptText.antt`.
#![tactic(auto)]

mod generator;
pub mod laws;
mod make;
mod plain;
mod read;
mod replay;
mod script;
mod step;
mod words;
mod write;

pub use make::make_instance;
pub use read::read_script;
pub use replay::{ReplayAct, ReplayStep, read_replay};
pub use script::{Act, Script, ScriptStep};
pub use write::write_instance;
