//! Reports read from bytes: what a report prints, or the first line with which no report begins.
//!
//! The layers above may use [`read_report`] and the types of what it finds. For other texts that are
//! functions of what is printed, [`after_word`], [`labelled`] and [`bounded`] read words and numbers from
//! the front of bytes. The form of an instance's reports, its version and the size of its library, is in
//! `specs/Forms.antt`. `specs/Reports.antt` says what a reading tells: `cts_report` has the text of a
//! report as a function of what is printed, and `specs/Bounds.antt` has what can be printed, so that some
//! bytes are the text of one report at most and bytes that are none go wrong at one line
//! (`specs/Text.antt`, and the laws of [`laws`]).
//!
//! `specs/Words.antt`, `NodeLine`, `Lines` and `Whole` take a text apart by functions that the code
//! follows step by step. What they have to do with the text is proved: `specs/Reader.antt` says what it
//! is for such a function to read a part of a line, or some lines, and the lemmas of `proofs/` put them
//! together, `Parts` within a line, `Pieces` lines, and `Wholes` whole texts.
#![tactic(auto)]

mod digits;
mod form;
pub mod laws;
mod node;
mod points;
mod report;
mod totals;
mod words;

pub use node::{ReportKind, ReportNode};
pub use report::{Reading, Report, read_report};
pub use totals::{ReportArrivals, ReportTotals};
pub use words::{after_word, bounded, labelled};
