//! The text of a report: a tree with its figures, written to a sink.
//!
//! The text is a function of what is printed (`specs/Printed.antt`, and its lines in
//! `specs/Lines.antt`), and the report of a tree prints the numbers of the tree and of its figures
//! (`specs/Report.antt`). So a layer above that reads a report speaks of the same lines. In version 2 a
//! report has arrivals too, which are printed or not, and a summary has none. The writer takes no memory,
//! and gives the sink some KiB at a time. What can be printed is `IsPrintable`; by the [`laws`] it is met by
//! each sound tree of a valid instance with its own figures.
#![tactic(auto)]

pub mod laws;
mod line;
mod report;
pub mod words;

pub use report::{put_head, put_stretch, put_totals, write_report, write_summary};
