//! The checker of reports: whether some bytes are the report of a sound tree of an instance.
//!
//! The layers above may use [`check`] and its [`Verdict`]. `specs/Verdict.antt` says what each verdict
//! means: `Yes` where the bytes are the report of a sound tree with the figures of their definitions,
//! in the words by which the synthesis says what it makes (`cts_elmore`), `NotText` with the first
//! line with which no report begins, and `Wrong` with the first rule of `specs/Rules.antt` that the
//! tree of the report breaks, at the least number. Some bytes have one verdict ([`laws`]), so that each
//! comes exactly where it is meant.
//!
//! `specs/Told.antt` is the tree that a report tells. No rule speaks of bytes, and nothing is printed
//! anew: figures are compared as numbers.
#![tactic(auto)]

mod buffers;
mod checking;
mod ends;
mod figures;
mod judge;
pub mod laws;
mod places;
mod routes;
mod sinks;
mod told;
mod verdict;
mod wires;

pub use checking::{check, check_rest};
pub use verdict::{Rule, Verdict};
