//! Valid instances of clock tree synthesis, and the first fault of the parts of one.
//!
//! [`Parts`] are what a user hands in; an [`Instance`] holds valid parts alone. A layer above makes
//! one by [`check_instance`], or checks the lines of a text one at a time by the calls of [`lines`]
//! and then by [`Instance::of`]; [`Instance::with_sinks`] gives one with other sinks.
//! `specs/FirstFault.antt` has the faults in their order, `specs/Validity.antt` what valid parts are,
//! and [`laws`] says that the two agree, and what valid parts mean for the geometry, the blocks and
//! the delays. Every read call of an instance ensures that it is valid. A proof about lines that are
//! read one by one finds what it needs in the files of `proofs/` on first faults, lines and counts.
#![tactic(auto)]

mod check;
mod counts;
mod fault;
mod ids;
mod instance;
pub mod laws;
pub mod lines;
mod parts;
mod rules;
mod version;

pub use check::check_instance;
pub use counts::BlockCounts;
pub use fault::{CheckEnd, Fault, Item};
pub use ids::SinkIds;
pub use instance::Instance;
pub use parts::{Blocks, Parts, Sinks};
pub use rules::{MAX_ALL_BLOCKS, MAX_BUFFER_BLOCKS, is_in_die, is_inside};
pub use version::Version;
