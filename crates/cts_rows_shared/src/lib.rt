//! Worked rows of the crates that share objects between threads, as tests: turns, deals, memos and their hashes, designs, sessions,
//! shapes by workers, workers and callers.
//!
//! They stand in a crate of their own, since a crate that has a test is proved twice. The gate at which threads meet
//! serves `cts_cases` too.
#![tactic(auto)]

#[cfg(test)]
mod callers;
#[cfg(test)]
mod compare;
#[cfg(test)]
mod deals;
#[cfg(test)]
mod designs;
#[cfg(test)]
mod drawing;
pub mod gates;
#[cfg(test)]
mod hashes;
#[cfg(test)]
mod instances;
#[cfg(test)]
mod leaves;
#[cfg(test)]
mod memos;
#[cfg(test)]
#[cfg(test)]
mod rebuilds;
#[cfg(test)]
mod schedules;
#[cfg(test)]
mod sessions;
#[cfg(test)]
mod shapes;
#[cfg(test)]
mod turns;
#[cfg(test)]
mod workers;
