//! Worked rows of the crates that neither wait nor start threads, as tests.
//!
//! They stand in a crate of their own, since a crate that has a test is proved twice. Those of the crates that share
//! objects between threads are in `cts_rows_shared`. A row that a text can say, or a whole run, is one of `cts_cases` instead.
#![tactic(auto)]

#[cfg(test)]
mod balances;
#[cfg(test)]
mod blocks;
#[cfg(test)]
mod buffers;
#[cfg(test)]
mod delays;
#[cfg(test)]
mod devices;
#[cfg(test)]
mod figures;
#[cfg(test)]
mod free_places;
#[cfg(test)]
mod instances;
#[cfg(test)]
mod lengths;
#[cfg(test)]
mod lists;
#[cfg(test)]
mod merges;
#[cfg(test)]
mod plans;
#[cfg(test)]
mod points;
#[cfg(test)]
mod regions;
#[cfg(test)]
mod roots;
#[cfg(test)]
mod routes;
#[cfg(test)]
mod shapes;
#[cfg(test)]
mod trees;
