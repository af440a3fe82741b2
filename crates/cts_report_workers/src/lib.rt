//! The report of a tree, whose lines several workers make beside each other.
//!
//! A layer above may use [`write_report_by`], which writes what `cts_report::write_report` does, and promises the same. The
//! nodes are cut into stretches, and each worker makes the lines of one into a page; then the caller gives the pages to the
//! sink, in order, and the next stretches are made. So all threads are joined before each write, and the sink stays with the
//! caller. The pages are made before the first write. Where they can't be had, or the tree is small, the caller writes the
//! report alone, without memory.
#![tactic(auto)]

mod body;
mod page;
mod report;
mod rounds;

pub use report::write_report_by;
