//! Merging of two subtrees of a clock tree, with whole lengths of wire: the least pair, the merging
//! region, the buffer choice, and the lengths of a balance over given routes.
//!
//! A layer above hands in two sides and takes what [`merge`] makes of them, or [`Beyond`]; it cites
//! the definitions of `specs/`: `LeastPair` for the order of pairs of lengths and for which pairs are
//! admissible, `Merge` and `Balance` for what the calls answer, `Lengths` for [`tap`] and [`snake`], which
//! give the greatest lengths in constant time. They range over all lengths, without a limit. `laws` says
//! that they have one answer, bounds the difference of delays that is left, and says how a merging region
//! lies to the two regions.
//!
//! Lengths are in nm, loads in zF, and delays are doubled, in 10^-27 s. A leaf begins with twice its sink's wanted
//! offset as delay, so that a merge balances delay and offset together. No call takes memory.
#![tactic(auto)]

mod balance;
mod greatest;
pub mod laws;
mod lengths;
mod merging;
mod side;
mod steps;

pub use balance::choose;
pub use greatest::{snake, tap};
pub use merging::{leaf, merge};
pub use side::{Beyond, Finished, Side};
pub use steps::Steps;
