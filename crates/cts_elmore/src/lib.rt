//! The figures of a clock tree: loads, Elmore delays, slews, skew and bound.
//!
//! A layer above takes the [`Figures`] of a tree that is within the limits of wires, loads and delays by
//! [`measure`], and asks by [`within`] or [`try_measure`] of a tree that anybody made whether it is, the latter for its figures too.
//! Both ask for a tree that names the instance's sinks and buffers, `specs/Fits.antt`. Where a layer needs
//! the [`pins`] of the leaves itself, it lists them once, and measures by [`measure_with`]. A layer above
//! cites `specs/Figures.antt` for what figures are: `Loads` has the sums over what a point drives, `Delays`
//! the sums over a node's path from the source, `Skew` residues, skew and bound over the leaves, and
//! `Limits` what is over the limits of a tree and what meets those of an instance.
//!
//! A layer that measures the two parts of a tree beside each other takes the passes apart: upward [`gather_part`] over
//! each part, [`join_parts`] and [`known_figure`] at the root, [`drive_root`]; downward [`descend_root`],
//! [`descend_part`] over each part; and [`figures_from`]. Their values stand in `specs/Subtrees.antt` and
//! `specs/Outputs.antt`.
//!
//! All of these are told of a tree and of the path of each node. The laws of [`laws`] say what a pair
//! adds to its parts and hands down to them, that the skew is at most the bound, that the figures of a tree
//! within the limits are in range, and that a sound tree (`specs/Sound.antt`) stands in the die.
//!
//! Delays and arrivals are two things: the arrival of a leaf is its delay and twice the offset that its sink wants (useful
//! skew). Residues, limits, skew and bound go by arrivals; loads, stages and slews know no offset. Where no sink wants one,
//! arrivals are delays (`laws::arrivals_are_delays`).
#![tactic(auto)]

mod descent;
mod drive;
mod figures;
pub mod laws;
mod measurement;
mod pin_list;
mod subtree;

pub use descent::{Descent, Met, Output, RootDescent, descend_part, descend_root, own_buffer};
pub use drive::{Drive, drive_root};
pub use figures::{Figures, NodeFigure, NodeFigures};
pub use measurement::{Measured, figures_from, measure, measure_with, try_measure, within};
pub use pin_list::{Pin, pins};
pub use subtree::{Branch, Risen, Subtree, gather_part, join_parts, known_figure};
