//! The picture of a tree: an instance and a report on it, as one SVG that is written to a sink.
//!
//! The text is a function of the instance and of what the report prints (`specs/Picture.antt`): the page
//! and its style, the die and the blocks (`specs/Sheet.antt`), the wires (`specs/Wires.antt`), and what is
//! written below them (`specs/Legend.antt`). The report needn't be that of a sound tree. Where it tells
//! arrivals, so do titles and legend; colours go by delays in both versions. Numbers in the
//! picture are those of the report without their points: lengths count in 10^-4 µm, the y axis goes up.
//! The writer takes no memory, and gives the sink some KiB at a time.
#![tactic(auto)]

mod frame;
pub mod laws;
mod legend;
mod marks;
mod picture;
mod sheet;
mod tree;
mod wire;
mod words;

pub use picture::write_picture;
