//! Electrical units: sinks, wires, buffers, their delays, and the choice of a buffer.
//!
//! Lengths are in nm, capacitances in zF, resistances in µΩ, and times in 10^-27 s; delays are
//! doubled, so that every one is a whole number. A layer above uses the types, the delay functions
//! with their definitions in `specs/Delay.antt`, the buffer choice with the load and the delay that
//! it leaves in `specs/Choice.antt`, and the limits in `specs/Limits.antt`. Only [`Params::try_clone`]
//! takes memory.
#![tactic(auto)]

mod choice;
mod delay;
mod limits;
mod params;

pub use choice::{buffered, choose_buffer};
pub use delay::{buffer_delay, slew_tenths, wire_delay};
pub use limits::{
    MAX_BUFFERS, MAX_CAPACITANCE, MAX_COORDINATE, MAX_DELAY, MAX_ID, MAX_LENGTH, MAX_LOAD,
    MAX_SINKS,
};
pub use params::{Buffer, Library, Params, Sink, Wire};
