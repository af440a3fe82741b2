//! Decimal numbers as text, roots and quotients rounded down, and the error for want of memory: the
//! lowest layer.
//!
//! The layers above may use [`decimal`], which writes a number as its canonical decimal text,
//! [`write_decimal`], which does so in place, [`read_canonical`], which reads such a text and no other,
//! [`read_decimal`], which reads a decimal text or names the first fault in it, [`read_front`] and
//! [`read_long_front`], which read the number in front of a text, the [`laws`] that tie them, [`POWERS_OF_TEN`], [`isqrt`] and
//! [`floor_div`], and [`NoMemory`], to which `?` turns every failed allocation.
#![tactic(auto)]

mod canonical;
mod error;
mod forward;
pub mod laws;
mod powers;
mod read;
mod roots;
mod runs;
mod sixteen;
mod write;

pub use canonical::read_canonical;
pub use error::NoMemory;
pub use forward::write_decimal;
pub use powers::POWERS_OF_TEN;
pub use read::{DecimalFault, read_decimal, read_front, read_long_front};
pub use roots::{floor_div, isqrt, near_float};
pub use write::{Digits, decimal};
