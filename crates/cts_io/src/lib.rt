//! Bytes that come in and go out: sources and sinks, in memory and of the host, and the lines of a
//! text.
//!
//! The layers above read by [`read_all`] and [`Lines`], and write by [`write_all`] or, where a text
//! is made of many pieces, by a [`SinkBuffer`]. Contracts see of a [`ByteSource`] the bytes that
//! are left and of a [`ByteSink`] those that it holds, where they are told, and of both a count of
//! faults. A fault is answered only where that count rose (`specs/Faults.antt`). A function that
//! puts a text into a `SinkBuffer` says so by `Puts`, and one that writes a whole text by `Writes`
//! (`specs/Text.antt`); `proofs/Given.antt` has the lemmas that lead from the one to the other.
#![tactic(auto)]

mod buffer;
mod cursor;
mod device;
mod host;
pub mod laws;
mod memory;
mod read;
mod write;

pub use buffer::SinkBuffer;
pub use cursor::Lines;
pub use device::{ByteSink, ByteSource, Failed};
pub use host::{HostSink, HostSource};
pub use memory::{MemSink, MemSource};
pub use read::{ReadEnd, read_all};
pub use write::{WriteEnd, write_all};
