//! Why there is no report, or not all of it.

use cts_instance::{CheckEnd, Fault};
use cts_io::WriteEnd;
use cts_num::NoMemory;
use cts_plain::NoTree;
use thiserror::Error;

/// Why there is no report, or not all of it.
#[derive(Clone, Copy, Debug, Error)]
pub(crate) enum Refusal {
    /// The first fault of the parts.
    #[error("refused: {0}")]
    Parts(Fault),
    /// The least node that is over the limits of wires, loads or delays.
    #[error("no tree: node {node} is over the limits")]
    Beyond { node: u32 },
    /// The greatest node that no route reaches.
    #[error("no tree: no route reaches node {node}")]
    Cut { node: u32 },
    /// An allocation failed.
    #[error("memory ran out")]
    NoMemory,
    /// The sink of the report failed.
    #[error("the output failed after {written} bytes")]
    WriteFault { written: usize },
}

impl From<NoMemory> for Refusal {
    fn from(_error: NoMemory) -> Refusal {
        Refusal::NoMemory
    }
}

impl From<CheckEnd> for Refusal {
    fn from(end: CheckEnd) -> Refusal {
        match end {
            CheckEnd::Fault(fault) => Refusal::Parts(fault),
            CheckEnd::NoMemory => Refusal::NoMemory,
        }
    }
}

impl From<NoTree> for Refusal {
    fn from(end: NoTree) -> Refusal {
        match end {
            NoTree::Beyond { node } => Refusal::Beyond { node },
            NoTree::Cut { node } => Refusal::Cut { node },
            NoTree::NoMemory => Refusal::NoMemory,
        }
    }
}

impl From<WriteEnd> for Refusal {
    fn from(end: WriteEnd) -> Refusal {
        Refusal::WriteFault {
            written: end.written(),
        }
    }
}
