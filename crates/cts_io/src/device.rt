//! The two traits by which bytes come in and go out.

ghost use Rattle.std.specs.Prelude.{◌≡◌, ℕ, List, Option, ◌<◌, ◌≤◌, length, take, IfOk, OnErr};
ghost use Rattle.std.specs.Io.KnownBytes.{Appends, Consumes, IsAtEnd};
ghost use Rattle.cts_io.specs.Faults.{Rose};

use thiserror::Error;

/// A read or a write failed, and the count of faults of its source or sink rose.
#[derive(Debug, Drop, Error)]
#[error("the device failed")]
pub struct Failed;

/// Something that bytes are read from.
pub trait ByteSource {
    /// The bytes still to come, where the source tells them.
    ghost left: { Self → Option (List ℕ) };

    /// A count of faults, which never falls.
    ghost faults: { Self → ℕ };

    /// Puts the next bytes at the front of `buf`, and answers how many.
    ///
    /// For a buffer that isn't empty, 0 means that no byte is left. Where the source does not tell
    /// its bytes, that is the end of the input. At `Failed` nothing was taken.
    fn read(&mut self, buf: &mut [u8]) -> Result<usize, Failed>
        ensures bound { IfOk result (λ n. n ≤ length buf.new) }
        ensures taken { IfOk result (λ n. Consumes (left self.old) (left self.new) (take n buf.new)) }
        ensures end { IfOk result (λ n. n ≡ 0 → 0 < length buf.new → IsAtEnd (left self.new)) }

        ensures failed { OnErr result (Rose (faults self.old) (faults self.new)) }
        ensures kept { OnErr result (left self.new ≡ left self.old) }
        ensures counted { faults self.old ≤ faults self.new };
}

/// Something that bytes are written to.
pub trait ByteSink {
    /// The bytes taken so far, where the sink tells them.
    ghost held: { Self → Option (List ℕ) };

    /// A count of faults, which never falls.
    ghost faults: { Self → ℕ };

    /// Takes bytes from the front of `bytes`, at least one unless there is none, and answers how
    /// many. At `Failed` nothing was taken.
    fn write(&mut self, bytes: &[u8]) -> Result<usize, Failed>
        ensures bound { IfOk result (λ n. n ≤ length bytes.now) }
        ensures some { IfOk result (λ n. 0 < length bytes.now → 0 < n) }
        ensures taken { IfOk result (λ n. Appends (held self.old) (held self.new) (take n bytes.now)) }

        ensures failed { OnErr result (Rose (faults self.old) (faults self.new)) }
        ensures kept { OnErr result (held self.new ≡ held self.old) }
        ensures counted { faults self.old ≤ faults self.new };
}
