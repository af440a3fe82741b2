//! Writing all of a piece.

ghost use Rattle.std.specs.Prelude.{◌≡◌, [], ◌<◌, ◌≤◌, length, take, IfErr, OnErr, OnOk, IsOk};
ghost use Rattle.std.specs.Io.KnownBytes.{Appends};
ghost use Rattle.cts_io.specs.Faults.{Rose};
ghost use Rattle.cts_io.specs.Text.{Writes};
ghost use Rattle.cts_io.specs.Written.{written_of};

use crate::device::ByteSink;
use thiserror::Error;

/// Why not all of a text was written.
#[derive(Debug, Drop, Error)]
pub enum WriteEnd {
    /// The sink failed after it took the first `written` bytes.
    #[error("the sink failed after {written} bytes")]
    WriteFault { written: usize },
}

impl WriteEnd {
    /// How many bytes the sink took before it failed.
    pub fn written(&self) -> usize
        ensures { result ≡ written_of self.now }
    {
        match self {
            WriteEnd::WriteFault { written } => *written,
        }
    }
}

/// Writes all of `bytes`.
///
/// - `Ok`: the sink has taken all of them. For no bytes that is the answer, and no call is made.
/// - `WriteFault`: only where the sink's count of faults rose in this call. The sink has taken
///   exactly the first `written` bytes, and not all.
pub fn write_all<K: ByteSink>(sink: &mut K, bytes: &[u8]) -> Result<(), WriteEnd>
    ensures ok { OnOk result (Appends (K.held sink.old) (K.held sink.new) bytes.now) }
    ensures empty { bytes.now ≡ [] → IsOk result }
    ensures untouched { bytes.now ≡ [] → sink.new ≡ sink.old }

    ensures cut { IfErr result (λ end.
        Appends (K.held sink.old) (K.held sink.new) (take (written_of end) bytes.now)) }
    ensures short { IfErr result (λ end. written_of end < length bytes.now) }
    ensures write_fault { OnErr result (Rose (K.faults sink.old) (K.faults sink.new)) }
    ensures counted { K.faults sink.old ≤ K.faults sink.new }

    // The same in the form of the calls that write longer texts.
    ensures text { Writes K.held K.faults sink.old sink.new bytes.now result }
{
    let mut written = 0;
    while written < bytes.len() {
        match sink.write(&bytes[written..]) {
            Ok(count) => written += count,
            Err(_) => return Err(WriteEnd::WriteFault { written }),
        }
    }
    Ok(())
}
