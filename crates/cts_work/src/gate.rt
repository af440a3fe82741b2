//! Where a caller can look in on the work.

/// Where work can be watched, and held up, by whoever hands it in. It promises nothing, and no answer
/// depends on it.
pub trait Gate: Sync {
    /// Is called before a worker starts a piece of the tree.
    fn piece(&self, number: u32);

    /// Is called between a look-up answered `Absent` and its publication, outside every turn, with the
    /// number of a piece or of a caller.
    fn between(&self, number: u32);
}

/// A gate that nobody watches.
#[derive(Clone, Copy, Debug)]
pub struct OpenGate;

impl Gate for OpenGate {
    fn piece(&self, _number: u32) {}

    fn between(&self, _number: u32) {}
}
