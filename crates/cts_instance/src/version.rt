//! The versions of instances.

/// The version of an instance, which its first line says.
#[derive(Clone, Copy, Debug, PartialEq, Eq)]
pub enum Version {
    /// No sink wants an offset.
    One,
    /// Each sink says the offset that it wants.
    Two,
}
