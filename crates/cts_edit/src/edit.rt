//! Edits of the sinks of an instance.

/// A change of the sinks of an instance. Ids are at most 999,999,999, coordinates from 0 to 10^8 nm and
/// capacitances at most 10^12 zF.
#[derive(Clone, Copy, Debug, PartialEq, Eq)]
pub enum Edit {
    /// Puts a sink behind the others, at a place in nm and with a capacitance in zF.
    Add { id: u32, x: i64, y: i64, cap: u64 },
    /// Takes a sink out. Those behind it close up.
    Remove { id: u32 },
    /// Gives a sink another place, in nm.
    Move { id: u32, x: i64, y: i64 },
    /// Gives a sink another capacitance, in zF.
    SetCap { id: u32, cap: u64 },
}

/// An edit, and the line of the caller's script that asks for it.
#[derive(Clone, Copy, Debug, PartialEq, Eq)]
pub struct Entry {
    /// The caller's number.
    pub caller: u32,
    /// The number of the line.
    pub line: u32,
    pub edit: Edit,
}

/// Why an edit is refused: the first of these that holds.
#[derive(Clone, Copy, Debug, PartialEq, Eq)]
pub enum EditCause {
    /// A sink is added whose id is there.
    Known,
    /// Any other edit of an id that isn't there.
    Unknown,
    /// A sink is put to a place that isn't in the closed die.
    Outside,
    /// A sink is put to a place strictly inside a block of kind `All`.
    InBlock,
    /// A sink is added where there are 65,536.
    Full,
    /// The only sink is removed.
    Last,
    /// The history has 65,536 edits.
    Long,
}
