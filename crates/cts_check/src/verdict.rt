//! What is said of a report.

/// What is asked of a report's tree, in the order in which it is tried.
#[derive(Clone, Copy, Debug, PartialEq, Eq)]
pub enum Rule {
    /// Each leaf stands at the place of a sink that no leaf before it has, and each sink has a leaf.
    Sinks,
    /// The steps of each route run along the axes and are longer than 0, and no point of them is
    /// outside the die or strictly inside a block of kind `All`.
    Route,
    /// No wire is shorter than its route.
    Short,
    /// No buffer stands strictly inside a block of either kind.
    BufferBlocked,
    /// No node is over the limits of lengths, loads and delays.
    Limit,
    /// Each printed figure is that of its definition.
    Figure,
}

/// What the bytes that should be a report are.
#[derive(Clone, Copy, Debug, PartialEq, Eq)]
pub enum Verdict {
    /// The report of a sound tree.
    Yes,
    /// No text of a report: this is the first line with which none begins, counted from 1.
    NotText { line: u32 },
    /// The text of a report that breaks this rule at this number, and none before it. The number is
    /// that of a node, or the number of nodes where a sink has no leaf or a figure of the whole tree
    /// is wrong.
    Wrong { rule: Rule, node: u32 },
}
