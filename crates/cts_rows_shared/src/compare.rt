//! What rows compare: values that are copied, with the name of the row where they differ.

use std::fmt::Debug;
use std::process::Abort;

/// The row has the value that is expected.
pub(crate) fn same<R: Abort, T: Copy + Debug + PartialEq>(
    rt: &R,
    row: &str,
    found: T,
    expected: T,
) {
    assert_eq!(rt; found, expected, "{row}");
}
