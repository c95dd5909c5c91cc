//! What a row of a table says that does not hold.

use std::process::Abort;

/// Asserts that a row holds, by the name of its table and its number, counted from 0.
pub fn row_holds(rt: &impl Abort, table: &str, row: usize, holds: bool) {
    assert!(rt; holds, "{table}, row {row}");
}
