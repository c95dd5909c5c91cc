//! The one error of a table.

/// No memory was left.
#[derive(Clone, Copy, PartialEq, Eq, Debug, Drop)]
pub struct NoMemory;
