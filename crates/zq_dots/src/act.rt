//! What an operation does to its member.

use crate::score::Score;

/// What an operation does to its member.
#[derive(Clone, Copy, Debug, PartialEq, Eq)]
pub enum Act {
    /// Takes away the additions that it has seen and makes one of this score.
    Put(Score),
    /// Adds to the additions that it has seen.
    Bump(Score),
    /// Takes away the additions that it has seen.
    Drop,
}
