//! The two rules for a member's score.

/// Which of the values of a member's live additions is its score.
#[derive(Clone, Copy, Debug, PartialEq, Eq)]
pub enum Rule {
    /// The greatest.
    High,
    /// The least.
    Low,
}
