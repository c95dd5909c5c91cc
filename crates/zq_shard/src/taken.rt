//! The three answers to an operation that is handed over.

/// What becomes of an operation that is handed to a heap.
#[derive(Clone, Copy, Debug, PartialEq, Eq)]
pub enum Taken {
    /// Nothing that it has seen is missing: it is taken.
    New,
    /// It has been taken before.
    Known,
    /// Something that it has seen is missing: it is left.
    Early,
}
