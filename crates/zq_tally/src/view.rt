//! What a seat knows of its table.

use std::collections::LinkedList;

/// The parts of a table: one for each of at most 128 passes, and at least one with the total.
pub const PARTS: u64 = 129;

/// What a seat knows of its table. Proofs alone speak of it: no value of it is ever made.
pub struct View {
    /// The steps of each pass that is joined in the seat. Each pass is one part.
    pub steps: LinkedList<u64>,
    /// How many further parts the seat keeps.
    pub kept: u64,
    /// The steps of all passes together, where the seat keeps the total.
    pub total: Option<u64>,
}
