//! What clearing a key, or dropping members, came to.

use crate::stopped::Stopped;

/// What clearing a key, or dropping members one after the other, came to.
#[derive(Clone, Copy, Debug)]
pub struct Cleared {
    /// How many moves were made in all, those before included.
    pub done: u64,
    /// Why one was not made.
    pub cut: Option<Stopped>,
}
