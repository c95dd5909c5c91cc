//! Why a lock is not taken, or not made.

/// No memory was left.
#[derive(Clone, Copy, PartialEq, Eq, Debug, Drop)]
pub struct NoMemory;

/// The lock's tickets are used up.
#[derive(Clone, Copy, PartialEq, Eq, Debug, Drop)]
pub struct Worn;

/// Why a lock was not taken at once.
#[derive(Clone, Copy, PartialEq, Eq, Debug, Drop)]
pub enum TryFault {
    /// The lock's tickets are used up, and all were served.
    Worn,
    /// Somebody else has drawn the ticket that is served: the lock is held, or was let go just now.
    Busy,
}
