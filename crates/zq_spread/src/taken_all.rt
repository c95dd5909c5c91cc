//! How far a list of operations was taken.
use zq_journal::TakeFault;

/// Why a heap took no more of a list of operations.
#[derive(Clone, Copy, Debug, PartialEq, Eq)]
pub enum TakeEnd {
    /// There are no more.
    All,
    /// The next one has seen what is missing.
    Early,
    /// The next one is refused.
    Refused(TakeFault),
}

/// How far a heap took a list of operations.
#[derive(Clone, Copy, Debug, PartialEq, Eq)]
pub struct TakenAll {
    /// How many of them, from the first on, were New or Known where their turn came.
    pub taken: usize,
    /// How many of these were New.
    pub fresh: u64,
    /// Why it took no more.
    pub end: TakeEnd,
}
