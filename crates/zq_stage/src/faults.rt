//! Why a stage refuses what comes to it.

use std::alloc::AllocError;

/// Why an operation was not taken.
#[derive(Clone, Copy, Debug, PartialEq, Eq)]
pub enum TakeFault {
    /// Its heap or its number of heaps is another, or its member lies in another heap.
    WrongHeap,
    /// It has seen what the stage has not: an operation before it did not come.
    Gap,
    /// A growth was refused.
    NoMemory,
}

/// Why a piece was not taken.
#[derive(Clone, Copy, Debug, PartialEq, Eq)]
pub enum PieceFault {
    /// Its heap or its number of heaps is another.
    WrongHeap,
    /// Its rule is another.
    WrongRule,
    /// The heap that it is of was replaced since the stage was begun.
    WrongLife,
    /// It is not the next piece, or there were too many.
    WrongNumber,
    /// It is of another moment: operations are missing before it.
    WrongVector,
    /// A growth was refused.
    NoMemory,
}

impl From<AllocError> for PieceFault {
    ghost use Rattle.std.specs.Prelude.{◌≡◌};
    ghost use Rattle.zq_stage.specs.declared.faults.PieceFault.{PieceFault};

    ghost from_gives = { λ _ fault. fault ≡ PieceFault.NoMemory };

    fn from(_error: AllocError) -> PieceFault {
        PieceFault::NoMemory
    }
}
