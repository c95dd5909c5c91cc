//! What a book refuses.
use std::alloc::AllocError;

/// Why an operation was not judged, or not taken.
#[derive(Clone, Copy, Debug, PartialEq, Eq)]
pub enum TakeFault {
    /// Its heap or its number of heaps is another, or its member lies in another heap.
    WrongHeap,
    /// It is New, and the book can count no further record.
    Worn,
    /// It is New, and a growth was refused.
    NoMemory,
}

impl From<AllocError> for TakeFault {
    ghost use Rattle.std.specs.Prelude.{◌≡◌};
    ghost use Rattle.zq_journal.specs.declared.faults.TakeFault.{TakeFault};

    ghost from_gives = { λ _ fault. fault ≡ TakeFault.NoMemory };

    fn from(_error: AllocError) -> TakeFault {
        TakeFault::NoMemory
    }
}

/// Why a heap was not merged.
#[derive(Clone, Copy, Debug, PartialEq, Eq)]
pub enum MergeFault {
    /// Its number or its number of heaps is another.
    WrongHeap,
    /// Its rule is another.
    WrongRule,
    /// The book can count no further merge.
    Worn,
    /// A growth was refused.
    NoMemory,
}

/// Why a heap did not take the place of the book's.
#[derive(Clone, Copy, Debug, PartialEq, Eq)]
pub enum TakeOverFault {
    /// Its number or its number of heaps is another.
    WrongHeap,
    /// Its rule is another.
    WrongRule,
    /// The book can count no further step.
    Worn,
    /// It lacks some of what the book has.
    Lacks,
}

/// A cut of a tail stopped, this many records having been dropped. No cut stops: it takes no
/// memory.
#[derive(Clone, Copy, Debug, PartialEq, Eq)]
pub struct Advanced(pub usize);
