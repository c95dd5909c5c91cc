//! Why a heap refuses a call.

use std::alloc::AllocError;
use zq_dots::Worn;

/// Why no operation was made.
#[derive(Clone, Copy, Debug, PartialEq, Eq)]
pub enum MakeFault {
    /// The member lies in another heap.
    WrongHeap,
    /// The site has no further counter in this heap.
    Worn,
    /// A growth was refused.
    NoMemory,
}

impl From<Worn> for MakeFault {
    ghost use Rattle.std.specs.Prelude.{◌≡◌};
    ghost use Rattle.zq_shard.specs.declared.faults.MakeFault.{MakeFault};

    ghost from_gives = { λ _ fault. fault ≡ MakeFault.Worn };

    fn from(_worn: Worn) -> MakeFault {
        MakeFault::Worn
    }
}

impl From<AllocError> for MakeFault {
    ghost use Rattle.std.specs.Prelude.{◌≡◌};
    ghost use Rattle.zq_shard.specs.declared.faults.MakeFault.{MakeFault};

    ghost from_gives = { λ _ fault. fault ≡ MakeFault.NoMemory };

    fn from(_error: AllocError) -> MakeFault {
        MakeFault::NoMemory
    }
}

/// Why an operation was not taken.
#[derive(Clone, Copy, Debug, PartialEq, Eq)]
pub enum TakeFault {
    /// Its heap or its number of heaps is another, or its member lies in another heap.
    WrongHeap,
    /// A growth was refused.
    NoMemory,
}

impl From<AllocError> for TakeFault {
    ghost use Rattle.std.specs.Prelude.{◌≡◌};
    ghost use Rattle.zq_shard.specs.declared.faults.TakeFault.{TakeFault};

    ghost from_gives = { λ _ fault. fault ≡ TakeFault.NoMemory };

    fn from(_error: AllocError) -> TakeFault {
        TakeFault::NoMemory
    }
}

/// Why two heaps were not merged.
#[derive(Clone, Copy, Debug, PartialEq, Eq)]
pub enum MergeFault {
    /// The heap or the number of heaps is another.
    WrongHeap,
    /// The rule is another.
    WrongRule,
    /// A growth was refused.
    NoMemory,
}

impl From<AllocError> for MergeFault {
    ghost use Rattle.std.specs.Prelude.{◌≡◌};
    ghost use Rattle.zq_shard.specs.declared.faults.MergeFault.{MergeFault};

    ghost from_gives = { λ _ fault. fault ≡ MergeFault.NoMemory };

    fn from(_error: AllocError) -> MergeFault {
        MergeFault::NoMemory
    }
}
