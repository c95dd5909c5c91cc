//! Why a log is not taken.

use std::alloc::AllocError;
use zq_entries::EntryFault;
use zq_stage::PieceFault;

/// Why a log is not taken.
#[derive(Clone, Copy, Debug, PartialEq, Eq)]
pub enum Refusal {
    /// A record is no entry.
    Entry(EntryFault),
    /// The first entry is no Start.
    NoStart,
    /// The log is of another site.
    OtherSite,
    /// The site of the log has another number of heaps.
    OtherHeaps,
    /// The site of the log has another rule.
    OtherRule,
    /// A later Start is of another folder.
    OtherFolder,
    /// The number of a later Start is not above that of the one before.
    OldStart,
    /// An operation, a piece or a vector is of no heap of the site.
    WrongHeap,
    /// An operation has seen what its heap has not: one before it is missing.
    Gap,
    /// A piece does not follow.
    Piece(PieceFault),
    /// Pieces of a heap are missing.
    NotWhole,
    /// The heap has not just the operations that its vector says.
    OtherVector,
    /// There was no memory.
    NoMemory,
}

impl From<AllocError> for Refusal {
    ghost use Rattle.std.specs.Prelude.{◌≡◌};
    ghost use Rattle.zq_recovery.specs.declared.refusal.Refusal.TheVariants.{NoMemory};

    ghost from_gives = { λ _ e. e ≡ NoMemory };

    fn from(_error: AllocError) -> Refusal {
        Refusal::NoMemory
    }
}
