//! Why bytes are no entry.

use std::alloc::AllocError;
use zq_batch::BatchFault;
use zq_fields::PartFault;
use zq_links::FrameFault;

/// Why bytes are not read as an entry: the first field from the left that is missing or wrong.
#[derive(Clone, Copy, Debug, PartialEq, Eq)]
pub enum EntryFault {
    /// Bytes of a field are missing.
    Short,
    /// The first byte names no kind.
    Kind,
    /// The log has another format than 1: a newer version has written it.
    Format,
    /// The field that begins at this place, from 0 at the entry's first byte, is out of its range.
    Field(usize),
    /// The batch whose length begins at this place has this fault. Places in it are counted from
    /// its own first byte, which is eight bytes behind.
    Batch(usize, BatchFault),
    /// The piece has this fault.
    Piece(FrameFault),
    /// Bytes follow the entry.
    Rest,
    /// There was no memory for the list of batches.
    NoMemory,
}

impl From<AllocError> for EntryFault {
    ghost use Rattle.std.specs.Prelude.{◌≡◌};
    ghost use Rattle.zq_entries.specs.declared.fault.EntryFault.TheVariants.{NoMemory};

    ghost from_gives = { λ _ e. e ≡ NoMemory };

    fn from(_error: AllocError) -> EntryFault {
        EntryFault::NoMemory
    }
}

impl From<PartFault> for EntryFault {
    ghost use Rattle.std.specs.Prelude.{◌≡◌};
    ghost use Rattle.zq_entries.specs.Reading.{fault_of};

    ghost from_gives = { λ part e. e ≡ fault_of part };

    fn from(part: PartFault) -> EntryFault {
        match part {
            PartFault::Field(place) => EntryFault::Field(place),
            // No part of an entry has a text or a score.
            PartFault::Short | PartFault::Length | PartFault::Score => EntryFault::Short,
        }
    }
}
