//! Why bytes are not read as a state.

use std::alloc::AllocError;
use zq_fields::PartFault;

/// Why bytes are not read as a state: the first field from the left that is missing or wrong.
#[derive(Clone, Copy, Debug, PartialEq, Eq)]
pub enum StateFault {
    /// Bytes of a field are missing.
    Short,
    /// The first byte names no version.
    Version,
    /// The field that begins at this place, from 0 at the frame's first byte, is out of its range.
    Field(usize),
    /// The length of a key or a member is above 1048576.
    Length,
    /// A key or a member is not above the one before it, or the site of an addition or a sum is
    /// not.
    Order,
    /// A member's hash gives another heap.
    WrongHeap,
    /// The counter of an addition is 0, or above the vector's counter of its site.
    Dot,
    /// The amount of a score is above 9007199254740992.
    Score,
    /// A sum is 0 where it is written with its site, or its amount is above 9007199254740992 times
    /// the vector's counter of the site.
    Total,
    /// Bytes follow the state.
    Rest,
    /// There was no memory for what was read.
    NoMemory,
}

impl From<AllocError> for StateFault {
    ghost use Rattle.std.specs.Prelude.{◌≡◌};
    ghost use Rattle.zq_merge.specs.declared.fault.StateFault.TheVariants.{NoMemory};

    ghost from_gives = { λ _ e. e ≡ NoMemory };

    fn from(_error: AllocError) -> StateFault {
        StateFault::NoMemory
    }
}

impl From<PartFault> for StateFault {
    ghost use Rattle.std.specs.Prelude.{◌≡◌};
    ghost use Rattle.zq_merge.specs.Reading.{fault_of};

    ghost from_gives = { λ part e. e ≡ fault_of part };

    fn from(part: PartFault) -> StateFault {
        match part {
            PartFault::Short => StateFault::Short,
            PartFault::Field(place) => StateFault::Field(place),
            PartFault::Length => StateFault::Length,
            PartFault::Score => StateFault::Score,
        }
    }
}
