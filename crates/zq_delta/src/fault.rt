//! Why bytes are not read as an operation.

use std::alloc::AllocError;
use zq_fields::PartFault;

/// Why bytes are not read as an operation: the first field from the left that is missing or wrong.
#[derive(Clone, Copy, Debug, PartialEq, Eq)]
pub enum OpFault {
    /// Bytes of a field are missing.
    Short,
    /// The first byte names no version.
    Version,
    /// The field that begins at this place, from 0 at the frame's first byte, is out of its range.
    Field(usize),
    /// The length of a key or a member is above 1048576.
    Length,
    /// The amount of a score or an increment is above 9007199254740992.
    Score,
    /// The bytes begin with an operation, and there was no memory for its key or its member.
    NoMemory,
}

impl From<AllocError> for OpFault {
    ghost use Rattle.std.specs.Prelude.{◌≡◌};
    ghost use Rattle.zq_delta.specs.declared.fault.OpFault.TheVariants.{NoMemory};

    ghost from_gives = { λ _ e. e ≡ NoMemory };

    fn from(_error: AllocError) -> OpFault {
        OpFault::NoMemory
    }
}

impl From<PartFault> for OpFault {
    ghost use Rattle.std.specs.Prelude.{◌≡◌};
    ghost use Rattle.zq_delta.specs.Reading.{fault_of};

    ghost from_gives = { λ part e. e ≡ fault_of part };

    fn from(part: PartFault) -> OpFault {
        match part {
            PartFault::Short => OpFault::Short,
            PartFault::Field(place) => OpFault::Field(place),
            PartFault::Length => OpFault::Length,
            PartFault::Score => OpFault::Score,
        }
    }
}
