//! Why bytes are no batch.

use std::alloc::AllocError;
use zq_fields::PartFault;

/// Why bytes are not read as a batch: the first field from the left that is missing or wrong.
#[derive(Clone, Copy, Debug, PartialEq, Eq)]
pub enum BatchFault {
    /// Bytes of a field are missing.
    Short,
    /// The field that begins at this place, from 0 at the batch's first byte, is out of its range,
    /// or is not in its one spelling.
    Field(usize),
    /// Bytes follow the batch.
    Rest,
    /// There was no memory for the operations.
    NoMemory,
}

impl From<AllocError> for BatchFault {
    ghost use Rattle.std.specs.Prelude.{◌≡◌};
    ghost use Rattle.zq_batch.specs.declared.fault.BatchFault.TheVariants.{NoMemory};

    ghost from_gives = { λ _ e. e ≡ NoMemory };

    fn from(_error: AllocError) -> BatchFault {
        BatchFault::NoMemory
    }
}

impl From<PartFault> for BatchFault {
    ghost use Rattle.std.specs.Prelude.{◌≡◌};
    ghost use Rattle.zq_batch.specs.Reading.{fault_of};

    ghost from_gives = { λ part e. e ≡ fault_of part };

    fn from(part: PartFault) -> BatchFault {
        match part {
            PartFault::Field(place) => BatchFault::Field(place),
            // A batch has a fault of a length or of a score by its place.
            PartFault::Short | PartFault::Length | PartFault::Score => BatchFault::Short,
        }
    }
}
