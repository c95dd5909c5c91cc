//! Why bytes are no frame.
use std::alloc::AllocError;
use zq_batch::BatchFault;
use zq_delta::OpFault;
use zq_fields::PartFault;
use zq_merge::StateFault;

/// Why bytes are not read as a frame: the first field from the left that is missing or wrong.
#[derive(Clone, Copy, Debug, PartialEq, Eq)]
pub enum FrameFault {
    /// Bytes of a field are missing.
    Short,
    /// The first byte names no kind.
    Kind,
    /// The field that begins at this place, from 0 at the frame's first byte, is out of its range.
    Field(usize),
    /// The operation of this number, from 0, has this fault. Places are counted from its own first
    /// byte.
    Op(u32, OpFault),
    /// The state has this fault. Places are counted from its own first byte.
    State(StateFault),
    /// Bytes follow the frame.
    Rest,
    /// There was no memory for the list of operations.
    NoMemory,
}

impl From<AllocError> for FrameFault {
    ghost use Rattle.std.specs.Prelude.{◌≡◌};
    ghost use Rattle.zq_links.specs.declared.frame_fault.FrameFault.TheVariants.{NoMemory};

    ghost from_gives = { λ _ e. e ≡ NoMemory };

    fn from(_error: AllocError) -> FrameFault {
        FrameFault::NoMemory
    }
}

impl From<PartFault> for FrameFault {
    ghost use Rattle.std.specs.Prelude.{◌≡◌};
    ghost use Rattle.zq_links.specs.Reading.{fault_of};

    ghost from_gives = { λ part e. e ≡ fault_of part };

    fn from(part: PartFault) -> FrameFault {
        match part {
            PartFault::Field(place) => FrameFault::Field(place),
            // A Have has no text and no score.
            PartFault::Short | PartFault::Length | PartFault::Score => FrameFault::Short,
        }
    }
}

impl From<BatchFault> for FrameFault {
    ghost use Rattle.std.specs.Prelude.{◌≡◌};
    ghost use Rattle.zq_links.specs.Batch as spec;

    ghost from_gives = { λ batch e. e ≡ spec.fault_of batch };

    fn from(batch: BatchFault) -> FrameFault {
        match batch {
            BatchFault::Short => FrameFault::Short,
            BatchFault::Field(place) => FrameFault::Field(place),
            BatchFault::Rest => FrameFault::Rest,
            BatchFault::NoMemory => FrameFault::NoMemory,
        }
    }
}
