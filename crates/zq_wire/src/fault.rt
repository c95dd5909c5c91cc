//! Why a reader stops.
use std::alloc::{AllocError, AllocFailed};

/// Why a reader stops.
#[derive(Clone, Copy, Debug, PartialEq, Eq)]
pub enum StreamFault {
    /// A length is above the most that the reader allows.
    TooLong,
    /// Memory for a frame was refused.
    NoMemory,
    /// An earlier call failed.
    Over,
}

/// A fault, and the frames that ended before it in the same piece.
#[derive(Debug, Drop)]
pub struct StreamError {
    /// Why the reader stops.
    pub fault: StreamFault,
    /// The frames that ended in this piece before the fault; none where the fault is `Over`.
    pub before: Vec<Vec<u8>>,
}

impl From<AllocError> for StreamFault {
    ghost use Rattle.std.specs.Prelude.{◌≡◌};
    ghost use Rattle.zq_wire.specs.declared.fault.StreamFault.TheVariants.{NoMemory};

    ghost from_gives = { λ _ e. e ≡ NoMemory };

    fn from(_error: AllocError) -> StreamFault {
        StreamFault::NoMemory
    }
}

impl<T: Drop> From<AllocFailed<T>> for StreamFault {
    ghost use Rattle.std.specs.Prelude.{◌≡◌};
    ghost use Rattle.zq_wire.specs.declared.fault.StreamFault.TheVariants.{NoMemory};

    ghost from_gives = { λ _ e. e ≡ NoMemory };

    fn from(_error: AllocFailed<T>) -> StreamFault {
        StreamFault::NoMemory
    }
}
