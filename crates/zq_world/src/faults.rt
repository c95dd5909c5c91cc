//! Why a world is not played, and why a site does not answer.

use std::alloc::AllocError;

/// Why a list of events is not played.
#[derive(Clone, Copy, Debug, PartialEq, Eq)]
pub enum PlayFault {
    /// The number of sites is not 1 to 64, or that of heaps not 2 to 16.
    Bounds,
    /// The event at this place names what does not exist then.
    NoSuch(usize),
    /// There was no memory for an event.
    NoMemory,
}

/// Why a site does not answer.
#[derive(Clone, Copy, Debug, PartialEq, Eq)]
pub enum AnswerFault {
    /// The world has no site of this number.
    NoSuch,
    /// The request names none of the commands that only read.
    NotReading,
    /// There was no memory for the answer.
    NoMemory,
}

impl From<AllocError> for PlayFault {
    ghost use Rattle.std.specs.Prelude.{◌≡◌};
    ghost use Rattle.zq_world.specs.declared.faults.PlayFault.TheVariants.{NoMemory};

    ghost from_gives = { λ _ fault. fault ≡ NoMemory };

    fn from(_error: AllocError) -> PlayFault {
        PlayFault::NoMemory
    }
}

impl From<AllocError> for AnswerFault {
    ghost use Rattle.std.specs.Prelude.{◌≡◌};
    ghost use Rattle.zq_world.specs.declared.faults.AnswerFault.TheVariants.{NoMemory};

    ghost from_gives = { λ _ fault. fault ≡ NoMemory };

    fn from(_error: AllocError) -> AnswerFault {
        AnswerFault::NoMemory
    }
}
