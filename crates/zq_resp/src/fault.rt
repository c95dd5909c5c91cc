//! Why a reader stops, and what it had read before.

ghost use Rattle.std.specs.Prelude.{◌≡◌};

use crate::request::Request;
use std::alloc::{AllocError, AllocFailed};

/// Why a reader stops.
#[derive(Clone, Copy, Debug, PartialEq, Eq)]
pub enum FeedFault {
    /// The bytes up to here begin no request.
    Protocol,
    /// A count above 65,536, a word's length above 1,048,576, or a request of more than 16,777,216
    /// bytes.
    TooLong,
    /// An earlier call failed.
    Over,
    /// Memory for a word or a request was refused. It comes behind the line of a count of one word
    /// or more.
    NoMemory,
}

/// A fault, and the requests that ended before it in the same piece.
#[derive(Debug, Drop)]
pub struct FeedError {
    /// Why the reader stops.
    pub fault: FeedFault,
    /// The requests that ended in this piece before the fault; none where the fault is `Over`.
    pub before: Vec<Request>,
}

impl From<AllocError> for FeedFault {
    ghost use Rattle.std.specs.Prelude.{◌≡◌};
    ghost use Rattle.zq_resp.specs.declared.fault.FeedFault.TheVariants.{NoMemory};

    ghost from_gives = { λ _ e. e ≡ NoMemory };

    fn from(_error: AllocError) -> FeedFault {
        FeedFault::NoMemory
    }
}

impl<T: Drop> From<AllocFailed<T>> for FeedFault {
    ghost use Rattle.std.specs.Prelude.{◌≡◌};
    ghost use Rattle.zq_resp.specs.declared.fault.FeedFault.TheVariants.{NoMemory};

    ghost from_gives = { λ _ e. e ≡ NoMemory };

    fn from(_error: AllocFailed<T>) -> FeedFault {
        FeedFault::NoMemory
    }
}
