//! What a site refuses.
use std::alloc::AllocError;
use zq_ticketlock::TryFault;

/// Why a site was not made.
#[derive(Clone, Copy, PartialEq, Eq, Debug, Drop)]
pub enum SiteFault {
    /// A site has 2 to 16 heaps and 1 to 128 passes.
    Bounds,
    /// No memory was left.
    NoMemory,
}

/// Why a heap was not read.
#[derive(Clone, Copy, Debug, PartialEq, Eq)]
pub enum ReadFault {
    /// The heap's lock or the stamp is at its last value.
    Worn,
    /// A growth was refused.
    NoMemory,
}

impl From<AllocError> for ReadFault {
    ghost use Rattle.std.specs.Prelude.{◌≡◌};
    ghost use Rattle.zq_spread.specs.declared.faults.ReadFault.{ReadFault};

    ghost from_gives = { λ _ fault. fault ≡ ReadFault.NoMemory };

    fn from(_error: AllocError) -> ReadFault {
        ReadFault::NoMemory
    }
}

/// Why a heap was not held.
#[derive(Clone, Copy, Debug, PartialEq, Eq)]
pub enum HoldFault {
    /// The heap's lock is at its last value.
    Worn,
    /// Another thread holds the heap or waits for it, or did so just now.
    Busy,
}

impl From<TryFault> for HoldFault {
    ghost use Rattle.std.specs.Prelude.{◌≡◌};
    ghost use Rattle.zq_spread.specs.Worn.{hold_of};

    ghost from_gives = { λ fault held. held ≡ hold_of fault };

    fn from(fault: TryFault) -> HoldFault {
        match fault {
            TryFault::Worn => HoldFault::Worn,
            TryFault::Busy => HoldFault::Busy,
        }
    }
}

/// Why nothing of what a site was asked at once was done.
#[derive(Clone, Copy, Debug, PartialEq, Eq)]
pub enum EachFault {
    /// A heap's lock or the stamp is at its last value.
    Worn,
    /// A growth was refused.
    NoMemory,
}

/// Why nothing of what a site was asked while something was watched was done.
#[derive(Clone, Copy, Debug, PartialEq, Eq)]
pub enum WatchFault {
    /// Something that is watched was changed, or may have been.
    Touched,
    /// A heap's lock or the stamp is at its last value.
    Worn,
    /// A growth was refused.
    NoMemory,
}

/// Another thread holds a heap of the call or waits for it, or did so just now.
#[derive(Clone, Copy, Debug, PartialEq, Eq)]
pub struct Busy;
