//! What a call looks for while it locks its heaps.

use zq_ticketlock::TryFault;

/// The greatest stamp that was found so far, and whether the call may work: one that pops needs a
/// member of its key.
#[derive(Clone, Copy)]
pub(crate) struct LockScan {
    pub(crate) stamp: u64,
    pub(crate) is_enough: bool,
}

/// Why a call works in none of its heaps.
#[derive(Clone, Copy, PartialEq, Eq, Debug)]
pub(crate) enum Stop {
    /// A lock or the stamp is at its last value.
    Worn,
    /// Another thread holds one of the heaps or waits for it, or did so just now.
    Busy,
    /// No heap has a member of the key.
    Nothing,
}

impl From<TryFault> for Stop {
    ghost use Rattle.std.specs.Prelude.{◌≡◌};
    ghost use Rattle.zq_spread.specs.Worn.{stop_of};

    ghost from_gives = { λ fault stop. stop ≡ stop_of fault };

    fn from(fault: TryFault) -> Stop {
        match fault {
            TryFault::Worn => Stop::Worn,
            TryFault::Busy => Stop::Busy,
        }
    }
}
