//! Why a call of a keeper failed.

use std::alloc::{AllocError, AllocFailed};
use zq_recovery::Refusal;
use zq_wal::WalError;

/// Why a call of a keeper failed.
#[derive(Clone, Copy, Debug, PartialEq, Eq)]
pub enum KeeperFault {
    /// There was no memory. Nothing was written, and the keeper is as it was.
    NoMemory,
    /// The entry would be refused when the log is read again. Nothing was written, and the keeper
    /// is as it was.
    Refused(Refusal),
    /// The log failed. What was written is not known, and the keeper has stopped.
    Failed(WalError),
    /// No switch is going on. The keeper is as it was.
    NoSwitch,
    /// The keeper had stopped before.
    Stopped,
}

impl From<AllocError> for KeeperFault {
    ghost use Rattle.std.specs.Prelude.{◌≡◌};
    ghost use Rattle.zq_keeper.specs.declared.fault.KeeperFault.TheVariants.{NoMemory};

    ghost from_gives = { λ _ e. e ≡ NoMemory };

    fn from(_error: AllocError) -> KeeperFault {
        KeeperFault::NoMemory
    }
}

impl<T: Drop> From<AllocFailed<T>> for KeeperFault {
    ghost use Rattle.std.specs.Prelude.{◌≡◌};
    ghost use Rattle.zq_keeper.specs.declared.fault.KeeperFault.TheVariants.{NoMemory};

    ghost from_gives = { λ _ e. e ≡ NoMemory };

    fn from(_error: AllocFailed<T>) -> KeeperFault {
        KeeperFault::NoMemory
    }
}

impl From<Refusal> for KeeperFault {
    ghost use Rattle.std.specs.Prelude.{◌≡◌};
    ghost use Rattle.zq_keeper.specs.declared.fault.KeeperFault.{KeeperFault};

    ghost from_gives = { λ r e. e ≡ KeeperFault.Refused r };

    fn from(refusal: Refusal) -> KeeperFault {
        KeeperFault::Refused(refusal)
    }
}
