//! Why a call on a log failed.
ghost use Rattle.std.specs.Prelude.{◌≡◌};
ghost use Rattle.zq_wal.specs.declared.error.WalError.TheVariants as errors;

use std::alloc::{AllocError, AllocFailed};

/// Why a call on a log failed.
#[derive(Clone, Copy, Debug, PartialEq, Eq)]
pub enum WalError {
    /// There was no memory.
    Memory,
    /// A call of the disk failed. What it did is not known: nothing more may be asked of the log.
    Failed,
    /// The file has damage that no crash leaves.
    Corrupt,
    /// The file has 2^60 records, or 2^60 bytes.
    Full,
    /// Who takes the records again has stopped.
    Stopped,
}

/// Who takes the records again stops.
#[derive(Clone, Copy, Debug, PartialEq, Eq)]
pub struct Stopped;

impl From<AllocError> for WalError {
    ghost from_gives = { λ _ e. e ≡ errors.Memory };

    fn from(_error: AllocError) -> WalError {
        WalError::Memory
    }
}

impl<T: Drop> From<AllocFailed<T>> for WalError {
    ghost from_gives = { λ _ e. e ≡ errors.Memory };

    fn from(_error: AllocFailed<T>) -> WalError {
        WalError::Memory
    }
}

impl From<Stopped> for WalError {
    ghost from_gives = { λ _ e. e ≡ errors.Stopped };

    fn from(_error: Stopped) -> WalError {
        WalError::Stopped
    }
}
