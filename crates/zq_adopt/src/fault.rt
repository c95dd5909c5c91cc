//! Why a log was not adopted.

use std::alloc::AllocError;
use std::{fmt, io};
use zq_keeper::KeeperFault;
use zq_wal::WalError;
use zq_wal_file::{FileFault, OpenFault};

/// Why heaps were not written to a log. What was written is to be thrown away.
#[derive(Clone, Copy, Debug, PartialEq, Eq)]
pub enum WriteFault {
    /// The keeper of the log failed, or refused what it was to write.
    Keeper(KeeperFault),
    /// A heap has more members than pieces can bring, or the log has other operations than the
    /// heaps.
    Unlike,
}

/// Why a log was not adopted. What is in the new folder then no site takes.
#[derive(Clone, Copy, Debug)]
pub enum AdoptFault {
    /// There is something in the new folder. Nothing was changed.
    NotEmpty,
    /// The new folder cannot be made, opened or locked, or a file in it cannot be made or moved.
    Folder(OpenFault),
    /// A call on the files of the new log failed.
    Files(FileFault),
    /// The log that was written is not as the heaps are.
    Unlike,
    /// There was no memory.
    Memory,
}

impl From<io::Error> for AdoptFault {
    fn from(error: io::Error) -> AdoptFault {
        AdoptFault::Folder(OpenFault::Io(error))
    }
}

impl From<OpenFault> for AdoptFault {
    fn from(fault: OpenFault) -> AdoptFault {
        AdoptFault::Folder(fault)
    }
}

impl From<AllocError> for AdoptFault {
    fn from(_error: AllocError) -> AdoptFault {
        AdoptFault::Memory
    }
}

impl From<KeeperFault> for WriteFault {
    fn from(fault: KeeperFault) -> WriteFault {
        WriteFault::Keeper(fault)
    }
}

impl From<AllocError> for WriteFault {
    fn from(_error: AllocError) -> WriteFault {
        WriteFault::Keeper(KeeperFault::NoMemory)
    }
}

impl fmt::Display for AdoptFault {
    fn fmt<W: fmt::Write>(&self, f: &mut fmt::Formatter<W>) -> fmt::Result {
        match self {
            AdoptFault::NotEmpty => f.write_str("the folder is not empty"),
            AdoptFault::Folder(fault) => write!(f, "{fault}"),
            AdoptFault::Files(fault) => write!(f, "{fault}"),
            AdoptFault::Unlike => f.write_str("the log that was written is not as the old one"),
            AdoptFault::Memory => f.write_str("there was no memory"),
        }
    }
}

/// Why heaps were not written, of whose log a call may have failed for this reason.
pub(crate) fn of_write(fault: WriteFault, files: Option<FileFault>) -> AdoptFault {
    match fault {
        WriteFault::Keeper(KeeperFault::NoMemory) => AdoptFault::Memory,
        WriteFault::Keeper(_) | WriteFault::Unlike => of_files(files),
    }
}

/// Why a log was not read, a call on which may have failed for this reason.
pub(crate) fn of_wal(error: WalError, files: Option<FileFault>) -> AdoptFault {
    match error {
        WalError::Memory => AdoptFault::Memory,
        _ => of_files(files),
    }
}

/// Why the files of a log are not as they have to be, where a call on them failed or none did.
pub(crate) fn of_files(files: Option<FileFault>) -> AdoptFault {
    match files {
        Some(fault) => AdoptFault::Files(fault),
        None => AdoptFault::Unlike,
    }
}
