//! Why a folder is not opened, and why a call on its files failed.

ghost use Rattle.std.specs.Prelude.{◌≡◌};
ghost use Rattle.zq_wal_file.specs.declared.fault.OpenFault.TheVariants.{Io};

use std::fmt;
use std::io::{self, ErrorKind};

/// Why the log of a folder is not opened. No file was changed, but that an empty log may have been
/// made, and a next file removed.
#[derive(Clone, Copy, Debug)]
pub enum OpenFault {
    /// Another process has the folder, or another call of `open` in this one.
    Busy,
    /// What has the log's name is no regular file with this one name.
    NotAFile,
    /// The system refused something.
    Io(io::Error),
}

/// Why a call on the files failed. What it did is not known.
#[derive(Clone, Copy, Debug)]
pub enum FileFault {
    /// The disk is full, or its owner's share of it.
    Full,
    /// The log is gone from its name: the folder was deleted or moved, or another file is there.
    Gone,
    /// No next file was begun.
    NotBegun,
    /// The system refused something else.
    Io(io::Error),
}

impl From<io::Error> for OpenFault {
    fn from(error: io::Error) -> OpenFault
        ensures { result ≡ Io error }
    {
        OpenFault::Io(error)
    }
}

impl From<io::Error> for FileFault {
    fn from(error: io::Error) -> FileFault {
        match error.kind() {
            ErrorKind::StorageFull | ErrorKind::QuotaExceeded => FileFault::Full,
            _ => FileFault::Io(error),
        }
    }
}

impl fmt::Display for OpenFault {
    fn fmt<W: fmt::Write>(&self, f: &mut fmt::Formatter<W>) -> fmt::Result {
        match self {
            OpenFault::Busy => f.write_str("another process has the folder"),
            OpenFault::NotAFile => f.write_str("the log is no regular file of one name"),
            OpenFault::Io(error) => write!(f, "{error}"),
        }
    }
}

impl fmt::Display for FileFault {
    fn fmt<W: fmt::Write>(&self, f: &mut fmt::Formatter<W>) -> fmt::Result {
        match self {
            FileFault::Full => f.write_str("the disk is full"),
            FileFault::Gone => f.write_str("the log is gone from its folder"),
            FileFault::NotBegun => f.write_str("no next file was begun"),
            FileFault::Io(error) => write!(f, "{error}"),
        }
    }
}
