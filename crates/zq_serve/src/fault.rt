//! Why serving stopped.

ghost use Rattle.std.specs.Prelude.{◌≡◌, ◌≢◌};

use std::alloc::AllocError;
use std::fmt;
use std::io::{self, ErrorKind};
use std::net::SocketAddr;

/// Why the sites were not served, or not announced.
#[derive(Clone, Copy, Debug, PartialEq, Eq)]
pub enum ServeFault {
    /// This failed of the system.
    Device(Cause),
    /// There was no memory for the sites.
    NoMemory,
    /// Another run used the number of the site.
    Fenced,
}

/// What failed of the system, and what it said.
#[derive(Clone, Copy, Debug, PartialEq, Eq)]
pub enum Cause {
    /// This address could not be listened on.
    Address(SocketAddr, ErrorKind),
    /// A thread could not be started.
    Thread,
    /// What says that sites are served could not be written.
    Output,
    /// There were no random bytes.
    Random(ErrorKind),
    /// The folder of a site's log is not taken, or its log failed.
    Data(DataFault),
}

/// Why the folder of a site's log is not taken, or its log failed.
#[derive(Clone, Copy, Debug, PartialEq, Eq)]
pub enum DataFault {
    /// Another process has the folder.
    Busy,
    /// What has the log's name is no regular file of this one name.
    NotAFile,
    /// The system refused something, by this number of its own.
    Numbered(i32),
    /// The system refused something, and gave no number.
    System(ErrorKind),
    /// The disk is full.
    Full,
    /// The log is gone from its folder.
    Gone,
    /// The log has damage that no crash leaves.
    Damaged,
    /// The log was written by a newer version.
    OtherFormat,
    /// The log is of another site.
    OtherSite,
    /// The log is of a site with another number of heaps.
    OtherHeaps,
    /// The log is of a site with another rule.
    OtherRule,
    /// The log has records that do not follow from those before them.
    Unfit,
}

impl From<AllocError> for ServeFault {
    ghost use Rattle.std.specs.Prelude.{◌≡◌};
    ghost use Rattle.zq_serve.specs.declared.fault.ServeFault.{ServeFault};

    ghost from_gives = { λ _ fault. fault ≡ ServeFault.NoMemory };

    fn from(_error: AllocError) -> ServeFault {
        ServeFault::NoMemory
    }
}

impl fmt::Display for Cause {
    /// What failed, on one line.
    fn fmt<W: fmt::Write>(&self, f: &mut fmt::Formatter<W>) -> fmt::Result {
        match self {
            Cause::Address(address, kind) => write!(f, "cannot listen on {address}: {kind}"),
            Cause::Thread => f.write_str("cannot start a thread"),
            Cause::Output => f.write_str("cannot write to standard output"),
            Cause::Random(kind) => write!(f, "the system gives no random bytes: {kind}"),
            Cause::Data(fault) => write!(f, "{fault}"),
        }
    }
}

impl fmt::Display for DataFault {
    /// Why, on one line. What the system refused by a number has the system's words, and the number.
    fn fmt<W: fmt::Write>(&self, f: &mut fmt::Formatter<W>) -> fmt::Result {
        match self {
            DataFault::Busy => f.write_str("another process has the folder"),
            DataFault::NotAFile => f.write_str("the log is no regular file of one name"),
            DataFault::Numbered(number) => {
                let said = io::Error::from_raw_os_error(*number);
                write!(f, "{said}")
            }
            DataFault::System(kind) => write!(f, "{kind}"),
            DataFault::Full => f.write_str("the disk is full"),
            DataFault::Gone => f.write_str("the log is gone from its folder"),
            DataFault::Damaged => f.write_str("the log is damaged"),
            DataFault::OtherFormat => f.write_str("the log is of a newer version"),
            DataFault::OtherSite => f.write_str("the log is of another site"),
            DataFault::OtherHeaps => {
                f.write_str("the log is of a site with another number of heaps")
            }
            DataFault::OtherRule => f.write_str("the log is of a site with another rule"),
            DataFault::Unfit => f.write_str("the log has records that do not fit"),
        }
    }
}

/// What a fault is of an error of this kind at an address that was to be listened on.
pub fn fault_of(address: SocketAddr, kind: ErrorKind) -> ServeFault
    ensures memory { kind ≡ ErrorKind.OutOfMemory → result ≡ ServeFault.NoMemory }
    ensures device { kind ≢ ErrorKind.OutOfMemory →
        result ≡ ServeFault.Device (Cause.Address address kind) }
{
    match kind {
        ErrorKind::OutOfMemory => ServeFault::NoMemory,
        _ => ServeFault::Device(Cause::Address(address, kind)),
    }
}
