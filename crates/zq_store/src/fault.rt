//! Why a site's log on disk is not taken, or failed.

ghost use Rattle.std.specs.Prelude.{IfNone, IfSome, ◌≡◌};
ghost use Rattle.std.specs.IoError.{error_kind, raw_os_error};

use std::io;
use zq_entries::EntryFault;
use zq_keeper::KeeperFault;
use zq_recovery::Refusal;
use zq_serve::{Cause, DataFault, ServeFault};
use zq_wal_file::{FileFault, OpenFault};

/// What a fault of a site's log is to who serves.
pub(crate) fn of_data(fault: DataFault) -> ServeFault
    ensures { result ≡ ServeFault.Device (Cause.Data fault) }
{
    ServeFault::Device(Cause::Data(fault))
}

/// Why a folder was not opened.
pub(crate) fn of_open(fault: OpenFault) -> ServeFault {
    of_data(match fault {
        OpenFault::Busy => DataFault::Busy,
        OpenFault::NotAFile => DataFault::NotAFile,
        OpenFault::Io(error) => of_system(error),
    })
}

/// Why a call on the files failed, where one has.
pub(crate) fn of_files(fault: Option<FileFault>) -> ServeFault {
    of_data(match fault {
        Some(FileFault::Full) => DataFault::Full,
        Some(FileFault::Gone) => DataFault::Gone,
        Some(FileFault::Io(error)) => of_system(error),
        Some(FileFault::NotBegun) | None => DataFault::Unfit,
    })
}

/// What the system said: its number, where it gave one.
fn of_system(error: io::Error) -> DataFault
    ensures numbered { IfSome (raw_os_error error) (λ number.
        result ≡ DataFault.Numbered number) }
    ensures kind { IfNone (raw_os_error error) (result ≡ DataFault.System (error_kind error)) }
{
    match error.raw_os_error() {
        Some(number) => DataFault::Numbered(number),
        None => DataFault::System(error.kind()),
    }
}

/// Why the records of a log were refused.
pub(crate) fn of_refusal(refusal: Refusal) -> ServeFault {
    of_data(match refusal {
        Refusal::NoMemory | Refusal::Entry(EntryFault::NoMemory) => return ServeFault::NoMemory,
        Refusal::OtherSite => DataFault::OtherSite,
        Refusal::OtherHeaps => DataFault::OtherHeaps,
        Refusal::OtherRule => DataFault::OtherRule,
        Refusal::Entry(EntryFault::Format) => DataFault::OtherFormat,
        _ => DataFault::Unfit,
    })
}

/// Why a keeper's call failed, of whose files a call may have.
pub(crate) fn of_keeper(fault: KeeperFault, files: Option<FileFault>) -> ServeFault {
    match fault {
        KeeperFault::NoMemory => ServeFault::NoMemory,
        KeeperFault::Refused(refusal) => of_refusal(refusal),
        KeeperFault::Failed(_) | KeeperFault::Stopped => of_files(files),
        KeeperFault::NoSwitch => of_data(DataFault::Unfit),
    }
}
