//! Adopting the log of a folder by another site.

use crate::inspecting::{hasher_of, read_folder, tell_fault, write_out};
use crate::refusal::Refusal;
use std::alloc::Global;
use std::fs::{File, TryLockError};
use std::io::Write;
use std::random::RandomSource;
use std::rt::Files;
use zq_adopt::{AdoptFault, Heir, Unfit, adopt, adopted_line, judge};
use zq_dots::SiteNo;
use zq_entries::FOLDER;
use zq_inspect::{Inspection, State};
use zq_keeper::Reader;
use zq_wal_file::OpenFault;

/// The statuses: the folder was made, or it was not and nothing was changed.
const YES: u8 = 0;

const NO: u8 = 1;

/// Makes the folder `new` of this site, with all that the log in the folder `old` holds, and says in
/// a line what was made. The status is 0 then.
///
/// The status is 1, standard error says why, and nothing was changed, where no site starts on the
/// log or it has no record, where it is of this site or has operations of it, and where there is
/// something in the folder `new`. A folder `old` that another process has, a log that cannot be
/// read, and a folder `new` that cannot be made or written are a device that failed: standard error
/// says which, and what of the second is left then is refused by each start of a site.
///
/// The log of a site that runs is refused, which `inspect_folder` reads: what is read of it may not
/// be on the disk yet, so that the site may lose it, and make other operations of those names.
pub fn adopt_folder<R, W>(
    rt: &R,
    alloc: Global,
    old: &str,
    new: &str,
    site: SiteNo,
    out: &mut W,
) -> Result<u8, Refusal>
where
    R: Files<File = File> + RandomSource + Eprint + Alloc<A = Global> + Clone + Drop,
    W: Write,
{
    let _held = hold(rt, old)?;
    let log = read_folder(rt, alloc, old)?;
    let Some(reader) = reader_of(&log) else {
        tell_fault(rt, old, &log);
        return Ok(NO);
    };
    if let Err(why) = judge(reader, site) {
        tell_unfit(rt, old, site, why);
        return Ok(NO);
    }
    let heir = Heir {
        path: new,
        site,
        folder: draw(rt)?,
    };
    let adopted = match adopt(rt, alloc, reader, heir, hasher_of(rt)?) {
        Ok(adopted) => adopted,
        Err(fault) => return unmade(rt, new, fault),
    };
    match adopted_line(alloc, &adopted) {
        Ok(line) => write_out(line.as_bytes(), out)?,
        Err(_) => return Err(Refusal::Memory),
    }
    Ok(YES)
}

/// Keeps sites out of the folder of this path as long as what is returned is there. Where that cannot
/// be standard error says why.
fn hold<R: Files<File = File> + Eprint>(rt: &R, path: &str) -> Result<File, Refusal> {
    match held(rt, path) {
        Ok(folder) => Ok(folder),
        Err(fault) => {
            let _ = eprintln!(rt; "zqueue: {path}/log: {fault}");
            Err(Refusal::Device)
        }
    }
}

/// The folder of this path, with a lock that others who read it may have too.
fn held<R: Files<File = File>>(rt: &R, path: &str) -> Result<File, OpenFault> {
    let folder = File::open(rt, path)?;
    match folder.try_lock_shared() {
        Ok(()) => Ok(folder),
        Err(TryLockError::WouldBlock) => Err(OpenFault::Busy),
        Err(TryLockError::Error(error)) => Err(OpenFault::Io(error)),
    }
}

/// Bytes that name a new folder, which no other has. Where the system gives none standard error says
/// so.
fn draw<R: RandomSource + Eprint>(rt: &R) -> Result<[u8; FOLDER], Refusal> {
    let mut bytes = [0; FOLDER];
    match rt.fill_bytes(&mut bytes) {
        Ok(()) => Ok(bytes),
        Err(error) => {
            let kind = error.kind();
            let _ = eprintln!(rt; "zqueue: the system gives no random bytes: {kind}");
            Err(Refusal::Device)
        }
    }
}

/// The heaps of a log on which a site starts, where it has any.
fn reader_of(log: &Inspection) -> Option<&Reader> {
    match log.state {
        State::Whole | State::Torn => log.reader.as_ref(),
        State::Empty | State::Damaged | State::Refused(_) => None,
    }
}

/// Standard error says why the log in the folder of this path is not adopted by this site.
fn tell_unfit<R: Eprint>(rt: &R, path: &str, site: SiteNo, why: Unfit) {
    let site = site.value();
    let _ = match why {
        Unfit::NotWhole => eprintln!(rt; "zqueue: {path}/log: pieces of a heap are missing"),
        Unfit::OwnNumber => eprintln!(rt; "zqueue: {path}/log: the log is of site {site} itself"),
        Unfit::UsedNumber => {
            eprintln!(rt; "zqueue: {path}/log: the log has operations of site {site}")
        }
    };
}

/// What comes of a folder of this path that was not made, of which standard error says why.
fn unmade<R: Eprint>(rt: &R, path: &str, fault: AdoptFault) -> Result<u8, Refusal> {
    if let AdoptFault::Memory = fault {
        return Err(Refusal::Memory);
    }
    let _ = eprintln!(rt; "zqueue: {path}: {fault}");
    match fault {
        AdoptFault::NotEmpty => Ok(NO),
        _ => Err(Refusal::Device),
    }
}
