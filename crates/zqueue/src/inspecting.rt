//! Looking at the log of a folder.

ghost use Rattle.std.specs.Io.KnownBytes.{Appends};
ghost use Rattle.std.specs.Prelude.{OnOk, ◌≡◌};
ghost use Rattle.zqueue.specs.Inspected.{status_checked, status_inspected};

use crate::refusal::Refusal;
use std::alloc::Global;
use std::io;
use std::io::{ErrorKind, Write};
use std::random::RandomSource;
use std::rt::Files;
use zq_inspect::{
    Inspection, LogFile, NotOpened, State, fault_words, inspect, member_lines, members_of,
    open_log, report,
};
use zq_posheap::Seeded;
use zq_serve::draw_hasher;
use zq_server::ServeFault;
use zq_wal::WalError;

/// The statuses: the log is as it has to be, or it is not.
const YES: u8 = 0;

const NO: u8 = 1;

/// How often a log is read again in which damage was found.
const AGAIN: u32 = 8;

/// Says what the log in the folder of this path holds. The status is 0 where a site starts on it,
/// and 1 where none does, as it is damaged or has records that do not fit. A log that cannot be
/// read is a device that failed, and standard error says what the system said of it.
pub fn inspect_folder<R, W>(rt: &R, alloc: Global, path: &str, out: &mut W) -> Result<u8, Refusal>
where
    R: Files + RandomSource + Eprint,
    W: Write,
{
    let log = read_folder(rt, alloc, path)?;
    match report(alloc, &log) {
        Ok(text) => write_out(&text, out)?,
        Err(_) => return Err(Refusal::Memory),
    }
    Ok(status_inspected(log.state))
}

/// Says what is wrong with the log in the folder of this path, on standard error. The status is 0
/// where nothing is: all records fit, and nothing follows them; and else 1. A log that cannot be
/// read is as for `inspect_folder`.
pub fn check_folder<R>(rt: &R, alloc: Global, path: &str) -> Result<u8, Refusal>
where
    R: Files + RandomSource + Eprint,
{
    let log = read_folder(rt, alloc, path)?;
    tell_fault(rt, path, &log);
    Ok(status_checked(log.state))
}

/// Says which members of a key the log in the folder of this path holds, each with its score on a
/// line, in the order of ZRANGE. Where the log is not whole standard error says so, and the members
/// are those of the records before that. The status is as of `inspect_folder`.
pub fn list_members<R, W>(
    rt: &R,
    alloc: Global,
    path: &str,
    key: &[u8],
    out: &mut W,
) -> Result<u8, Refusal>
where
    R: Files + RandomSource + Eprint,
    W: Write,
{
    let log = read_folder(rt, alloc, path)?;
    tell_fault(rt, path, &log);
    let Ok(members) = members_of(alloc, log.stages(), key) else {
        return Err(Refusal::Memory);
    };
    match member_lines(alloc, &members) {
        Ok(text) => write_out(&text, out)?,
        Err(_) => return Err(Refusal::Memory),
    }
    Ok(status_inspected(log.state))
}

/// Reads the log in the folder of this path. Where it cannot be read standard error says why.
///
/// A site that writes meanwhile may have a record read in part, and a later one as a whole, which
/// is damage where nobody writes. So damage is told where it is found twice, one time after the
/// other, at the same byte.
pub(crate) fn read_folder<R>(rt: &R, alloc: Global, path: &str) -> Result<Inspection, Refusal>
where
    R: Files + RandomSource + Eprint,
{
    let mut log = read_once(rt, alloc, path)?;
    for _ in 0..AGAIN {
        if log.state != State::Damaged {
            break;
        }
        let before = log.place;
        log = read_once(rt, alloc, path)?;
        if log.place == before {
            break;
        }
    }
    Ok(log)
}

/// Reads it once.
fn read_once<R>(rt: &R, alloc: Global, path: &str) -> Result<Inspection, Refusal>
where
    R: Files + RandomSource + Eprint,
{
    let hasher = hasher_of(rt)?;
    let file = match open_log(rt, alloc, path) {
        Ok(file) => file,
        Err(why) => return Err(unopened(rt, path, why)),
    };
    let mut log = LogFile::new(file);
    match inspect(alloc, &mut log, hasher) {
        Ok(found) => Ok(found),
        Err(WalError::Memory) => Err(Refusal::Memory),
        Err(_) => {
            tell_error(rt, path, &log.error);
            Err(Refusal::Device)
        }
    }
}

/// A hasher of keys and members that strangers may have chosen. Where the system gives no seed
/// standard error says so.
pub(crate) fn hasher_of<R: RandomSource + Eprint>(rt: &R) -> Result<Seeded, Refusal> {
    match draw_hasher(rt) {
        Ok(hasher) => Ok(hasher),
        Err(fault) => {
            if let ServeFault::Device(cause) = &fault {
                let _ = eprintln!(rt; "zqueue: {cause}");
            }
            Err(Refusal::Device)
        }
    }
}

/// Standard error says what the system said as a log was read; where it said nothing the log has as
/// many bytes as can be counted.
fn tell_error<R: Eprint>(rt: &R, path: &str, error: &Option<io::Error>) {
    let _ = match error {
        Some(error) => eprintln!(rt; "zqueue: {path}/log: {error}"),
        None => eprintln!(rt; "zqueue: {path}/log: the log is too long"),
    };
}

/// How the program refuses a log that was not opened, of which standard error says why.
fn unopened<R: Eprint>(rt: &R, path: &str, why: NotOpened) -> Refusal {
    match why {
        NotOpened::Memory => return Refusal::Memory,
        NotOpened::NotAFile => {
            let _ = eprintln!(rt; "zqueue: {path}/log: the log is no regular file");
        }
        NotOpened::Io(error) => {
            if error.kind() == ErrorKind::OutOfMemory {
                return Refusal::Memory;
            }
            let _ = eprintln!(rt; "zqueue: {path}/log: {error}");
        }
    }
    Refusal::Device
}

/// Standard error says what is wrong with the log, where anything is.
pub(crate) fn tell_fault<R: Eprint>(rt: &R, path: &str, log: &Inspection) {
    if let Some(words) = fault_words(log.state) {
        let place = log.place;
        let _ = eprintln!(rt; "zqueue: {path}/log: {words}, at byte {place}");
    }
}

/// Writes this, or says that a device failed.
pub(crate) fn write_out<W: Write>(text: &[u8], out: &mut W) -> Result<(), Refusal>
    ensures { OnOk result (Appends (W.contents out.old) (W.contents out.new) text.now) }
{
    match out.write_all(text) {
        Ok(()) => Ok(()),
        Err(_) => Err(Refusal::Device),
    }
}

/// The status of a log that was looked at: whether a site starts on it.
fn status_inspected(state: State) -> u8
    ensures { result ≡ status_inspected state }
{
    match state {
        State::Whole | State::Torn | State::Empty => YES,
        State::Damaged | State::Refused(_) => NO,
    }
}

/// The status of a log that was checked: whether it is whole.
fn status_checked(state: State) -> u8
    ensures { result ≡ status_checked state }
{
    match state {
        State::Whole => YES,
        State::Torn | State::Empty | State::Damaged | State::Refused(_) => NO,
    }
}
