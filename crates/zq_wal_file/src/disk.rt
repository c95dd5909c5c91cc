//! A disk of real files. Each method makes the calls that it notes, and notes them with their
//! answer.
ghost use Rattle.std.specs.Prelude.{◌≡◌, [], IfOk, length};
ghost use Rattle.zq_wal.specs.Disk.{Only};
ghost use Rattle.zq_wal_file.specs.Events.{IsAtEnd, LeftSince, MayLeave, NextLeft, counts_now_of, only_now_of, replay};
ghost use Rattle.zq_wal_file.specs.FileDisk.{IsRead, given_of, left_of, seen_of};

use crate::files::LogFiles;
use crate::record::Record;
use crate::{FileFault, OpenFault};
use std::fs::File;
use std::rt::Files;
use zq_wal::{Behind, Disk, Source, WalError};

// Which call is noted.
const READ: u64 = 0;

const APPENDED: u64 = 1;

const CUT: u64 = 2;

const SYNCED: u64 = 3;

const NEXT_BEGUN: u64 = 4;

const NEXT_APPENDED: u64 = 5;

const NEXT_SYNCED: u64 = 6;

const PUBLISHED: u64 = 7;

const WIDENED: u64 = 8;

/// The log of a folder as it is found. It is read before anything else is asked of it.
#[derive(Drop)]
pub struct FoundLog<R: Files<File = File> + Drop> {
    files: LogFiles<R>,
    record: Record,
}

/// A disk of real files.
#[derive(Drop)]
pub struct FileDisk<R: Files<File = File> + Drop> {
    files: LogFiles<R>,
    record: Record,
}

/// Opens the log of a folder, or makes one: the folder's path, the log's, and that of the next
/// file, both in the folder. A next file that is there is removed. `ahead` says how many zeros are
/// written ahead at once, in pieces of 64 KiB.
pub fn open<R: Files<File = File> + Drop>(
    rt: R,
    folder: &str,
    log_path: String,
    next_path: String,
    ahead: u64,
) -> Result<FoundLog<R>, OpenFault>
    ensures { IfOk result (λ log. given_of log ≡ []) }
{
    let files = LogFiles::open(rt, folder, log_path, next_path, ahead)?;
    Ok(FoundLog {
        files,
        record: Record::new(),
    })
}

impl<R: Files<File = File> + Drop> FoundLog<R> {
    /// The disk whose log has what was read, to its end, all of it on the disk.
    pub fn into_disk(self) -> FileDisk<R>
        requires { IsRead self }
        ensures log { seen_of result ≡ given_of self }
        ensures durable { Only (seen_of result) (left_of result) }
    {
        let FoundLog { files, record } = self;
        FileDisk { files, record }
    }

    /// Why reading has failed, if it has.
    pub fn fault(&self) -> Option<FileFault>
        ensures { result ≡ self.now.files.fault }
    {
        self.files.fault
    }
}

impl<R: Files<File = File> + Drop> FileDisk<R> {
    /// Why a call has failed, if one has. No other call is made then: each one is `Failed`.
    pub fn fault(&self) -> Option<FileFault>
        ensures { result ≡ self.now.files.fault }
    {
        self.files.fault
    }
}

impl<R: Files<File = File> + Drop> Source for FoundLog<R> {
    ghost given = { λ f. (replay f.record.events).seen };

    ghost at_end = { λ f. IsAtEnd f.record.events };

    ghost failures = { λ f. (replay f.record.events).faults };

    fn read(&mut self, piece: &mut [u8]) -> Result<usize, WalError> {
        let len = piece.len() as u64;
        let Ok(n) = self.files.read(piece) else {
            self.record.note(&[READ, len, 0], &[]);
            return Err(WalError::Failed);
        };
        self.record.note(&[READ, len, 1], &piece[..n]);
        Ok(n)
    }
}

impl<R: Files<File = File> + Drop> Disk for FileDisk<R> {
    ghost seen = { λ d. (replay d.record.events).seen };

    ghost may_leave = { λ d c. MayLeave d.record.events c };

    ghost staged = { λ d. (replay d.record.events).staged };

    ghost staged_may_leave = { λ d c. NextLeft d.record.events c };

    ghost moment = { λ d. length d.record.events };

    ghost left_since = { λ d t c. LeftSince d.record.events t c };

    ghost faults = { λ d. (replay d.record.events).faults };

    ghost counts_now = { λ d t c le now. counts_now_of d.record.events t c le now };

    ghost only_now = { λ d c left. only_now_of d.record.events c left };

    fn append(&mut self, bytes: &[u8]) -> Result<(), WalError> {
        if self.files.append(bytes).is_err() {
            self.record.note(&[APPENDED, 0, 0], bytes);
            return Err(WalError::Failed);
        }
        self.record.note(&[APPENDED, 0, 1], bytes);
        Ok(())
    }

    fn cut(&mut self, len: usize) -> Result<(), WalError> {
        if self.files.cut(len).is_err() {
            self.record.note(&[CUT, len as u64, 0], &[]);
            return Err(WalError::Failed);
        }
        self.record.note(&[CUT, len as u64, 1], &[]);
        Ok(())
    }

    fn sync(&mut self) -> Result<(), WalError> {
        if self.files.sync().is_err() {
            self.record.note(&[SYNCED, 0, 0], &[]);
            return Err(WalError::Failed);
        }
        self.record.note(&[SYNCED, 0, 1], &[]);
        Ok(())
    }

    fn begin_next(&mut self) -> Result<(), WalError> {
        if self.files.begin_next().is_err() {
            self.record.note(&[NEXT_BEGUN, 0, 0], &[]);
            return Err(WalError::Failed);
        }
        self.record.note(&[NEXT_BEGUN, 0, 1], &[]);
        Ok(())
    }

    fn append_next(&mut self, bytes: &[u8]) -> Result<(), WalError> {
        if self.files.append_next(bytes).is_err() {
            self.record.note(&[NEXT_APPENDED, 0, 0], bytes);
            return Err(WalError::Failed);
        }
        self.record.note(&[NEXT_APPENDED, 0, 1], bytes);
        Ok(())
    }

    fn sync_next(&mut self) -> Result<(), WalError> {
        if self.files.sync_next().is_err() {
            self.record.note(&[NEXT_SYNCED, 0, 0], &[]);
            return Err(WalError::Failed);
        }
        self.record.note(&[NEXT_SYNCED, 0, 1], &[]);
        Ok(())
    }

    fn publish_next(&mut self) -> Result<(), WalError> {
        if self.files.publish_next().is_err() {
            self.record.note(&[PUBLISHED, 0, 0], &[]);
            return Err(WalError::Failed);
        }
        self.record.note(&[PUBLISHED, 0, 1], &[]);
        Ok(())
    }

    fn room(&mut self, behind: Behind, bytes: u64) -> Result<bool, WalError> {
        let Ok(has_room) = self.files.room(behind, bytes) else {
            self.record.note(&[WIDENED, bytes, 0], &[]);
            return Err(WalError::Failed);
        };
        self.record.note(&[WIDENED, bytes, 1], &[]);
        Ok(has_room)
    }
}
