//! The calls on the log's file and the next file, none of which is made once one has failed.

ghost use Rattle.std.specs.Prelude.{◌≡◌, ◌≤◌, IfErr, IfOk, IfSome, None, OnOk, Some, length};

use crate::folder::{check_name, drop_pages, lock_folder, make, open_log, remove};
use crate::grown::{Grown, unless_full};
use crate::past::Past;
use crate::{FileFault, OpenFault};
use std::fs;
use std::fs::File;
use std::io::{self, ErrorKind, Read};
use std::mem::replace;
use std::rt::Files;
use zq_wal::Behind;

/// How many pieces of zeros are written ahead at once in the next file: a mebibyte.
const NEXT_AHEAD: u64 = 16;

/// The log's file, the next file and their folder.
#[derive(Drop)]
pub struct LogFiles<R: Files<File = File> + Drop> {
    rt: R,
    folder: File,
    log_path: String,
    next_path: String,
    log: Grown,
    /// The next file, or zeros that it is to be written over.
    next: Option<Grown>,
    /// The file that was the log before, as far as it is not freed yet.
    past: Option<Past>,
    /// Whether the next file was begun.
    is_begun: bool,
    /// How many pieces of zeros are written ahead at once in the log.
    ahead: u64,
    /// The log was cut or has taken its name since the last sync.
    moved: bool,
    /// Why a call failed: no other is made then.
    pub(crate) fault: Option<FileFault>,
}

impl<R: Files<File = File> + Drop> LogFiles<R> {
    /// Opens the folder, locks it, and opens the log in it, or makes one. What a failed sync of an
    /// earlier process may have left other than the disk has it is dropped, and so is a next file.
    pub(crate) fn open(
        rt: R,
        folder_path: &str,
        log_path: String,
        next_path: String,
        ahead: u64,
    ) -> Result<LogFiles<R>, OpenFault> {
        let folder = lock_folder(&rt, folder_path)?;
        let log = open_log(&rt, log_path.as_str())?;
        remove(&rt, next_path.as_str())?;
        log.sync_all()?;
        folder.sync_all()?;
        drop_pages(&log)?;
        Ok(LogFiles {
            rt,
            folder,
            log_path,
            next_path,
            log: Grown::new(log, 0),
            next: None,
            past: None,
            is_begun: false,
            ahead,
            moved: false,
            fault: None,
        })
    }

    /// Reads the log's next bytes; none at its end. A read that a signal interrupts is made again.
    pub(crate) fn read(&mut self, piece: &mut [u8]) -> Result<usize, FileFault>
        ensures within { IfOk result (λ n. n ≤ length piece.new) }
        ensures over { IfSome self.old.fault
            (λ f. IfOk result (λ n. ⊥) × (self.new.fault ≡ Some f)) }
    {
        if let Some(fault) = self.fault {
            return Err(fault);
        }
        match read_uninterrupted(&mut self.log.file, piece) {
            Ok(n) => Ok(n),
            Err(error) => Err(self.fail(FileFault::from(error))),
        }
    }

    /// A call failed for this reason.
    fn fail(&mut self, fault: FileFault) -> FileFault
        ensures kept { self.new.fault ≡ Some fault }
        ensures same { result ≡ fault }
    {
        self.fault = Some(fault);
        fault
    }

    /// What a call has answered is kept, if it failed.
    fn keep(&mut self, done: Result<(), FileFault>) -> Result<(), FileFault>
        ensures same { result ≡ done }
        ensures failed { IfErr result (λ f. self.new.fault ≡ Some f) }
        ensures done { OnOk result (self.new.fault ≡ self.old.fault) }
    {
        if let Err(fault) = done {
            self.fault = Some(fault);
        }
        done
    }

    /// Writes these bytes behind the records.
    pub(crate) fn append(&mut self, bytes: &[u8]) -> Result<(), FileFault>
        ensures over { IfSome self.old.fault
            (λ f. (result ≡ Err f) × (self.new.fault ≡ Some f)) }
        ensures failed { IfErr result (λ f. self.new.fault ≡ Some f) }
    {
        if let Some(fault) = self.fault {
            return Err(fault);
        }
        let done = self.write_behind(bytes);
        self.keep(done)
    }

    /// Cuts the log to a length; no zeros are ahead then.
    pub(crate) fn cut(&mut self, len: usize) -> Result<(), FileFault>
        ensures over { IfSome self.old.fault
            (λ f. (result ≡ Err f) × (self.new.fault ≡ Some f)) }
        ensures failed { IfErr result (λ f. self.new.fault ≡ Some f) }
    {
        if let Some(fault) = self.fault {
            return Err(fault);
        }
        let done = self.shorten(len);
        self.keep(done)
    }

    /// Syncs the log, and its name where that is new.
    pub(crate) fn sync(&mut self) -> Result<(), FileFault>
        ensures over { IfSome self.old.fault
            (λ f. (result ≡ Err f) × (self.new.fault ≡ Some f)) }
        ensures failed { IfErr result (λ f. self.new.fault ≡ Some f) }
    {
        if let Some(fault) = self.fault {
            return Err(fault);
        }
        let done = self.flush();
        self.keep(done)
    }

    /// Makes the next file, in place of one that is there.
    pub(crate) fn begin_next(&mut self) -> Result<(), FileFault>
        ensures over { IfSome self.old.fault
            (λ f. (result ≡ Err f) × (self.new.fault ≡ Some f)) }
        ensures failed { IfErr result (λ f. self.new.fault ≡ Some f) }
    {
        if let Some(fault) = self.fault {
            return Err(fault);
        }
        let done = self.make_next();
        self.keep(done)
    }

    /// Writes these bytes behind the end of the next file.
    pub(crate) fn append_next(&mut self, bytes: &[u8]) -> Result<(), FileFault>
        ensures over { IfSome self.old.fault
            (λ f. (result ≡ Err f) × (self.new.fault ≡ Some f)) }
        ensures failed { IfErr result (λ f. self.new.fault ≡ Some f) }
    {
        if let Some(fault) = self.fault {
            return Err(fault);
        }
        let done = self.write_next(bytes);
        self.keep(done)
    }

    /// Syncs the next file.
    pub(crate) fn sync_next(&mut self) -> Result<(), FileFault>
        ensures over { IfSome self.old.fault
            (λ f. (result ≡ Err f) × (self.new.fault ≡ Some f)) }
        ensures failed { IfErr result (λ f. self.new.fault ≡ Some f) }
    {
        if let Some(fault) = self.fault {
            return Err(fault);
        }
        let done = self.flush_next();
        self.keep(done)
    }

    /// The next file takes the log's name, which is synced with the log.
    pub(crate) fn publish_next(&mut self) -> Result<(), FileFault>
        ensures over { IfSome self.old.fault
            (λ f. (result ≡ Err f) × (self.new.fault ≡ Some f)) }
        ensures failed { IfErr result (λ f. self.new.fault ≡ Some f) }
    {
        if let Some(fault) = self.fault {
            return Err(fault);
        }
        let done = self.rename_next();
        self.keep(done)
    }

    /// Has room for so many bytes more behind the end of the log, or of the next file, and says
    /// whether it has: it has not where the disk is full, which is no failure.
    pub(crate) fn room(&mut self, behind: Behind, bytes: u64) -> Result<bool, FileFault>
        ensures over { IfSome self.old.fault
            (λ f. (result ≡ Err f) × (self.new.fault ≡ Some f)) }
        ensures failed { IfErr result (λ f. self.new.fault ≡ Some f) }
        ensures done { OnOk result (self.new.fault ≡ self.old.fault) }
    {
        if let Some(fault) = self.fault {
            return Err(fault);
        }
        match self.widen(behind, bytes) {
            Ok(has_room) => Ok(has_room),
            Err(fault) => Err(self.fail(fault)),
        }
    }

    /// Has zeros ahead, and says whether they are there. A piece of what was the log before is freed
    /// first, and all of it where there is no room.
    fn widen(&mut self, behind: Behind, bytes: u64) -> Result<bool, FileFault>
        ensures { self.new.fault ≡ self.old.fault }
    {
        self.free_piece()?;
        let has_room = self.widen_one(behind, bytes)?;
        if has_room || self.past.is_none() {
            return Ok(has_room);
        }
        self.past = None;
        self.widen_one(behind, bytes)
    }

    /// Frees a piece of the file that was the log before.
    fn free_piece(&mut self) -> Result<(), FileFault>
        ensures { self.new.fault ≡ self.old.fault }
    {
        let is_left = match &mut self.past {
            Some(past) => past.free()?,
            None => return Ok(()),
        };
        if !is_left {
            self.past = None;
        }
        Ok(())
    }

    /// Has zeros ahead in a file, and says whether they are there.
    fn widen_one(&mut self, behind: Behind, bytes: u64) -> Result<bool, FileFault>
        ensures { self.new.fault ≡ self.old.fault }
    {
        match behind {
            Behind::Log => self.log.widen(bytes, self.ahead),
            Behind::Next => self.widen_next(bytes),
        }
    }

    /// Has zeros ahead in the next file. Where none was begun they are what it is to be written
    /// over; if they are too few then the file is removed, so that the log has its room.
    fn widen_next(&mut self, bytes: u64) -> Result<bool, FileFault>
        ensures { self.new.fault ≡ self.old.fault }
    {
        if self.next.is_none() && !self.make_spare()? {
            return Ok(false);
        }
        let has_room = match &mut self.next {
            Some(next) => next.widen(bytes, NEXT_AHEAD)?,
            None => false,
        };
        if !has_room && !self.is_begun {
            self.next = None;
            remove(&self.rt, self.next_path.as_str())?;
        }
        Ok(has_room)
    }

    /// Makes the file that a next file is to be written over, and says whether there was room.
    fn make_spare(&mut self) -> Result<bool, FileFault>
        ensures { self.new.fault ≡ self.old.fault }
    {
        remove(&self.rt, self.next_path.as_str())?;
        match make(&self.rt, self.next_path.as_str()) {
            Ok(file) => {
                self.is_begun = false;
                self.next = Some(Grown::new(file, 0));
                Ok(true)
            }
            Err(error) => unless_full(Err(error)),
        }
    }

    /// Writes behind the records, where zeros are ahead.
    fn write_behind(&mut self, bytes: &[u8]) -> Result<(), FileFault> {
        if !self.log.widen(bytes.len() as u64, self.ahead)? {
            return Err(FileFault::Full);
        }
        self.log.append(bytes)
    }

    fn shorten(&mut self, len: usize) -> Result<(), FileFault> {
        self.log.cut(len as u64)?;
        self.moved = true;
        Ok(())
    }

    /// Syncs the log; where it was cut, or has a new name, all that is known of it, and the folder.
    fn flush(&mut self) -> Result<(), FileFault> {
        if self.moved {
            self.log.sync_all()?;
            self.folder.sync_all()?;
            self.moved = false;
        } else {
            self.log.sync_data()?;
        }
        self.check_log()
    }

    /// That the log has its name.
    fn check_log(&self) -> Result<(), FileFault> {
        check_name(&self.rt, &self.log.file, self.log_path.as_str())
    }

    /// Begins the next file, over the zeros that there are for it, if none was begun before.
    fn make_next(&mut self) -> Result<(), FileFault> {
        self.check_log()?;
        if self.is_begun || self.next.is_none() {
            self.is_begun = false;
            self.next = None;
            remove(&self.rt, self.next_path.as_str())?;
            let file = make(&self.rt, self.next_path.as_str())?;
            self.next = Some(Grown::new(file, 0));
        }
        self.is_begun = true;
        Ok(())
    }

    fn write_next(&mut self, bytes: &[u8]) -> Result<(), FileFault> {
        match &mut self.next {
            Some(next) if self.is_begun => next.append(bytes),
            _ => Err(FileFault::NotBegun),
        }
    }

    fn flush_next(&mut self) -> Result<(), FileFault> {
        match &mut self.next {
            Some(next) if self.is_begun => next.sync_all(),
            _ => Err(FileFault::NotBegun),
        }
    }

    fn rename_next(&mut self) -> Result<(), FileFault> {
        self.check_log()?;
        if !self.is_begun {
            return Err(FileFault::NotBegun);
        }
        let Some(next) = self.next.take() else {
            return Err(FileFault::NotBegun);
        };
        fs::rename(&self.rt, self.next_path.as_str(), self.log_path.as_str())?;
        let past = replace(&mut self.log, next);
        self.past = Some(past.into_past());
        self.is_begun = false;
        self.moved = true;
        Ok(())
    }
}

/// Reads a file's next bytes; none at its end. Where a signal interrupts the call it is made again.
fn read_uninterrupted(file: &mut File, piece: &mut [u8]) -> io::Result<usize>
    ensures { IfOk result (λ n. n ≤ length piece.new) }
{
    for _ in 0..u64::MAX {
        match file.read(piece) {
            Err(error) if error.kind() == ErrorKind::Interrupted => {}
            done => return done,
        }
    }
    Err(ErrorKind::Interrupted.into())
}
