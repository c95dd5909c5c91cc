//! The new folder.

ghost use Rattle.std.specs.Prelude.{IfOk, [], ◌≡◌};
ghost use Rattle.zq_wal_file.specs.FileDisk.{given_of};

use crate::fault::AdoptFault;
use std::alloc::{AllocError, Global};
use std::fs::{DirBuilder, File, TryLockError};
use std::io::ErrorKind;
use std::os::unix::fs::DirBuilderExt;
use std::rt::Files;
use std::{fs, io};
use zq_wal_file::{FoundLog, OpenFault};

/// Who may enter and list a folder that is made: its owner.
const MODE: u32 = 0o700;

/// How many pieces of 64 KiB of zeros are written ahead at once.
const AHEAD: u64 = 1;

/// The new folder of a log, which other processes are kept out of while the log is made.
#[derive(Drop)]
pub(crate) struct NewFolder<'a> {
    folder: File,
    path: &'a str,
}

impl<'a> NewFolder<'a> {
    /// Makes the folder of this path, where there is none, and in it one in the place of the log.
    ///
    /// `NotEmpty`, `Folder`, `Memory`.
    pub(crate) fn make<R>(rt: &R, alloc: Global, path: &'a str) -> Result<NewFolder<'a>, AdoptFault>
    where
        R: Files<File = File> + Alloc<A = Global> + Clone + Drop,
    {
        let is_new = make_folder(rt, path)?;
        if !is_empty(rt, path)? {
            return Err(AdoptFault::NotEmpty);
        }
        let folder = lock_folder(rt, path)?;
        let new = NewFolder { folder, path };
        if is_new {
            sync_folder(rt, new.inside(alloc, "/..")?.as_str())?;
        }
        let place = new.inside(alloc, "/log")?;
        DirBuilder::new().mode(MODE).create(rt, place.as_str())?;
        new.folder.sync_all()?;
        Ok(new)
    }

    /// The log of no record in the folder that is in the place of the log.
    pub(crate) fn open<'d, N: Files<File = File>>(
        &self,
        rt: &'d N,
        alloc: Global,
    ) -> Result<FoundLog<&'d N>, AdoptFault>
        ensures { IfOk result (λ log. given_of log ≡ []) }
    {
        let place = self.inside(alloc, "/log")?;
        let log = self.inside(alloc, "/log/log")?;
        let next = self.inside(alloc, "/log/log.next")?;
        match zq_wal_file::open(rt, place.as_str(), log, next, AHEAD) {
            Ok(log) => Ok(log),
            Err(fault) => Err(AdoptFault::Folder(fault)),
        }
    }

    /// Has the log, which is whole and on the disk, take the place of the folder that it is in.
    pub(crate) fn finish<R: Files<File = File>>(
        &self,
        rt: &R,
        alloc: Global,
    ) -> Result<(), AdoptFault> {
        let place = self.inside(alloc, "/log")?;
        let log = self.inside(alloc, "/log/log")?;
        let made = self.inside(alloc, "/log.made")?;
        fs::rename(rt, log.as_str(), made.as_str())?;
        fs::remove_dir(rt, place.as_str())?;
        fs::rename(rt, made.as_str(), place.as_str())?;
        self.folder.sync_all()?;
        Ok(())
    }

    /// The path of the folder with this behind it.
    fn inside(&self, alloc: Global, name: &str) -> Result<String, AllocError> {
        let mut whole = String::from_str(alloc, self.path)?;
        whole.push_str(name)?;
        Ok(whole)
    }
}

/// Makes the folder of this path, and says whether it did: it did not where something is there.
fn make_folder<R: Files<File = File>>(rt: &R, path: &str) -> io::Result<bool> {
    match DirBuilder::new().mode(MODE).create(rt, path) {
        Ok(()) => Ok(true),
        Err(error) if error.kind() == ErrorKind::AlreadyExists => Ok(false),
        Err(error) => Err(error),
    }
}

/// Opens a folder and keeps other processes out of it.
fn lock_folder<R: Files<File = File>>(rt: &R, path: &str) -> Result<File, OpenFault> {
    let folder = File::open(rt, path)?;
    match folder.try_lock() {
        Ok(()) => Ok(folder),
        Err(TryLockError::WouldBlock) => Err(OpenFault::Busy),
        Err(TryLockError::Error(error)) => Err(OpenFault::Io(error)),
    }
}

/// Whether there is nothing in a folder.
fn is_empty<R>(rt: &R, path: &str) -> io::Result<bool>
where
    R: Files + Alloc<A = Global> + Clone + Drop,
{
    let mut names = fs::read_dir(rt, path)?;
    match names.next() {
        None => Ok(true),
        Some(Ok(_)) => Ok(false),
        Some(Err(error)) => Err(error),
    }
}

/// Brings the names in a folder to the disk.
fn sync_folder<R: Files<File = File>>(rt: &R, path: &str) -> io::Result<()> {
    let folder = File::open(rt, path)?;
    folder.sync_all()
}
