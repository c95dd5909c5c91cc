//! A folder that is locked, and the files in it.

use crate::{FileFault, OpenFault};
use std::fs::{File, OpenOptions, TryLockError};
use std::os::fd::AsRawFd;
use std::os::unix::fs::{MetadataExt, OpenOptionsExt};
use std::rt::Files;
use std::{fs, io};

/// Who may read and write what is made: its owner.
const MODE: u32 = 0o600;

/// Opens a folder and keeps other processes out of it.
pub(crate) fn lock_folder<R: Files<File = File>>(rt: &R, path: &str) -> Result<File, OpenFault> {
    let folder = File::open(rt, path)?;
    match folder.try_lock() {
        Ok(()) => Ok(folder),
        Err(TryLockError::WouldBlock) => Err(OpenFault::Busy),
        Err(TryLockError::Error(error)) => Err(OpenFault::Io(error)),
    }
}

/// Opens the log, or makes an empty one. No link is followed.
pub(crate) fn open_log<R: Files<File = File>>(rt: &R, path: &str) -> Result<File, OpenFault> {
    let log = match make(rt, path) {
        Err(error) if error.kind() == io::ErrorKind::AlreadyExists => open_there(rt, path)?,
        made => made?,
    };
    let found = log.metadata()?;
    if !found.is_file() || found.nlink() != 1 || !has_name(rt, &log, path)? {
        return Err(OpenFault::NotAFile);
    }
    Ok(log)
}

/// Opens a regular file.
fn open_there<R: Files<File = File>>(rt: &R, path: &str) -> Result<File, OpenFault> {
    if !fs::symlink_metadata(rt, path)?.is_file() {
        return Err(OpenFault::NotAFile);
    }
    let file = OpenOptions::new().read(true).write(true).open(rt, path)?;
    Ok(above_streams(file)?)
}

/// Makes a file that is not there.
pub(crate) fn make<R: Files<File = File>>(rt: &R, path: &str) -> io::Result<File> {
    let file = OpenOptions::new()
        .read(true)
        .write(true)
        .create_new(true)
        .mode(MODE)
        .open(rt, path)?;
    above_streams(file)
}

/// The file by a descriptor that is none of the standard streams': where one of those is closed,
/// what is written to it must not land in the file.
fn above_streams(file: File) -> io::Result<File> {
    if file.as_raw_fd() <= 2 {
        file.try_clone()
    } else {
        Ok(file)
    }
}

/// Removes a file, if there is one.
pub(crate) fn remove<R: Files<File = File>>(rt: &R, path: &str) -> io::Result<()> {
    match fs::remove_file(rt, path) {
        Err(error) if error.kind() != io::ErrorKind::NotFound => Err(error),
        _ => Ok(()),
    }
}

/// Whether this file has this name.
fn has_name<R: Files<File = File>>(rt: &R, file: &File, path: &str) -> io::Result<bool> {
    let found = file.metadata()?;
    match fs::symlink_metadata(rt, path) {
        Ok(named) => Ok(found.dev() == named.dev() && found.ino() == named.ino()),
        Err(error) if error.kind() == io::ErrorKind::NotFound => Ok(false),
        Err(error) => Err(error),
    }
}

/// That this file has this name: it is `Gone` where it has not.
pub(crate) fn check_name<R: Files<File = File>>(
    rt: &R,
    file: &File,
    path: &str,
) -> Result<(), FileFault> {
    if has_name(rt, file, path)? {
        Ok(())
    } else {
        Err(FileFault::Gone)
    }
}

/// Has the kernel forget what it holds of a file, so that it is read from the disk.
pub(crate) fn drop_pages(file: &File) -> io::Result<()> {
    match libc::posix_fadvise(file.as_raw_fd(), 0, 0, libc::POSIX_FADV_DONTNEED) {
        0 => Ok(()),
        error => Err(io::Error::from_raw_os_error(error)),
    }
}
