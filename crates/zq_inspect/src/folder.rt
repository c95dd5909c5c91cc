//! Opening the log of a folder, to read it alone.

use std::alloc::{AllocError, Global};
use std::fs::OpenOptions;
use std::rt::Files;
use std::{fs, io};

/// Why the log of a folder is not read.
#[derive(Clone, Copy, Debug)]
pub enum NotOpened {
    /// What has the log's name is no regular file.
    NotAFile,
    /// The system refused something.
    Io(io::Error),
    /// There was no memory.
    Memory,
}

impl From<io::Error> for NotOpened {
    fn from(error: io::Error) -> NotOpened {
        NotOpened::Io(error)
    }
}

impl From<AllocError> for NotOpened {
    fn from(_error: AllocError) -> NotOpened {
        NotOpened::Memory
    }
}

/// Opens the log of the folder of this path for reading. Nothing is made or changed, and no link is
/// followed.
pub fn open_log<R: Files>(rt: &R, alloc: Global, folder: &str) -> Result<R::File, NotOpened> {
    let mut path = String::from_str(alloc, folder)?;
    path.push_str("/log")?;
    if !fs::symlink_metadata(rt, path.as_str())?.is_file() {
        return Err(NotOpened::NotAFile);
    }
    Ok(OpenOptions::new().read(true).open(rt, path.as_str())?)
}
