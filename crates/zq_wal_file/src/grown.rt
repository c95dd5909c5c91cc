//! A file that grows, with zeros on the disk behind what was written.

ghost use Rattle.std.specs.Prelude.{◌≡◌, ◌≤◌, IfOk};

use crate::FileFault;
use crate::past::Past;
use std::fs::File;
use std::io;
use std::os::unix::fs::FileExt;

/// How many zeros are written at once.
const ZEROS: usize = 1 << 16;

/// A file that grows. Zeros are written and synced ahead, so that a sync of what is written over
/// them changes no length of the file, and needs no room.
#[derive(Drop)]
pub(crate) struct Grown {
    pub(crate) file: File,
    /// Where what was written ends, and where the synced zeros behind it do.
    end: u64,
    room: u64,
    /// Something was written since the last sync.
    is_written: bool,
}

impl Grown {
    /// A file of so many bytes, all of them on the disk.
    pub(crate) fn new(file: File, end: u64) -> Grown {
        Grown {
            file,
            end,
            room: end,
            is_written: false,
        }
    }

    /// The file, as one that was the log before.
    pub(crate) fn into_past(self) -> Past {
        Past::new(self.file, self.room)
    }

    /// Writes these bytes behind the others.
    pub(crate) fn append(&mut self, bytes: &[u8]) -> Result<(), FileFault> {
        self.is_written = true;
        self.file.write_all_at(bytes, self.end)?;
        self.end = self.end.saturating_add(bytes.len() as u64);
        self.room = self.room.max(self.end);
        Ok(())
    }

    /// Cuts it to a length; no zeros are ahead then.
    pub(crate) fn cut(&mut self, len: u64) -> Result<(), FileFault> {
        self.file.set_len(len)?;
        self.end = len;
        self.room = len;
        Ok(())
    }

    /// Syncs what was written.
    pub(crate) fn sync_data(&mut self) -> Result<(), FileFault> {
        self.file.sync_data()?;
        self.is_written = false;
        Ok(())
    }

    /// Syncs all that is known of it.
    pub(crate) fn sync_all(&mut self) -> Result<(), FileFault> {
        self.file.sync_all()?;
        self.is_written = false;
        Ok(())
    }

    /// Has zeros on the disk behind what was written, so many at least, and says whether it has: it
    /// has not where the disk is full. Where there are too few, so many pieces are written at once.
    ///
    /// What was written is synced before: a sync that fails since the disk is full loses zeros
    /// alone, and those are written again before the next one.
    pub(crate) fn widen(&mut self, bytes: u64, pieces: u64) -> Result<bool, FileFault> {
        let wanted = self.end.saturating_add(bytes);
        if wanted <= self.room {
            return Ok(true);
        }
        if self.is_written {
            self.sync_data()?;
        }
        let ahead = pieces.saturating_mul(ZEROS as u64);
        let to = wanted.max(self.room.saturating_add(ahead));
        let room = write_zeros(&self.file, self.room, to)?;
        if unless_full(self.file.sync_all())? {
            self.room = room;
        }
        Ok(wanted <= self.room)
    }
}

/// Writes zeros from one place in a file to another, or as far as there is room, and says where
/// those end that came as whole pieces.
fn write_zeros(file: &File, from: u64, to: u64) -> Result<u64, FileFault>
    ensures { IfOk result (λ end. from ≤ end) }
{
    let zeros = [0u8; ZEROS];
    let mut end = from;
    for _ in 0..u64::MAX {
        if end >= to || !unless_full(file.write_all_at(&zeros, end))? {
            break;
        }
        end = end.saturating_add(ZEROS as u64);
    }
    Ok(end)
}

/// That it was done: `false` where the disk is full.
pub(crate) fn unless_full(done: io::Result<()>) -> Result<bool, FileFault> {
    match done {
        Ok(()) => Ok(true),
        Err(error) => match FileFault::from(error) {
            FileFault::Full => Ok(false),
            fault => Err(fault),
        },
    }
}
