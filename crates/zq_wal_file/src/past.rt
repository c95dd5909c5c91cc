//! A file that was the log before.

use crate::FileFault;
use std::fs::File;

/// How many bytes of it are freed at once: a mebibyte. To free a long file at once may take a tenth
/// of a second.
const FREED: u64 = 1_048_576;

/// A file that was the log before, and has no name any more. What it takes on the disk is freed
/// piece by piece.
#[derive(Drop)]
pub(crate) struct Past {
    file: File,
    /// How many bytes of it are left, or fewer.
    left: u64,
}

impl Past {
    /// A file of so many bytes.
    pub(crate) fn new(file: File, left: u64) -> Past {
        Past { file, left }
    }

    /// Frees its last bytes, and says whether some are left.
    pub(crate) fn free(&mut self) -> Result<bool, FileFault> {
        self.left = self.left.saturating_sub(FREED);
        self.file.set_len(self.left)?;
        Ok(self.left > 0)
    }
}
