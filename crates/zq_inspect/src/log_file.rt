//! The bytes of a log, as they are read of an open file.
ghost use Rattle.std.specs.Prelude.{◌≡◌, ◌+◌, ◌<◌, ◌^◌, [], length};
ghost use Rattle.zq_inspect.specs.Bytes.{IsAtEnd, failures_in, given_by, used_from, used_of};

use crate::answers::Answers;
use std::io;
use std::io::Read;
use zq_wal::{Source, WalError};

// Whether a read is noted as one that failed.
const FAILED: u64 = 0;

const READ: u64 = 1;

/// The bytes of a log, as they are read of an open file from its first byte on.
#[derive(Drop)]
pub struct LogFile<F: Read + Drop> {
    file: F,
    /// Why a read failed, if one has.
    pub error: Option<io::Error>,
    /// How many bytes were read.
    pub total: u64,
    /// The place behind the last of them that is not 0.
    pub used: u64,
    pub(crate) answers: Answers,
    ghost total_is: { total ≡ length (given_by answers.events) },
    ghost used_is: { used ≡ used_of (given_by answers.events) },
}

impl<F: Read + Drop> LogFile<F> {
    /// A file of which nothing was read yet.
    pub fn new(file: F) -> LogFile<F>
        ensures { given_by result.answers.events ≡ [] }
    {
        LogFile {
            file,
            error: None,
            total: 0,
            used: 0,
            answers: Answers::new(),
        }
    }
}

/// The place behind the last byte that is not 0, where these bytes stand at this place, and that of
/// those before is given.
fn used_behind(at: u64, used: u64, bytes: &[u8]) -> u64
    requires { at + length bytes.now < 2 ^ 64 }
    ensures { result ≡ used_from at used bytes.now }
{
    let mut at = at;
    let mut used = used;
    for byte in bytes {
        at += 1;
        if *byte != 0 {
            used = at;
        }
    }
    used
}

impl<F: Read + Drop> Source for LogFile<F> {
    ghost given = { λ f. given_by f.answers.events };

    ghost at_end = { λ f. IsAtEnd f.answers.events };

    ghost failures = { λ f. failures_in f.answers.events };

    fn read(&mut self, piece: &mut [u8]) -> Result<usize, WalError> {
        let room = piece.len() as u64;
        let n = match self.file.read(piece) {
            Ok(n) => n,
            Err(error) => {
                self.error = Some(error);
                self.answers.note(&[FAILED, room], &[]);
                return Err(WalError::Failed);
            }
        };
        let Some(total) = self.total.checked_add(n as u64) else {
            self.answers.note(&[FAILED, room], &[]);
            return Err(WalError::Failed);
        };
        let used = used_behind(self.total, self.used, &piece[..n]);
        self.total = total;
        self.used = used;
        self.answers.note(&[READ, room], &piece[..n]);
        Ok(n)
    }
}
