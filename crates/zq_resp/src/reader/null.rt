//! The second spelling of no words, byte by byte.

ghost use Rattle.zq_resp.specs.Null.{NullStep};

use crate::fault::FeedFault;
use crate::reader::progress::Progress;

/// `-1` CR LF, the second spelling of a count of no words, as far as it has been read.
#[derive(Clone, Copy, Debug, PartialEq, Eq)]
pub enum Null {
    /// The minus.
    Minus,
    /// The minus and the digit.
    One,
    /// The minus, the digit and CR.
    Ended,
}

impl Null {
    /// Reads one byte more.
    pub fn step(self, byte: u8) -> Result<Progress<Null, ()>, FeedFault>
        ensures { NullStep self byte result }
    {
        match (self, byte) {
            (Null::Minus, b'1') => Ok(Progress::More(Null::One)),
            (Null::One, b'\r') => Ok(Progress::More(Null::Ended)),
            (Null::Ended, b'\n') => Ok(Progress::Whole(())),
            _ => Err(FeedFault::Protocol),
        }
    }
}
