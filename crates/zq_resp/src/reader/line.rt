//! A number on a line, byte by byte.

ghost use Rattle.std.specs.Prelude.{◌<◌, ◌≤◌, ◌^◌};
ghost use Rattle.zq_resp.specs.declared.reader.line.Line.TheVariants as line;
ghost use Rattle.zq_resp.specs.Line.{IsLine, LineStep};

use crate::fault::FeedFault;
use crate::reader::progress::Progress;

/// A number on a line of its own, as far as it has been read: `0`, or digits of which the first is
/// not `0`, then CR LF.
#[derive(Clone, Copy, Debug, PartialEq, Eq)]
pub enum Line {
    /// Nothing.
    Start,
    /// Digits that make this number.
    Digits(usize),
    /// The digits of this number, and CR.
    Ended(usize),
}

impl Line {
    /// Reads one byte more. The digit that makes a number above the limit is answered `TooLong`.
    pub fn step(self, limit: usize, byte: u8) -> Result<Progress<Line, usize>, FeedFault>
        requires low { 9 ≤ limit }
        requires high { limit < 2 ^ 32 }
        requires within { IsLine limit self }
        ensures { LineStep limit self byte result }
    {
        match self {
            Line::Start => match byte {
                b'0'..=b'9' => Ok(Progress::More(Line::Digits((byte - b'0') as usize))),
                _ => Err(FeedFault::Protocol),
            },
            Line::Digits(number) => digit(number, limit, byte),
            Line::Ended(number) => match byte {
                b'\n' => Ok(Progress::Whole(number)),
                _ => Err(FeedFault::Protocol),
            },
        }
    }
}

fn digit(number: usize, limit: usize, byte: u8) -> Result<Progress<Line, usize>, FeedFault>
    requires high { limit < 2 ^ 32 }
    requires within { number ≤ limit }
    ensures { LineStep limit (line.Digits number) byte result }
{
    match byte {
        b'\r' => Ok(Progress::More(Line::Ended(number))),
        b'0'..=b'9' if number > 0 => {
            let longer = number * 10 + (byte - b'0') as usize;
            if longer > limit {
                return Err(FeedFault::TooLong);
            }
            Ok(Progress::More(Line::Digits(longer)))
        }
        _ => Err(FeedFault::Protocol),
    }
}
