//! What comes of a message.

ghost use Rattle.std.specs.Prelude.{Some};
ghost use Rattle.zq_log.specs.Intakes.{Follows};

use crate::backlog::Backlog;
use crate::kinds::{Kinds, kind_of};
use crate::line::line_of;
use crate::stamp::stamp_of;
use log::Level;
use std::alloc::Global;

/// A moment, by two clocks.
#[derive(Clone, Copy, Debug, PartialEq, Eq)]
pub struct Moment {
    /// Milliseconds since the beginning of 1970, as the line says.
    pub milli: u64,
    /// Milliseconds by a clock that does not go back, as the limits of lines are kept by.
    pub steady: u64,
}

/// Lines that wait, and the limits of those that come.
#[derive(Drop)]
pub struct Intake {
    pub kinds: Kinds,
    pub backlog: Backlog,
}

impl Intake {
    ghost use Rattle.std.specs.Prelude.{◌≡◌, []};
    ghost use Rattle.zq_log.specs.Intakes.{IsTakenIn};

    /// No lines.
    pub fn new(alloc: Global) -> Intake
        ensures kinds { result.kinds.known.items ≡ [] }
        ensures lines { (result.backlog.lines.items ≡ []) × (result.backlog.lost ≡ 0)
            × (result.backlog.dropped ≡ 0) }
    {
        Intake {
            kinds: Kinds::new(alloc),
            backlog: Backlog::new(alloc),
        }
    }

    /// A message comes, with pairs as they are written. Where its kind may have one more line now its line waits to be written, or
    /// is dropped and counted; else it is held back.
    pub fn take_in(
        &mut self,
        alloc: Global,
        moment: Moment,
        level: Level,
        message: &[u8],
        pairs: &[u8],
    )
        ensures { IsTakenIn moment level message.now pairs.now self.old self.new }
    {
        match self.kinds.admit(alloc, kind_of(message), moment.steady) {
            None => {}
            Some(more) => put_line(
                &mut self.backlog,
                alloc,
                moment,
                level,
                message,
                pairs,
                more,
            ),
        }
    }
}

/// The line of a message and its pairs, before which so many of its kind were held back, waits to be written, or
/// is dropped and counted.
fn put_line(
    backlog: &mut Backlog,
    alloc: Global,
    moment: Moment,
    level: Level,
    message: &[u8],
    pairs: &[u8],
    more: u64,
)
    ensures { Follows moment level message.now pairs.now (Some more) backlog.old backlog.new }
{
    match line_of(alloc, &stamp_of(moment.milli), level, message, pairs, more) {
        Ok(line) => backlog.put(line),
        Err(_) => backlog.lose(),
    }
}
