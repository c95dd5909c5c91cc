//! What logs into a queue.

use crate::intake::Moment;
use crate::pairs::push_pair;
use crate::queue::LogQueue;
use log::kv::{Source, Value, VisitSource};
use log::span::Spans;
use log::{Log, Metadata, Record, kv};
use std::alloc::Global;
use std::fmt::Display;
use std::io;
use std::sync::Wait;
use std::time::{Clock, Duration};

/// Puts the line of each record into a queue: its time, its level, its message and its pairs. A
/// record's target and spans are not written. It never waits for a device.
#[derive(Drop)]
pub struct QueueLog<'a, R: Wait + Clock> {
    rt: &'a R,
    alloc: Global,
    queue: &'a LogQueue,
}

impl<'a, R: Wait + Clock> QueueLog<'a, R> {
    /// One for this queue.
    pub fn new(rt: &'a R, alloc: Global, queue: &'a LogQueue) -> QueueLog<'a, R> {
        QueueLog { rt, alloc, queue }
    }
}

impl<R: Wait + Clock> Log for QueueLog<'_, R> {
    ghost use Rattle.std.specs.Prelude.{Some, [], true};

    ghost enables = { λ _ _ _. Some true };

    ghost target_of = { λ _. Some [] };

    fn enabled(&self, _metadata: &Metadata<'_>) -> bool {
        true
    }

    fn log<D: Display, K: Source, S: Spans>(&self, record: &Record<'_, D, K, S>) {
        let moment = now(self.rt);
        let mut pairs = Pairs::new(self.alloc);
        let visited = record.key_values().visit(&mut pairs);
        match String::format(self.alloc, record.args()) {
            Ok(message) if visited.is_ok() => {
                let (message, pairs) = (message.as_bytes(), pairs.bytes.as_slice());
                self.queue
                    .log(self.rt, moment, record.level(), message, pairs)
            }
            Ok(_) | Err(_) => self.queue.lose(self.rt),
        }
    }

    fn flush(&self) {}

    fn target(&self) -> &str {
        ""
    }
}

/// The bytes of a record's pairs.
#[derive(Drop)]
struct Pairs {
    alloc: Global,
    bytes: Vec<u8>,
}

impl Pairs {
    ghost use Rattle.std.specs.Prelude.{◌≡◌, []};

    /// Of no pairs.
    fn new(alloc: Global) -> Pairs
        ensures { result.bytes.items ≡ [] }
    {
        Pairs {
            alloc,
            bytes: Vec::new(alloc),
        }
    }
}

impl VisitSource for Pairs {
    ghost use Rattle.std.specs.Prelude.{◌++◌, ◌≡◌};
    ghost use Rattle.zq_log.specs.Pairs.{pair};

    ghost visit_pair_gives = { λ old p new. new.bytes.items ≡ old.bytes.items ++ pair p.0 p.1 };

    /// Appends a pair. Fails where there is no memory for it.
    fn visit_pair<D: Display>(&mut self, key: &str, value: Value<'_, D>) -> Result<(), kv::Error> {
        let Ok(text) = String::format(self.alloc, &value) else {
            return Err(kv::Error::Fmt);
        };
        match push_pair(&mut self.bytes, key.as_bytes(), text.as_bytes()) {
            Ok(()) => Ok(()),
            Err(_) => Err(kv::Error::Fmt),
        }
    }
}

/// What the clocks say. A clock that fails, or is past the year 9999, says 0.
pub(crate) fn now<R: Clock>(rt: &R) -> Moment {
    Moment {
        milli: millis(rt.since_1970()),
        steady: millis(rt.monotonic()),
    }
}

/// The milliseconds of a time; 0 where it is not known, or they do not fit 64 bits.
fn millis(time: io::Result<Duration>) -> u64 {
    match time {
        Ok(time) => u64::try_from(time.as_millis()).unwrap_or(0),
        Err(_) => 0,
    }
}
