//! What was done on a site's disk.

ghost use Rattle.std.specs.Duration.{as_nanos};
ghost use Rattle.std.specs.Prelude.{◌≡◌};
ghost use Rattle.zq_metrics.specs.Durations.{IsAdded};
ghost use Rattle.zq_store.specs.Work as wanted;

use std::time::Duration;
use zq_keeper::Size;
use zq_metrics::Durations;

/// What was done on a site's disk since its log was opened. Each count begins again at 0 past the
/// last value of 64 bits.
#[derive(Clone, Copy, Debug)]
pub struct Work {
    /// How long each sync took of the log, or of a file that takes its place, with the write before
    /// it.
    pub syncs: Durations,
    /// How many bytes were written to these files, without escapes and zeros.
    pub written: u64,
    /// How many files took the log's place.
    pub switches: u64,
    /// How long the files were as they were looked at last.
    pub(crate) seen: Size,
}

impl Work {
    /// Nothing yet, at files that are so long.
    pub(crate) fn new(size: Size) -> Work
        ensures { result ≡ wanted.none_at size }
    {
        Work {
            syncs: Durations::none(),
            written: 0,
            switches: 0,
            seen: size,
        }
    }

    /// The files are so long by now. What they have more than they had was written.
    pub(crate) fn grow(&mut self, size: Size)
        ensures { self.new ≡ wanted.grown size self.old }
    {
        let log = size.log.saturating_sub(self.seen.log);
        let next = size.next.saturating_sub(self.seen.next);
        self.written = self.written.wrapping_add(log).wrapping_add(next);
        self.seen = size;
    }

    /// The next file is begun.
    pub(crate) fn begin_next(&mut self)
        ensures { self.new ≡ wanted.begun self.old }
    {
        self.seen.next = 0;
    }

    /// The next file has taken the log's place, so that the files are so long by now.
    pub(crate) fn switch(&mut self, size: Size)
        ensures { self.new ≡ wanted.switched size self.old }
    {
        self.switches = self.switches.wrapping_add(1);
        self.seen = size;
    }

    /// A sync took so long, with the write before it.
    pub(crate) fn sync(&mut self, took: Duration)
        ensures timed { IsAdded (wanted.within_64_bits (as_nanos took)) self.old.syncs
            self.new.syncs }
        ensures same { self.new ≡ record self.old { syncs = self.new.syncs } }
    {
        self.syncs.add(nanoseconds_of(took));
    }
}

/// The nanoseconds of a time, as many as 64 bits have.
fn nanoseconds_of(time: Duration) -> u64
    ensures { result ≡ wanted.within_64_bits (as_nanos time) }
{
    u64::try_from(time.as_nanos()).unwrap_or(u64::MAX)
}
