//! How long a connection has been a stranger, and what it brought as one.

ghost use Rattle.std.specs.Prelude.{◌+◌, ◌-◌, ◌^◌, ◌<◌, ◌≡◌, ◌↔◌, IsSome, IsTrue, if◌then◌else◌, is_some, min};
ghost use Rattle.zq_loop.specs.Standing.{IsLate, begun, noted};

/// For so many seconds at most a connection is a stranger.
const PATIENCE: u64 = 10;

/// So many bytes at most it brings as one.
const MOST_BROUGHT: usize = 65_536;

/// Whether a connection is a stranger: one that has yet to show who it is. Since when it is one,
/// and how many bytes it brought since.
#[derive(Clone, Copy, Debug)]
pub struct Standing {
    since: Option<u64>,
    brought: usize,
}

impl Standing {
    /// Of a connection that comes at this time, in seconds.
    pub fn new(is_stranger: bool, now: u64) -> Standing
        ensures since { result.since ≡ begun is_stranger now }
        ensures brought { result.brought ≡ 0 }
    {
        Standing {
            since: if is_stranger { Some(now) } else { None },
            brought: 0,
        }
    }

    /// It brought so many bytes more. What is counted ends at the last `usize`.
    pub fn bring(&mut self, count: usize)
        ensures since { self.new.since ≡ self.old.since }
        ensures brought { self.new.brought ≡ min (self.old.brought + count) (2 ^ 64 - 1) }
    {
        self.brought = self.brought.saturating_add(count);
    }

    /// Whether it is a stranger now. Where it is not, all that it brought is forgotten.
    pub fn note(&mut self, is_stranger: bool, now: u64)
        ensures since { self.new.since ≡ noted is_stranger now self.old.since }
        ensures brought { self.new.brought ≡ (if is_stranger then self.old.brought else 0) }
    {
        if !is_stranger {
            self.since = None;
            self.brought = 0;
        } else if self.since.is_none() {
            self.since = Some(now);
        }
    }

    /// Whether it is a stranger.
    pub fn is_stranger(&self) -> bool
        ensures { result ≡ is_some self.now.since }
    {
        self.since.is_some()
    }

    /// Whether it is a stranger that brought more bytes than one may.
    pub fn has_too_much(&self) -> bool
        ensures { IsTrue result ↔ (IsSome self.now.since × (65536 < self.now.brought)) }
    {
        self.since.is_some() && self.brought > MOST_BROUGHT
    }

    /// Whether it has been a stranger for as many seconds as one may.
    pub fn is_late(&self, now: u64) -> bool
        ensures { IsTrue result ↔ IsLate self.now.since now }
    {
        match self.since {
            Some(since) => now.saturating_sub(since) >= PATIENCE,
            None => false,
        }
    }
}
