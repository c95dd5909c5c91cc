//! How long a log is, and when it is switched.

ghost use Rattle.std.specs.Prelude.{◌≡◌};
ghost use Rattle.zq_keeper.specs.Size as spec;

/// A log that is no longer than this is not switched: 64 MiB.
const SHORT: u64 = 67_108_864;

/// What a record has beside the bytes of its entry: floor, checksum and end mark.
const AROUND: u64 = 17;

/// How long the files are, in bytes, where what is escaped is not counted.
#[derive(Clone, Copy, Debug, PartialEq, Eq)]
pub struct Size {
    /// The log.
    pub log: u64,
    /// The next file.
    pub next: u64,
    /// What the log was after the last switch.
    pub left: u64,
}

impl Size {
    /// A log of so many bytes, as it was found. A switch waits until it is twice as long.
    pub fn found(log: u64) -> Size
        ensures { result ≡ record { log = log; next = 0; left = log } }
    {
        Size {
            log,
            next: 0,
            left: log,
        }
    }

    /// Whether the log is longer than 64 MiB and than twice what the last switch left.
    pub fn is_long(&self) -> bool
        ensures { result ≡ spec.is_long self.now }
    {
        self.log > SHORT && self.log.saturating_sub(self.left) > self.left
    }

    /// So many bytes of an entry came into the log.
    pub(crate) fn add(&mut self, bytes: usize) {
        self.log = self.log.saturating_add(bytes as u64).saturating_add(AROUND);
    }

    /// So many bytes of an entry came into the next file.
    pub(crate) fn add_next(&mut self, bytes: usize) {
        self.next = self
            .next
            .saturating_add(bytes as u64)
            .saturating_add(AROUND);
    }

    /// The next file is begun.
    pub(crate) fn begin_next(&mut self) {
        self.next = 0;
    }

    /// The next file is the log.
    pub(crate) fn publish_next(&mut self) {
        self.log = self.next;
        self.left = self.next;
        self.next = 0;
    }
}
