//! How far a switch of a site's log to another file is.

use zq_transfer::Sending;
use zq_wire::MOST_HEAPS;

/// The life of the streams of pieces in a file: each file has one of each heap.
const LIFE: u64 = 1;

/// A switch of the log that was done.
#[derive(Clone, Copy, Debug, PartialEq, Eq)]
pub struct Switched {
    /// How many bytes the log had.
    pub was: u64,
    /// How many it has.
    pub bytes: u64,
}

/// A switch, as far as it went: the heaps before this one are in the next file.
#[derive(Drop)]
pub(crate) struct Switch {
    pub(crate) heap: u8,
    /// Whether a copy of this heap was begun.
    pub(crate) is_begun: bool,
    pub(crate) sending: Sending,
    /// Of each heap whose copy was begun whether it had jumped until then: the log has it not as
    /// operations.
    pub(crate) jumped: [bool; MOST_HEAPS],
    /// How long the next file was when it was synced last, and when room ahead was asked for last.
    pub(crate) flushed: u64,
    pub(crate) widened: u64,
    /// Whether it was synced since all copies are in it.
    pub(crate) is_settled: bool,
}

impl Switch {
    /// At the begin of the first heap.
    pub(crate) fn new() -> Switch {
        Switch {
            heap: 0,
            is_begun: false,
            sending: Sending::anew(LIFE),
            jumped: [false; MOST_HEAPS],
            flushed: 0,
            widened: 0,
            is_settled: false,
        }
    }

    /// Whether a copy of this heap was begun.
    pub(crate) fn has_begun(&self, heap: u8) -> bool {
        heap < self.heap || heap == self.heap && self.is_begun
    }

    /// A copy of its heap begins, which had jumped or had not.
    pub(crate) fn begin(&mut self, had_jumped: bool) {
        self.is_begun = true;
        if let Some(jumped) = self.jumped.get_mut(usize::from(self.heap)) {
            *jumped = had_jumped;
        }
    }

    /// Whether this heap had jumped as its copy was begun.
    pub(crate) fn had_jumped(&self, heap: u8) -> bool {
        self.jumped
            .get(usize::from(heap))
            .is_some_and(|jumped| *jumped)
    }

    /// Its heap is copied whole: the next one comes.
    pub(crate) fn go_on(&mut self) {
        self.heap = self.heap.saturating_add(1);
        self.is_begun = false;
        self.sending = Sending::anew(LIFE);
    }
}
