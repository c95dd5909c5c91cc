//! Where threads wait before they draw a ticket.
//!
//! Strict order hands each turn to one thread alone. Where more threads draw than processors run,
//! the turn often goes to one that does not run. So only a few may have tickets at a time, and the
//! others sleep here until they are called in (Dice 2017, "Malthusian Locks"; Dice and Kogan 2019,
//! "Avoiding Scalability Collapse by Restricting Concurrency").
//!
//! No thread sleeps here for ever, as long as each holder unlocks:
//!
//! - A thread that comes is counted first, and then looks how many tickets are out. So the last of
//!   these is released after the thread was counted, and that release finds that somebody waits,
//!   and calls.
//! - A call sets `called`, and nobody falls asleep while it is set. So after a call either somebody
//!   sleeps, and is woken, or all who wait are awake. In both cases one who waits will leave.
//! - Who leaves clears `called` and draws a ticket, and looks at the door again when it releases.
//!   Where the lock is exhausted and refuses it, it calls the next one.
//!
//! No clause speaks of waiting. `tools/search-the-door` walks all orders of these steps for three
//! and four threads.

use std::sync::Wait;
use std::sync::atomic::AtomicU64;
use std::sync::atomic::Ordering::SeqCst;

// `called` where nobody is called, and where one is who has not left.
const NOBODY: u64 = 0;

const SOMEBODY: u64 = 1;

/// The threads that wait, and whether one of them was called in.
#[derive(Drop)]
pub(crate) struct Door {
    waiting: AtomicU64,
    called: AtomicU64,
}

impl Door {
    pub(crate) fn new() -> Door {
        Door {
            waiting: AtomicU64::new(0),
            called: AtomicU64::new(NOBODY),
        }
    }

    /// How many threads wait.
    pub(crate) fn waiting(&self) -> u64 {
        self.waiting.load(SeqCst)
    }

    /// Counts the caller as one who waits.
    pub(crate) fn come(&self) {
        self.waiting.fetch_add(1, SeqCst);
    }

    /// Sleeps until a call, and not at all where one was called who has not left. It may also wake
    /// for no reason.
    pub(crate) fn sleep<R: Wait>(&self, rt: &R) {
        self.called.park(rt, NOBODY as u32);
    }

    /// Counts the caller out.
    pub(crate) fn leave(&self) {
        self.waiting.fetch_sub(1, SeqCst);
        self.called.store(NOBODY, SeqCst);
    }

    /// Calls one in. Where one was called who has not left, that is enough.
    pub(crate) fn call(&self) {
        if self.called.load(SeqCst) == NOBODY && self.called.swap(SOMEBODY, SeqCst) == NOBODY {
            self.called.wake_one();
        }
    }
}
