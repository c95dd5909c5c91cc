//! Where calls wait while too much of what was made was not taken yet.

ghost use Rattle.std.specs.Prelude.{◌≡◌, ◌&&◌, ◌==◌, false};
ghost use Rattle.std.specs.Duration.{as_nanos};
ghost use Rattle.zq_serve.specs.Gate as wanted;
ghost use Rattle.zq_serve.specs.Gate.{opened_or_shut, passed};

use std::sync::atomic::{AtomicBool, Ordering};
use std::sync::{Condvar, Mutex, Wait};
use std::time::{Clock, Duration};

/// How far a thread is that takes what calls make.
#[derive(Clone, Copy, Debug, PartialEq, Eq)]
pub struct Pace {
    /// Whether too much is left.
    pub is_behind: bool,
    /// How many pieces it has taken, within 64 bits.
    pub pieces: u64,
}

/// A gate before the calls of a site. It is shut while the thread that takes what calls make is
/// behind. A call waits at it until that thread has taken one piece more, or is behind no longer,
/// and 5 milliseconds at most.
#[derive(Drop)]
pub struct Gate {
    pace: Mutex<Pace>,
    changed: Condvar,
    /// Whether it is shut: who sees that it is not need not take the lock.
    is_shut: AtomicBool,
}

impl Pace {
    /// Nothing was taken, and nothing is left.
    fn new() -> Pace
        ensures { result ≡ record { is_behind = false; pieces = 0 } }
    {
        Pace {
            is_behind: false,
            pieces: 0,
        }
    }

    /// A piece more was taken.
    fn pass(&mut self)
        ensures { self.new ≡ passed self.old }
    {
        self.pieces = self.pieces.wrapping_add(1);
    }

    /// Whether too much is left.
    fn set(&mut self, is_behind: bool)
        ensures { self.new ≡ opened_or_shut is_behind self.old }
    {
        self.is_behind = is_behind;
    }

    /// Whether a call waits that came when so many pieces had been taken.
    fn holds(&self, since: u64) -> bool
        ensures { result ≡ (self.now.is_behind && (self.now.pieces == since)) }
    {
        self.is_behind && self.pieces == since
    }
}

impl Gate {
    /// An open gate.
    pub fn new() -> Gate {
        Gate {
            pace: Mutex::new(Pace::new()),
            changed: Condvar::new(),
            is_shut: AtomicBool::new(false),
        }
    }

    /// Waits while the gate is shut, until a piece more was taken, or 5 milliseconds.
    pub fn wait<R: Wait + Clock>(&self, rt: &R) {
        if !self.is_shut.load(Ordering::SeqCst) {
            return;
        }
        let pace = self.pace.lock(rt);
        let since = pace.pieces;
        let held = |pace: &mut Pace| pace.holds(since);
        let _ = self.changed.wait_timeout_while(rt, pace, patience(), held);
    }

    /// A piece more was taken. Who waits goes on.
    pub fn pass<R: Wait>(&self, rt: &R) {
        self.pace.lock(rt).pass();
        self.changed.notify_all();
    }

    /// Shuts the gate where too much is left, and opens it where that is not so. Who waits at an
    /// open gate goes on.
    pub fn set<R: Wait>(&self, rt: &R, is_behind: bool) {
        let mut pace = self.pace.lock(rt);
        pace.set(is_behind);
        self.is_shut.store(is_behind, Ordering::SeqCst);
        drop(pace);
        self.changed.notify_all();
    }
}

/// How long a call waits at most.
fn patience() -> Duration
    ensures { as_nanos result ≡ wanted.patience }
{
    Duration::from_millis(5)
}
