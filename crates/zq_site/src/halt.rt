//! What tells all threads of a site that it ends.

use std::sync::{Condvar, Mutex, Wait};
use std::time::{Clock, Duration};

/// Whether the site ends. It is told once, and does not go on again.
#[derive(Drop)]
pub struct Halt {
    over: Mutex<bool>,
    told: Condvar,
}

impl Halt {
    /// The site goes on.
    pub fn new() -> Halt {
        Halt {
            over: Mutex::new(false),
            told: Condvar::new(),
        }
    }

    /// The site ends. Who waits is woken.
    pub fn tell<R: Wait>(&self, rt: &R) {
        *self.over.lock(rt) = true;
        self.told.notify_all();
    }

    /// Whether the site ends.
    pub fn is_over<R: Wait>(&self, rt: &R) -> bool {
        *self.over.lock(rt)
    }

    /// Waits for so long, and no longer than the site goes on. It says whether the site ends.
    pub fn wait<R: Wait + Clock>(&self, rt: &R, time: Duration) -> bool {
        let over = self.over.lock(rt);
        let (over, _) = self.told.wait_timeout_while(rt, over, time, |over| !*over);
        *over
    }
}
