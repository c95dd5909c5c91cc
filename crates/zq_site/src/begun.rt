//! How a site begins, as one thread finds it and the others wait for it.

use std::sync::{Condvar, Mutex, Wait};
use std::time::{Clock, Duration};
use zq_serve::ServeFault;
use zq_store::{ReadSoFar, Started};

/// How a site begins. The thread tells it that takes what the site makes into its logs, since it has
/// the files; no other thread of the site starts before.
#[derive(Drop)]
pub struct Begun {
    told: Mutex<Option<Result<Started, ServeFault>>>,
    changed: Condvar,
    /// How far the site's log was read, where it keeps one on disk.
    pub so_far: ReadSoFar,
}

impl Begun {
    /// Nothing was told.
    pub fn new() -> Begun {
        Begun {
            told: Mutex::new(None),
            changed: Condvar::new(),
            so_far: ReadSoFar::new(),
        }
    }

    /// The site begins so. What was told first counts.
    pub fn tell<R: Wait>(&self, rt: &R, how: Result<Started, ServeFault>) {
        let mut told = self.told.lock(rt);
        if told.is_none() {
            *told = Some(how);
        }
        drop(told);
        self.changed.notify_all();
    }

    /// Waits until it is told how the site begins, and no longer than so long.
    pub fn wait<R: Clock + Wait>(
        &self,
        rt: &R,
        time: Duration,
    ) -> Option<Result<Started, ServeFault>> {
        let told = self.told.lock(rt);
        let waits = |told: &mut Option<Result<Started, ServeFault>>| told.is_none();
        let (told, _) = self.changed.wait_timeout_while(rt, told, time, waits);
        *told
    }
}
