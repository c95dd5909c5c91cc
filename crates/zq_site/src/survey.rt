//! What was found of a site's largest keys, and that they are looked for.

use std::alloc::{AllocError, Global};
use std::sync::atomic::{AtomicBool, Ordering};
use std::sync::{Mutex, Wait};
use std::time::{Clock, Duration};
use zq_admin::{Found, keys_page};

/// For how many milliseconds what was found is shown without another look.
const FRESH: u64 = 10_000;

/// What was found of a site's largest keys, and whether they are looked for.
#[derive(Drop)]
pub struct Survey {
    wanted: AtomicBool,
    found: Mutex<Option<Found>>,
}

impl Survey {
    /// Nothing was found, and nobody asked.
    pub fn new() -> Survey {
        Survey {
            wanted: AtomicBool::new(false),
            found: Mutex::new(None),
        }
    }

    /// Whether the keys are to be looked at.
    pub fn is_wanted(&self) -> bool {
        self.wanted.load(Ordering::SeqCst)
    }

    /// This was found.
    pub fn put<R: Wait>(&self, rt: &R, found: Found) {
        *self.found.lock(rt) = Some(found);
        self.wanted.store(false, Ordering::SeqCst);
    }

    /// What was found last of so many keys, in JSON. Where that is no more fresh, or nothing was
    /// found, the keys are looked for from now on.
    pub fn show<R: Wait + Clock>(
        &self,
        rt: &R,
        alloc: Global,
        count: u64,
    ) -> Result<Vec<u8>, AllocError> {
        let now = milliseconds(rt);
        let found = self.found.lock(rt);
        let found = found.as_ref();
        if !is_fresh(found, now) {
            self.wanted.store(true, Ordering::SeqCst);
        }
        keys_page(alloc, found, now, count, self.is_wanted())
    }
}

/// Whether something was found, not long before this millisecond of the clock.
fn is_fresh(found: Option<&Found>, now: u64) -> bool {
    match found {
        Some(found) => now.saturating_sub(found.at) <= FRESH,
        None => false,
    }
}

/// The milliseconds that the clock shows.
pub fn milliseconds<R: Clock>(rt: &R) -> u64 {
    match rt.monotonic() {
        Ok(now) => whole_milliseconds(now),
        Err(_) => 0,
    }
}

/// How many whole milliseconds a time has.
fn whole_milliseconds(time: Duration) -> u64 {
    time.as_secs()
        .saturating_mul(1_000)
        .saturating_add(u64::from(time.subsec_millis()))
}
