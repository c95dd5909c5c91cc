//! How long tests wait for what has to come.

use std::thread;
use std::time::{Clock, Duration};

/// How often a test looks for it, with a nap after each look: for 40 seconds at least.
pub const LOOKS: u32 = 8_000;

/// Sleeps for 5 milliseconds.
pub fn nap<R: Clock>(rt: &R) {
    let _ = thread::sleep(rt, Duration::from_millis(5));
}
