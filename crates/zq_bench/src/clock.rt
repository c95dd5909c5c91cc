//! The clock, whose failures count as no time at all, and rates by it.
use std::rt::Clock;
use std::time::Instant;

/// Now, where the clock can be read.
pub fn now(rt: &impl Clock) -> Option<Instant> {
    Instant::now(rt).ok()
}

/// Nanoseconds since then, and 0 where the clock cannot be read.
pub fn since(rt: &impl Clock, began: Option<Instant>) -> u128 {
    match began {
        Some(began) => match began.elapsed(rt) {
            Ok(time) => time.as_nanos(),
            Err(_) => 0,
        },
        None => 0,
    }
}

/// How many a second, where so many took so many nanoseconds.
pub fn rate(count: u128, nanoseconds: u128) -> u128 {
    count.saturating_mul(1_000_000) / (nanoseconds / 1000).max(1)
}
