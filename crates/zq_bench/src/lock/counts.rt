//! How often each thread took a lock.
use crate::lock::ticket::{Seated, Total};
use crate::lock::worker::{Load, contend};
use std::alloc::Global;
use std::sync::{Mutex, Wait};
use std::thread::Threads;
use std::time::Clock;
use zq_ticketlock::TicketLock;

/// The lockings of each thread that uses a ticket lock.
pub fn lock_counts<R: Clock + Threads + Wait + Sync>(
    rt: &R,
    alloc: Global,
    load: Load,
) -> Option<Vec<u64>> {
    let Ok((lock, seat)) = TicketLock::new(alloc, Total { count: 1 }) else {
        return None;
    };
    contend(rt, alloc, Seated { lock: &lock, seat }, load).ok()
}

/// The lockings of each thread that uses a mutex.
pub fn mutex_counts<R: Clock + Threads + Wait + Sync>(
    rt: &R,
    alloc: Global,
    load: Load,
) -> Option<Vec<u64>> {
    let count = Mutex::new(1);
    contend(rt, alloc, &count, load).ok()
}

/// The lockings of all threads.
pub fn total(counts: &[u64]) -> u128 {
    let mut total = 0u128;
    for count in counts {
        total = total.saturating_add(u128::from(*count));
    }
    total
}
