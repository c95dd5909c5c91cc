//! Threads that take one lock over and over, for a time.

use std::alloc::{AllocError, Global};
use std::sync::Wait;
use std::sync::atomic::AtomicBool;
use std::sync::atomic::Ordering::SeqCst;
use std::thread::{Threads, join, map_vec, sleep};
use std::time::{Clock, Duration};

/// A thread's part in a lock.
pub trait Worker: Sized + Drop {
    /// Takes the lock once, does the work inside and lets it go. `None` where it can be taken no
    /// more.
    fn lock_once<R: Wait>(self, rt: &R, work: u32) -> Option<Self>;

    /// The parts of two threads.
    fn split(self) -> (Self, Self);
}

/// A run: how many threads, the steps of work under the lock, and how long.
#[derive(Clone, Copy, Drop)]
pub struct Load {
    pub threads: u32,
    pub work: u32,
    pub time: Duration,
}

/// How often each thread of a run took the lock.
pub fn contend<W: Worker + Send, R: Clock + Threads + Wait + Sync>(
    rt: &R,
    alloc: Global,
    worker: W,
    load: Load,
) -> Result<Vec<u64>, AllocError> {
    let Load {
        threads,
        work,
        time,
    } = load;
    let workers = parts(alloc, worker, threads)?;
    let over = AtomicBool::new(false);
    let shared = &over;
    join(
        rt,
        move || {
            sleep(rt, time);
            shared.store(true, SeqCst);
        },
        move || map_vec(rt, workers, &|worker| turns(rt, worker, work, shared)),
    )
    .1
}

fn parts<W: Worker>(alloc: Global, worker: W, threads: u32) -> Result<Vec<W>, AllocError> {
    let mut parts = Vec::new(alloc);
    let mut last = worker;
    for _ in 1..threads {
        let (part, rest) = last.split();
        parts.push(part)?;
        last = rest;
    }
    parts.push(last)?;
    Ok(parts)
}

/// Takes the lock until the time is over, and says how often.
fn turns<W: Worker, R: Wait>(rt: &R, worker: W, work: u32, over: &AtomicBool) -> u64 {
    let mut worker = worker;
    for made in 0..u64::MAX {
        if over.load(SeqCst) {
            return made;
        }
        let Some(next) = worker.lock_once(rt, work) else {
            return made;
        };
        worker = next;
    }
    u64::MAX
}

/// The work under the lock: so many steps of a generator of pseudo-random numbers (Marsaglia 2003),
/// each of which needs the one before.
pub fn worked(number: u64, work: u32) -> u64 {
    let mut number = number;
    for _ in 0..work {
        number ^= number << 13;
        number ^= number >> 7;
        number ^= number << 17;
    }
    number
}
