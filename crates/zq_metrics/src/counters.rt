//! The counters of a site's workers. Each worker has its own, which no other thread writes, so that
//! none waits for another. Who shows them reads one after the other.

use crate::closing::{CLOSINGS, Closing};
use crate::command::{COMMANDS, Command};
use crate::counts::Counts;
use crate::timing::{BUCKETS, bucket_of};
use std::alloc::{AllocError, Global};
use std::sync::atomic::{AtomicU64, Ordering};

/// How many requests of a command were answered, and how many of them by an error.
#[derive(Drop)]
struct Cell {
    answered: AtomicU64,
    errors: AtomicU64,
}

/// What one worker counts.
#[derive(Drop)]
pub struct WorkerCounters {
    /// Of each command, at its place.
    commands: Vec<Cell>,
    /// How many requests took so long, by the bounds of their time.
    buckets: Vec<AtomicU64>,
    /// How many nanoseconds all took together.
    nanoseconds: AtomicU64,
    /// How many of those that were answered were timed.
    timed: AtomicU64,
}

impl WorkerCounters {
    /// Nothing was counted.
    fn new(alloc: Global) -> Result<WorkerCounters, AllocError> {
        let mut commands = Vec::with_capacity(alloc, COMMANDS)?;
        for _ in 0..COMMANDS {
            let cell = Cell {
                answered: AtomicU64::new(0),
                errors: AtomicU64::new(0),
            };
            commands.push(cell)?;
        }
        Ok(WorkerCounters {
            commands,
            buckets: zeros(alloc, BUCKETS)?,
            nanoseconds: AtomicU64::new(0),
            timed: AtomicU64::new(0),
        })
    }

    /// A request of this command was answered, by an error or not.
    pub fn count(&self, command: Command, is_error: bool) {
        if let Some(cell) = self.commands.get(command.place()) {
            cell.answered.fetch_add(1, Ordering::SeqCst);
            if is_error {
                cell.errors.fetch_add(1, Ordering::SeqCst);
            }
        }
    }

    /// How many requests were answered since this was asked last.
    pub fn untimed(&self) -> u64 {
        let all = self.answered();
        all.wrapping_sub(self.timed.swap(all, Ordering::SeqCst))
    }

    /// Whether requests were answered since it was asked last how many.
    pub fn has_untimed(&self) -> bool {
        self.answered() != self.timed.load(Ordering::SeqCst)
    }

    /// How many requests were answered, within 64 bits.
    fn answered(&self) -> u64 {
        let mut all = 0u64;
        for cell in &self.commands {
            all = all.wrapping_add(cell.answered.load(Ordering::SeqCst));
        }
        all
    }

    /// So many requests took so many nanoseconds each.
    pub fn time(&self, requests: u64, nanoseconds: u64) {
        if let Some(bucket) = self.buckets.get(bucket_of(nanoseconds)) {
            bucket.fetch_add(requests, Ordering::SeqCst);
        }
        let all = nanoseconds.wrapping_mul(requests);
        self.nanoseconds.fetch_add(all, Ordering::SeqCst);
    }

    /// What was counted.
    fn counts(&self) -> Counts {
        let mut counts = Counts::none();
        for place in 0..COMMANDS {
            if let Some(cell) = self.commands.get(place) {
                counts.answered[place] = cell.answered.load(Ordering::SeqCst);
                counts.errors[place] = cell.errors.load(Ordering::SeqCst);
            }
        }
        for place in 0..BUCKETS {
            if let Some(bucket) = self.buckets.get(place) {
                counts.buckets[place] = bucket.load(Ordering::SeqCst);
            }
        }
        counts.nanoseconds = self.nanoseconds.load(Ordering::SeqCst);
        counts
    }
}

/// The counters of a site's workers, and what they count together.
#[derive(Drop)]
pub struct Counters {
    workers: Vec<WorkerCounters>,
    /// How many of the workers' counters were given out.
    given: AtomicU64,
    /// Why connections were closed, by the places of the reasons.
    closed: Vec<AtomicU64>,
}

impl Counters {
    /// Of so many workers, which have counted nothing.
    pub fn new(alloc: Global, workers: usize) -> Result<Counters, AllocError> {
        let mut all = Vec::new(alloc);
        for _ in 0..workers {
            all.push(WorkerCounters::new(alloc)?)?;
        }
        Ok(Counters {
            workers: all,
            given: AtomicU64::new(0),
            closed: zeros(alloc, CLOSINGS)?,
        })
    }

    /// The counters of one more worker, where not all are given out.
    pub fn give(&self) -> Option<&WorkerCounters> {
        let place = self.given.fetch_add(1, Ordering::SeqCst);
        self.workers.get(place as usize)
    }

    /// A connection was closed for this reason.
    pub fn close(&self, closing: Closing) {
        if let Some(count) = self.closed.get(closing.place()) {
            count.fetch_add(1, Ordering::SeqCst);
        }
    }

    /// How many connections were closed, by the places of the reasons.
    pub fn closed(&self) -> [u64; CLOSINGS] {
        let mut counts = [0; CLOSINGS];
        for place in 0..CLOSINGS {
            if let Some(count) = self.closed.get(place) {
                counts[place] = count.load(Ordering::SeqCst);
            }
        }
        counts
    }

    /// What all workers counted together.
    pub fn counts(&self) -> Counts {
        let mut counts = Counts::none();
        for worker in &self.workers {
            counts.add(&worker.counts());
        }
        counts
    }
}

/// So many words that are 0.
fn zeros(alloc: Global, number: usize) -> Result<Vec<AtomicU64>, AllocError> {
    let mut words = Vec::new(alloc);
    for _ in 0..number {
        words.push(AtomicU64::new(0))?;
    }
    Ok(words)
}
