//! How far the log of a site was read.

use std::sync::atomic::{AtomicU64, Ordering};

/// How far the log of a site was read, as one thread reads it and others look on.
#[derive(Drop)]
pub struct ReadSoFar {
    records: AtomicU64,
    bytes: AtomicU64,
}

impl ReadSoFar {
    /// Nothing was.
    pub fn new() -> ReadSoFar {
        ReadSoFar {
            records: AtomicU64::new(0),
            bytes: AtomicU64::new(0),
        }
    }

    /// A record more was, of so many bytes.
    pub(crate) fn add(&self, bytes: usize) {
        self.records.fetch_add(1, Ordering::SeqCst);
        self.bytes.fetch_add(bytes as u64, Ordering::SeqCst);
    }

    /// How many records were.
    pub fn records(&self) -> u64 {
        self.records.load(Ordering::SeqCst)
    }

    /// How many bytes they had, without what marks where they end.
    pub fn bytes(&self) -> u64 {
        self.bytes.load(Ordering::SeqCst)
    }
}
