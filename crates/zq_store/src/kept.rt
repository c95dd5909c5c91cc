//! What is on a site's disk.

use crate::folder::counters_of;
use crate::work::Work;
use crate::writer::{Writer, now_of};
use std::time::{Clock, Duration};
use zq_wal::Disk;
use zq_wire::MOST_HEAPS;

/// What is on a site's disk, and what was done for that.
#[derive(Clone, Copy, Debug)]
pub struct Kept {
    /// Of each heap up to which counter the site's own operations are on the disk.
    pub durable: [u64; MOST_HEAPS],
    /// Whether the disk is full.
    pub is_full: bool,
    /// How many bytes the log has, without escapes and the zeros ahead of its end.
    pub log: u64,
    /// What was done since the log was opened.
    pub work: Work,
}

impl<D: Disk> Writer<D> {
    /// What is on the disk of a site of so many heaps.
    pub(crate) fn kept(&mut self, heaps: u8) -> Kept {
        let size = self.keeper.size();
        self.work.grow(size);
        Kept {
            durable: counters_of(&self.keeper, heaps),
            is_full: self.is_full,
            log: size.log,
            work: self.work,
        }
    }

    /// A sync was made, and the write before it began then.
    pub(crate) fn note_sync<R: Clock>(&mut self, rt: &R, began: Duration) {
        self.work.sync(now_of(rt).saturating_sub(began));
    }
}
