//! A mutex of std as a lock to be timed.

use crate::lock::worker::{Worker, worked};
use std::sync::{Mutex, Wait};

impl Worker for &Mutex<u64> {
    fn lock_once<R: Wait>(self, rt: &R, work: u32) -> Option<Self> {
        let mut held = self.lock(rt);
        *held = worked(held.wrapping_add(1), work);
        Some(self)
    }

    fn split(self) -> (Self, Self) {
        (self, self)
    }
}
