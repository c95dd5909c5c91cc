//! The queue between what logs and the thread that writes.

use crate::backlog::Entry;
use crate::intake::{Intake, Moment};
use log::Level;
use std::alloc::Global;
use std::sync::atomic::{AtomicU64, Ordering};
use std::sync::{Condvar, Mutex, Wait};
use std::time::{Clock, Duration};

/// What is under the lock.
#[derive(Drop)]
struct Desk {
    intake: Intake,
    /// How many entries were written, within 64 bits.
    written: u64,
    /// Whether no more lines come.
    is_over: bool,
    /// Whether all was written, and the thread that wrote it ends.
    is_done: bool,
}

/// Lines on their way to a device. Whoever logs puts a line in and never waits for the device,
/// since nobody writes under the lock. One thread takes the lines out and writes them.
#[derive(Drop)]
pub struct LogQueue {
    alloc: Global,
    desk: Mutex<Desk>,
    changed: Condvar,
    /// How many lines were dropped: who shows that takes no lock.
    dropped: AtomicU64,
}

impl LogQueue {
    /// A queue of no lines.
    pub fn new(alloc: Global) -> LogQueue {
        LogQueue {
            alloc,
            desk: Mutex::new(Desk {
                intake: Intake::new(alloc),
                written: 0,
                is_over: false,
                is_done: false,
            }),
            changed: Condvar::new(),
            dropped: AtomicU64::new(0),
        }
    }

    /// How many lines were dropped, since they found no room, within 64 bits.
    pub fn dropped(&self) -> &AtomicU64 {
        &self.dropped
    }

    /// Has how many lines were dropped be read without a lock.
    fn note(&self, desk: &Desk) {
        let dropped = desk.intake.backlog.dropped;
        self.dropped.store(dropped, Ordering::SeqCst);
    }

    /// A message comes at this moment, with pairs as they are written. Its line waits to be written,
    /// or is held back or dropped, and counted.
    pub fn log<R: Wait>(&self, rt: &R, moment: Moment, level: Level, message: &[u8], pairs: &[u8]) {
        let mut desk = self.desk.lock(rt);
        desk.intake
            .take_in(self.alloc, moment, level, message, pairs);
        self.note(&desk);
        drop(desk);
        self.changed.notify_all();
    }

    /// A line was dropped before it came here, and is counted.
    pub fn lose<R: Wait>(&self, rt: &R) {
        let mut desk = self.desk.lock(rt);
        desk.intake.backlog.lose();
        self.note(&desk);
        drop(desk);
        self.changed.notify_all();
    }

    /// A line comes that is written as it is, with its newline.
    pub fn put<R: Wait>(&self, rt: &R, line: Vec<u8>) {
        let mut desk = self.desk.lock(rt);
        desk.intake.backlog.put(line);
        self.note(&desk);
        drop(desk);
        self.changed.notify_all();
    }

    /// What is to be written next. It waits until there is something, and answers `None` where
    /// there is nothing and no more comes.
    pub(crate) fn next<R: Wait>(&self, rt: &R) -> Option<Entry> {
        let mut desk = self.desk.lock(rt);
        for _ in rt.forever() {
            if let Some(entry) = desk.intake.backlog.take(self.alloc) {
                return Some(entry);
            }
            if desk.is_over {
                return None;
            }
            desk = self.changed.wait(rt, desk);
        }
        None
    }

    /// Something was written.
    pub(crate) fn count<R: Wait>(&self, rt: &R) {
        let mut desk = self.desk.lock(rt);
        desk.written = desk.written.wrapping_add(1);
        drop(desk);
        self.changed.notify_all();
    }

    /// All was written, and the thread that wrote it ends.
    pub(crate) fn close<R: Wait>(&self, rt: &R) {
        self.desk.lock(rt).is_done = true;
        self.changed.notify_all();
    }

    /// Lets what waits be written, and answers whether that was so. It gives up where the device
    /// takes no line for so long. Then the thread that writes may still wait for the device:
    /// whoever ends the program must not wait for that thread.
    pub fn end<R: Wait + Clock>(&self, rt: &R, patience: Duration) -> bool {
        let mut desk = self.desk.lock(rt);
        desk.is_over = true;
        drop(desk);
        self.changed.notify_all();
        for _ in rt.forever() {
            let desk = self.desk.lock(rt);
            let seen = desk.written;
            let waits = |desk: &mut Desk| !desk.is_done && desk.written == seen;
            let (desk, _) = self.changed.wait_timeout_while(rt, desk, patience, waits);
            if desk.is_done {
                return true;
            }
            if desk.written == seen {
                return false;
            }
        }
        false
    }
}
