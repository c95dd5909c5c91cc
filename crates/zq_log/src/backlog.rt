//! Lines that wait to be written.

ghost use Rattle.std.specs.Prelude.{length, ◌≤◌};

use std::alloc::Global;
use std::collections::VecDeque;
use std::mem;

/// The most lines that wait.
pub const MOST_LINES: usize = 1_024;

/// A line that waits, and how many were dropped before it. Where none came after those that were
/// dropped it has no bytes.
#[derive(Drop)]
pub struct Entry {
    /// How many lines were dropped before it, within 64 bits.
    pub lost: u64,
    /// Its bytes, with the newline.
    pub line: Vec<u8>,
}

/// Lines that wait to be written, the oldest first, at most 1,024 of them.
#[derive(Drop)]
pub struct Backlog {
    pub lines: VecDeque<Entry>,
    /// How many lines were dropped since the last one that found room, within 64 bits.
    pub lost: u64,
    /// How many lines were dropped in all, within 64 bits.
    pub dropped: u64,
    ghost few: { length lines.items ≤ 1024 },
}

impl Backlog {
    ghost use Rattle.std.specs.Prelude.{length, ◌≡◌, ◌≤◌, ◌⊎◌, []};
    ghost use Rattle.zq_log.specs.Backlogs as wanted;
    ghost use Rattle.zq_log.specs.Backlogs.{IsLost, IsTaken, Waits};

    /// No lines.
    pub fn new(alloc: Global) -> Backlog
        ensures { (result.lines.items ≡ []) × (result.lost ≡ 0) × (result.dropped ≡ 0) }
    {
        Backlog {
            lines: VecDeque::new(alloc),
            lost: 0,
            dropped: 0,
        }
    }

    /// A line comes. It waits behind all others; where 1,024 wait already, or there is no memory
    /// for one more, it is dropped and counted.
    pub fn put(&mut self, line: Vec<u8>)
        ensures one { Waits line.items self.old self.new ⊎ IsLost self.old self.new }
        ensures full { wanted.MOST_LINES ≤ length self.old.lines.items → IsLost self.old self.new }
    {
        if self.lines.len() >= MOST_LINES {
            return self.lose();
        }
        let lost = self.lost;
        match self.lines.push_back(Entry { lost, line }) {
            Ok(()) => {}
            Err(_) => return self.lose(),
        }
        self.lost = 0;
    }

    /// A line is dropped, and counted.
    pub fn lose(&mut self)
        ensures { IsLost self.old self.new }
    {
        self.lost = self.lost.saturating_add(1);
        self.dropped = self.dropped.saturating_add(1);
    }

    /// The line to be written next, which waits no longer. Where none waits, but some were dropped,
    /// it is one with no bytes.
    pub fn take(&mut self, alloc: Global) -> Option<Entry>
        ensures { IsTaken self.old result self.new }
    {
        if let Some(entry) = self.lines.pop_front() {
            return Some(entry);
        }
        if self.lost == 0 {
            return None;
        }
        let lost = mem::replace(&mut self.lost, 0);
        let line = Vec::new(alloc);
        Some(Entry { lost, line })
    }
}
