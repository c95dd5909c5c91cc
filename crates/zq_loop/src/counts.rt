//! What the threads of a port count together.

use crate::limits::Limits;
use std::sync::atomic::{AtomicBool, AtomicU64, Ordering};

/// How many connections a port has and had.
#[derive(Clone, Copy, Debug)]
pub struct PortFigures {
    /// Those that are open.
    pub open: u64,
    /// Those that were accepted.
    pub accepted: u64,
    /// Those that were refused, since there were as many as there may be.
    pub refused: u64,
    /// Those that were closed since they brought nothing for too long.
    pub silent: u64,
}

/// How many connections there are and were, how many bytes of replies wait, and whether the end has
/// come.
#[derive(Drop)]
pub struct Counts {
    open: AtomicU64,
    strangers: AtomicU64,
    accepted: AtomicU64,
    refused: AtomicU64,
    silent: AtomicU64,
    owed: AtomicU64,
    has_all: AtomicBool,
    is_stopped: AtomicBool,
    is_cut: AtomicBool,
}

impl Counts {
    /// No connections.
    pub fn new() -> Counts {
        Counts {
            open: AtomicU64::new(0),
            strangers: AtomicU64::new(0),
            accepted: AtomicU64::new(0),
            refused: AtomicU64::new(0),
            silent: AtomicU64::new(0),
            owed: AtomicU64::new(0),
            has_all: AtomicBool::new(false),
            is_stopped: AtomicBool::new(false),
            is_cut: AtomicBool::new(false),
        }
    }

    /// Takes one of the places that these limits give, and says whether there was one: also one of
    /// those for strangers, where connections come as such.
    pub fn enter(&self, limits: &Limits) -> bool {
        let open = self.open.fetch_add(1, Ordering::SeqCst);
        let comes = limits.strangers > 0;
        self.turn(false, comes);
        if open < limits.clients && (!comes || self.strangers() <= limits.strangers) {
            self.accepted.fetch_add(1, Ordering::SeqCst);
            return true;
        }
        self.leave(comes);
        self.refused.fetch_add(1, Ordering::SeqCst);
        false
    }

    /// Gives a place back: also that of a stranger, where the connection was counted as one.
    pub fn leave(&self, was_stranger: bool) {
        self.turn(was_stranger, false);
        self.open.fetch_sub(1, Ordering::SeqCst);
    }

    /// A connection is a stranger or not, where it was counted as one or not.
    pub fn turn(&self, before: bool, after: bool) {
        if !before && after {
            self.strangers.fetch_add(1, Ordering::SeqCst);
        } else if before && !after {
            self.strangers.fetch_sub(1, Ordering::SeqCst);
        }
    }

    /// How many strangers are counted.
    fn strangers(&self) -> u64 {
        self.strangers.load(Ordering::SeqCst)
    }

    /// A connection is closed that brought nothing for too long.
    pub fn silence(&self) {
        self.silent.fetch_add(1, Ordering::SeqCst);
    }

    /// What was counted since the port was opened.
    pub fn figures(&self) -> PortFigures {
        PortFigures {
            open: self.open.load(Ordering::SeqCst),
            accepted: self.accepted.load(Ordering::SeqCst),
            refused: self.refused.load(Ordering::SeqCst),
            silent: self.silent.load(Ordering::SeqCst),
        }
    }

    /// A connection is owed so many bytes, where it was owed so many.
    pub fn count(&self, before: usize, after: usize) {
        if before < after {
            self.owed
                .fetch_add((after - before) as u64, Ordering::SeqCst);
        } else if after < before {
            self.owed
                .fetch_sub((before - after) as u64, Ordering::SeqCst);
        }
    }

    /// How many bytes all connections are owed.
    pub fn owed(&self) -> u64 {
        self.owed.load(Ordering::SeqCst)
    }

    /// All connections have come.
    pub fn close(&self) {
        self.has_all.store(true, Ordering::SeqCst);
    }

    /// Whether all connections have come.
    pub fn has_all(&self) -> bool {
        self.has_all.load(Ordering::SeqCst)
    }

    /// No request is read any more.
    pub fn stop(&self) {
        self.is_stopped.store(true, Ordering::SeqCst);
    }

    /// Nothing more is read or written, and no connection is waited for.
    pub fn cut(&self) {
        self.is_cut.store(true, Ordering::SeqCst);
        self.stop();
    }

    /// Whether nothing more is read or written.
    pub fn is_cut(&self) -> bool {
        self.is_cut.load(Ordering::SeqCst)
    }

    /// Whether no request is read any more.
    pub fn is_stopped(&self) -> bool {
        self.is_stopped.load(Ordering::SeqCst)
    }
}
