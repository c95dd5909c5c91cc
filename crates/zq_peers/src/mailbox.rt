//! A site's way in.
ghost use Rattle.std.specs.Prelude.{◌≡◌, IfOk};
ghost use Rattle.zq_peers.specs.Fates.{had_memory};
ghost use Rattle.zq_peers.specs.Slips.{IsSlip, IsTaken};

use crate::tray::{Fate, Slip, Taken, Tray};
use std::alloc::{AllocError, Global};
use std::snapshot::Snapshot;
use std::sync::atomic::{AtomicBool, Ordering};
use std::sync::{Condvar, Mutex, Wait};
use zq_dots::SiteNo;
use zq_links::Message;

/// Where messages wait for a site's link thread. Any thread may send to it; the link thread alone
/// takes from it.
///
/// Of Ticks one waits at most: the site's threads send one after each call, and the link thread,
/// which then says what the site has by now, owes them one answer for all. A frame comes in where
/// fewer messages wait than may: else it is lost, and a Tick comes in its place, by which the site
/// will say what it has, and be told what it lacks.
///
/// A tray keeps what waits, under a lock. A call here takes the lock, calls the tray, and wakes the
/// link thread.
#[derive(Drop)]
pub struct Mailbox {
    tray: Mutex<Tray>,
    changed: Condvar,
    /// Whether a Tick waits: who sees that it does need not take the lock.
    ticked: AtomicBool,
    most: usize,
}

/// A receipt: the mailbox was given a frame. Only a mailbox makes one.
#[derive(Drop)]
pub struct Handed {
    mailbox: Snapshot<Mailbox>,
    slip: Slip,
}

impl Handed {
    /// Whether there was memory for the frame.
    pub fn had_memory(&self) -> bool
        ensures { result ≡ had_memory self.now.slip.fate }
    {
        self.slip.fate() != Fate::NoMemory
    }
}

impl Mailbox {
    /// An empty mailbox. A frame comes in where fewer messages than this wait.
    pub fn new(alloc: Global, most: usize) -> Result<Mailbox, AllocError>
        ensures { IfOk result (λ mailbox. mailbox.most ≡ most) }
    {
        Ok(Mailbox {
            tray: Mutex::new(Tray::new(alloc)?),
            changed: Condvar::new(),
            ticked: AtomicBool::new(false),
            most,
        })
    }

    /// Sends a Tick, where none waits.
    pub fn tick<R: Wait>(&self, rt: &R) {
        if self.ticked.load(Ordering::SeqCst) {
            return;
        }
        let mut tray = self.tray.lock(rt);
        tray.tick();
        self.note(&tray);
        drop(tray);
        self.changed.notify_one();
    }

    /// Sends Stop. What comes later is lost.
    pub fn stop<R: Wait>(&self, rt: &R) {
        self.tray.lock(rt).stop();
        self.changed.notify_one();
    }

    /// Sends a frame that came from this site, for a receipt. Where as many messages wait as may it
    /// is lost, and a Tick is sent. Where there is no memory for it it is lost.
    pub fn give<R: Wait>(&self, rt: &R, from: SiteNo, bytes: Vec<u8>) -> Handed
        ensures mailbox { result.mailbox.value ≡ self.now }
        ensures from { result.slip.from ≡ from }
        ensures frame { result.slip.frame.value ≡ bytes }
        ensures slip { IsSlip self.now.most result.slip }
    {
        let mut tray = self.tray.lock(rt);
        let slip = tray.give(self.most, from, bytes);
        self.note(&tray);
        drop(tray);
        self.changed.notify_one();
        Handed {
            mailbox: Snapshot::of(self),
            slip,
        }
    }

    /// Waits for the next message, which comes with a receipt.
    pub(crate) fn take<R: Wait>(&self, rt: &R) -> (Message, Taken)
        ensures { IsTaken result.0 result.1 }
    {
        let mut tray = self.tray.lock(rt);
        for _ in rt.forever() {
            if let Some(taken) = tray.take() {
                // From here on a call is told of by the next Tick.
                self.note(&tray);
                return taken;
            }
            tray = self.changed.wait(rt, tray);
        }
        unreachable!()
    }

    /// Notes whether a Tick waits.
    fn note(&self, tray: &Tray) {
        self.ticked.store(tray.has_tick(), Ordering::SeqCst);
    }
}
