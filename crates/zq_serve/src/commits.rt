//! What waits until it is on the disk.

ghost use Rattle.std.specs.Prelude.{◌≡◌};
ghost use Rattle.zq_serve.specs.Commits as wanted;

use std::sync::atomic::{AtomicBool, Ordering};
use std::sync::{Condvar, Mutex, Wait};
use std::time::{Clock, Duration};

/// Whether rounds are written.
#[derive(Clone, Copy, Debug, PartialEq, Eq)]
pub enum Writes {
    /// They are.
    Goes,
    /// All was written, and nothing is any more.
    Over,
    /// The disk failed: nothing is written any more.
    Failed,
}

/// How far rounds are.
#[derive(Clone, Copy, Debug, PartialEq, Eq)]
pub struct Rounds {
    /// The last ticket that was given, within 64 bits.
    pub asked: u64,
    /// The last ticket behind which a whole round was written.
    pub done: u64,
    /// The last ticket before which all was written that the site itself had made.
    pub own: u64,
    /// Whether rounds are written.
    pub writes: Writes,
}

impl Rounds {
    /// No ticket was given.
    fn new() -> Rounds
        ensures { result ≡ wanted.no_rounds }
    {
        Rounds {
            asked: 0,
            done: 0,
            own: 0,
            writes: Writes::Goes,
        }
    }

    /// One more ticket is given.
    fn ask(&mut self) -> u64
        ensures given { result ≡ wanted.next_ticket self.old }
        ensures asked { self.new ≡ wanted.asked self.old }
    {
        self.asked = self.asked.saturating_add(1);
        self.asked
    }

    /// A round that began behind this ticket was written.
    fn end(&mut self, ticket: u64)
        ensures { self.new ≡ wanted.ended ticket self.old }
    {
        self.done = self.done.max(ticket);
        self.own = self.own.max(ticket);
    }

    /// All that the site itself made before this ticket was written.
    fn end_own(&mut self, ticket: u64)
        ensures { self.new ≡ wanted.ended_own ticket self.old }
    {
        self.own = self.own.max(ticket);
    }

    /// No round is written any more, since the site ends. Where the disk failed nothing changes.
    fn close(&mut self)
        ensures { self.new ≡ wanted.closed self.old }
    {
        if self.writes == Writes::Goes {
            self.writes = Writes::Over;
        }
    }

    /// The disk failed.
    fn fail(&mut self)
        ensures { self.new ≡ wanted.failed self.old }
    {
        self.writes = Writes::Failed;
    }

    /// Whether a round behind this ticket was written.
    fn has(&self, ticket: u64) -> bool
        ensures { result ≡ wanted.is_done ticket self.now }
    {
        ticket <= self.done
    }

    /// How many tickets were given behind which no whole round was written.
    fn waiting(&self) -> u64
        ensures { result ≡ wanted.waiting self.now }
    {
        self.asked.saturating_sub(self.done)
    }

    /// Whether fewer tickets than these wait, where rounds are written.
    fn lacks(&self, crowd: u64) -> bool
        ensures { result ≡ wanted.lacks crowd self.now }
    {
        match self.writes {
            Writes::Goes => self.waiting() < crowd,
            Writes::Over | Writes::Failed => false,
        }
    }

    /// Whether all that the site itself made before this ticket was written.
    fn has_own(&self, ticket: u64) -> bool
        ensures { result ≡ wanted.is_own_done ticket self.now }
    {
        ticket <= self.own
    }

    /// Whether who has this ticket waits, for what the site itself made alone.
    fn holds_own(&self, ticket: u64) -> bool
        ensures { result ≡ wanted.holds_own ticket self.now }
    {
        match self.writes {
            Writes::Goes => self.own < ticket,
            Writes::Over => false,
            Writes::Failed => true,
        }
    }

    /// Whether who has this ticket waits.
    fn holds(&self, ticket: u64) -> bool
        ensures { result ≡ wanted.holds ticket self.now }
    {
        match self.writes {
            Writes::Goes => self.done < ticket,
            Writes::Over => false,
            Writes::Failed => true,
        }
    }
}

/// What waits until it is on the disk. Threads share it. Who has made an answer or a frame takes a
/// ticket, and waits until a round was written that began afterwards. The thread that writes takes
/// the last ticket before it looks at what was made, and wakes all that have it or an earlier one
/// once that is on the disk: so one sync serves all of them.
#[derive(Drop)]
pub struct Commits {
    rounds: Mutex<Rounds>,
    changed: Condvar,
    /// Where the thread waits that writes, until more tickets come.
    came: Condvar,
    /// Whether the disk failed: who sees that it has not need not take the lock.
    failed: AtomicBool,
}

impl Commits {
    /// No ticket was given.
    pub fn new() -> Commits {
        Commits {
            rounds: Mutex::new(Rounds::new()),
            changed: Condvar::new(),
            came: Condvar::new(),
            failed: AtomicBool::new(false),
        }
    }

    /// A ticket for what was made by now.
    pub fn ask<R: Wait>(&self, rt: &R) -> u64 {
        let ticket = self.rounds.lock(rt).ask();
        self.came.notify_one();
        ticket
    }

    /// Waits until so many tickets wait for a round, or for so long: a round that begins then
    /// serves all of them by one sync.
    pub fn gather<R: Wait + Clock>(&self, rt: &R, crowd: u64, most: Duration) {
        let lacks = |rounds: &mut Rounds| rounds.lacks(crowd);
        let _ = self
            .came
            .wait_timeout_while(rt, self.rounds.lock(rt), most, lacks);
    }

    /// A round begins. It is for all that have this ticket or an earlier one.
    pub fn begin<R: Wait>(&self, rt: &R) -> u64 {
        self.rounds.lock(rt).asked
    }

    /// The round that began so is on the disk. Who waits for it goes on. It says how many tickets
    /// waited, for this round and for the next one.
    pub fn end<R: Wait>(&self, rt: &R, ticket: u64) -> u64 {
        let mut rounds = self.rounds.lock(rt);
        let waiting = rounds.waiting();
        rounds.end(ticket);
        drop(rounds);
        self.changed.notify_all();
        waiting
    }

    /// The disk is full, and all that the site itself had made before this ticket is on it. Who
    /// waits for that goes on.
    pub fn end_own<R: Wait>(&self, rt: &R, ticket: u64) {
        self.rounds.lock(rt).end_own(ticket);
        self.changed.notify_all();
    }

    /// No round is written any more, since the site ends. Who waits goes on, and is told so. Where
    /// the disk failed nothing changes.
    pub fn close<R: Wait>(&self, rt: &R) {
        self.rounds.lock(rt).close();
        self.changed.notify_all();
    }

    /// The disk failed. Who waits, or will, does so until the program ends.
    pub fn fail<R: Wait>(&self, rt: &R) {
        self.rounds.lock(rt).fail();
        self.failed.store(true, Ordering::SeqCst);
    }

    /// Waits until what this ticket is for is on the disk, and says whether it is: it is not where
    /// no round is written any more. It does not return where the disk failed.
    pub fn wait<R: Wait>(&self, rt: &R, ticket: u64) -> bool {
        let held = |rounds: &mut Rounds| rounds.holds(ticket);
        let rounds = self.changed.wait_while(rt, self.rounds.lock(rt), held);
        rounds.has(ticket)
    }

    /// The same, but where the disk is full it does not wait for what the site itself did not make.
    pub fn wait_own<R: Wait>(&self, rt: &R, ticket: u64) -> bool {
        let held = |rounds: &mut Rounds| rounds.holds_own(ticket);
        let rounds = self.changed.wait_while(rt, self.rounds.lock(rt), held);
        rounds.has_own(ticket)
    }

    /// Does not return where the disk failed.
    pub fn hold<R: Wait>(&self, rt: &R) {
        if self.failed.load(Ordering::SeqCst) {
            let _ = self.wait(rt, u64::MAX);
        }
    }
}
