//! Threads for links that come.

ghost use Rattle.std.specs.Prelude.{◌≡◌};
ghost use Rattle.zq_site.specs.Crews as wanted;

use std::alloc::Global;
use std::collections::VecDeque;
use std::sync::{Condvar, Mutex, Wait};
use zq_dots::SiteNo;

/// What a thread is wanted for.
#[derive(Clone, Copy, Debug, PartialEq, Eq)]
pub enum Job {
    /// To write the link to this peer.
    Write(SiteNo),
    /// To accept peers.
    Accept,
}

/// How many threads accept peers, and how many of them have nobody.
#[derive(Clone, Copy, Debug, PartialEq, Eq)]
pub struct Crew {
    pub all: u64,
    pub free: u64,
}

impl Crew {
    /// One more, which has nobody.
    pub fn joined(self) -> Crew
        ensures { result ≡ wanted.joined self }
    {
        Crew {
            all: self.all.saturating_add(1),
            free: self.free.saturating_add(1),
        }
    }

    /// One that had nobody is there no more.
    pub fn left(self) -> Crew
        ensures { result ≡ wanted.left self }
    {
        Crew {
            all: self.all.saturating_sub(1),
            free: self.free.saturating_sub(1),
        }
    }

    /// One has somebody.
    pub fn taken(self) -> Crew
        ensures { result ≡ wanted.taken self }
    {
        Crew {
            all: self.all,
            free: self.free.saturating_sub(1),
        }
    }

    /// One has nobody any more.
    pub fn freed(self) -> Crew
        ensures { result ≡ wanted.freed self }
    {
        Crew {
            all: self.all,
            free: self.free.saturating_add(1),
        }
    }

    /// Whether one more is wanted: where none has nobody, and there are fewer than so many.
    pub fn wants(self, most: u64) -> bool
        ensures { result ≡ wanted.wants self most }
    {
        self.free == 0 && self.all < most
    }
}

/// What waits.
#[derive(Drop)]
struct Asked {
    jobs: VecDeque<Job>,
    crew: Crew,
    over: bool,
}

/// Where threads are asked for as links come. One thread starts them.
#[derive(Drop)]
pub struct Hiring {
    /// The most threads that accept.
    most: u64,
    asked: Mutex<Asked>,
    changed: Condvar,
}

impl Hiring {
    /// Nothing is asked for, and at most so many threads accept.
    pub fn new(alloc: Global, most: usize) -> Hiring {
        Hiring {
            most: most as u64,
            asked: Mutex::new(Asked {
                jobs: VecDeque::new(alloc),
                crew: Crew { all: 0, free: 0 },
                over: false,
            }),
            changed: Condvar::new(),
        }
    }

    /// A thread to write the link to this peer is asked for. It says whether there was memory for
    /// that.
    pub fn ask_writer<R: Wait>(&self, rt: &R, peer: SiteNo) -> bool {
        let asked = self.asked.lock(rt).jobs.push_back(Job::Write(peer)).is_ok();
        self.changed.notify_one();
        asked
    }

    /// A thread is going to accept.
    pub fn join<R: Wait>(&self, rt: &R) {
        let mut asked = self.asked.lock(rt);
        asked.crew = asked.crew.joined();
    }

    /// A thread that was going to accept did not start.
    pub fn leave<R: Wait>(&self, rt: &R) {
        let mut asked = self.asked.lock(rt);
        asked.crew = asked.crew.left();
    }

    /// A thread that accepts has somebody: where no other waits one more is asked for.
    pub fn take<R: Wait>(&self, rt: &R) {
        let mut asked = self.asked.lock(rt);
        asked.crew = asked.crew.taken();
        if asked.crew.wants(self.most) && asked.jobs.push_back(Job::Accept).is_ok() {
            asked.crew = asked.crew.joined();
        }
        self.changed.notify_one();
    }

    /// A thread that accepts has nobody any more.
    pub fn free<R: Wait>(&self, rt: &R) {
        let mut asked = self.asked.lock(rt);
        asked.crew = asked.crew.freed();
    }

    /// What a thread is wanted for next. It is waited for. `None` where the site ends.
    pub fn next<R: Wait>(&self, rt: &R) -> Option<Job> {
        let mut asked = self.asked.lock(rt);
        for _ in rt.forever() {
            if asked.over {
                return None;
            }
            if let Some(job) = asked.jobs.pop_front() {
                return Some(job);
            }
            asked = self.changed.wait(rt, asked);
        }
        unreachable!()
    }

    /// The site ends.
    pub fn stop<R: Wait>(&self, rt: &R) {
        self.asked.lock(rt).over = true;
        self.changed.notify_one();
    }
}
