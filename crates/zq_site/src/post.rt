//! What comes to the link thread of a site.

ghost use Rattle.std.specs.Prelude.{IfSome, IsTrue, OnErr, OnOk, false, ◌++◌, ◌∷◌, ◌↔◌, ◌≡◌, []};
ghost use Rattle.zq_site.specs.Deliveries.{IsNothing};

use std::alloc::{AllocError, Global};
use std::collections::VecDeque;
use std::mem;
use std::sync::{Condvar, Mutex, Wait};
use zq_dots::SiteNo;
use zq_replica::Protocol;

/// What happened at a link.
#[derive(Drop)]
pub enum Event {
    /// The link of this number to the peer is up, with this protocol.
    Up {
        peer: SiteNo,
        link: u64,
        protocol: Protocol,
    },
    /// The link of this number to the peer is down.
    Down {
        peer: SiteNo,
        link: u64,
    },
    /// A frame came over the link of this number to the peer.
    Frame {
        peer: SiteNo,
        link: u64,
        bytes: Vec<u8>,
    },
}

/// What is taken from a post at once.
#[derive(Drop)]
pub struct Delivery {
    /// What happened, in its order.
    pub events: VecDeque<Event>,
    /// Whether calls were made.
    pub calls: bool,
    /// Whether a peer takes more.
    pub pushes: bool,
    /// Whether a second has gone by.
    pub beats: bool,
}

/// What waits.
#[derive(Drop)]
struct Waiting {
    delivery: Delivery,
    over: bool,
}

/// Where threads leave what the link thread of a site is to do.
#[derive(Drop)]
pub struct Post {
    alloc: Global,
    waiting: Mutex<Waiting>,
    changed: Condvar,
}

impl Delivery {
    /// Nothing.
    fn nothing(alloc: Global) -> Delivery
        ensures { IsNothing result }
    {
        Delivery {
            events: VecDeque::new(alloc),
            calls: false,
            pushes: false,
            beats: false,
        }
    }

    /// Whether there is nothing.
    fn is_nothing(&self) -> bool
        ensures { IsTrue result ↔ IsNothing self.now }
    {
        self.events.is_empty() && !self.calls && !self.pushes && !self.beats
    }

    /// This happened, after all that happened before. Where there is no memory for it nothing
    /// changes.
    fn add(&mut self, event: Event) -> Result<(), AllocError>
        ensures added { OnOk result (self.new.events.items ≡ self.old.events.items ++ event ∷ []) }
        ensures refused { OnErr result (self.new.events.items ≡ self.old.events.items) }
        ensures calls { self.new.calls ≡ self.old.calls }
        ensures pushes { self.new.pushes ≡ self.old.pushes }
        ensures beats { self.new.beats ≡ self.old.beats }
    {
        self.events.push_back(event)?;
        Ok(())
    }

    /// All of it, of which nothing is left.
    fn take(&mut self, alloc: Global) -> Delivery
        ensures taken { result ≡ self.old }
        ensures nothing { IsNothing self.new }
    {
        mem::replace(self, Delivery::nothing(alloc))
    }
}

impl Post {
    /// Nothing waits.
    pub fn new(alloc: Global) -> Post {
        Post {
            alloc,
            waiting: Mutex::new(Waiting {
                delivery: Delivery::nothing(alloc),
                over: false,
            }),
            changed: Condvar::new(),
        }
    }

    /// Leaves an event. Where there is no memory for it it is lost.
    pub fn leave<R: Wait>(&self, rt: &R, event: Event) -> Result<(), AllocError> {
        let left = self.waiting.lock(rt).delivery.add(event);
        self.changed.notify_one();
        left
    }

    /// Calls were made.
    pub fn call<R: Wait>(&self, rt: &R) {
        self.waiting.lock(rt).delivery.calls = true;
        self.changed.notify_one();
    }

    /// A peer takes more.
    pub fn push<R: Wait>(&self, rt: &R) {
        self.waiting.lock(rt).delivery.pushes = true;
        self.changed.notify_one();
    }

    /// A second has gone by.
    pub fn beat<R: Wait>(&self, rt: &R) {
        self.waiting.lock(rt).delivery.beats = true;
        self.changed.notify_one();
    }

    /// The site ends.
    pub fn stop<R: Wait>(&self, rt: &R) {
        self.waiting.lock(rt).over = true;
        self.changed.notify_one();
    }

    /// Takes all that waits. Where nothing does it is waited for, unless the link thread has more
    /// to do. `None` where the site ends.
    pub fn take<R: Wait>(&self, rt: &R, has_more: bool) -> Option<Delivery>
        ensures { IfSome result (λ delivery. has_more ≡ false → IsNothing delivery → ⊥) }
    {
        let mut waiting = self.waiting.lock(rt);
        for _ in rt.forever() {
            if waiting.over {
                return None;
            }
            if has_more || !waiting.delivery.is_nothing() {
                return Some(waiting.delivery.take(self.alloc));
            }
            waiting = self.changed.wait(rt, waiting);
        }
        unreachable!()
    }
}
