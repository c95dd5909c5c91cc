//! Where connections are handed to a worker.

use mio::net::TcpStream;
use mio::{Poll, Token, Waker};
use std::alloc::Global;
use std::collections::VecDeque;
use std::io;
use std::net::Net;
use std::sync::atomic::{AtomicU64, Ordering};
use std::sync::{Mutex, Wait};

/// The token of a waker. A connection's is its place and one more.
pub const WAKER: Token = Token(0);

/// The connections that came for a worker, what wakes it, and what others know of it.
#[derive(Drop)]
pub struct Inbox {
    // The oldest is the first.
    came: Mutex<VecDeque<TcpStream>>,
    waker: Waker,
    // No connection of the worker is owed more bytes.
    most: AtomicU64,
}

impl Inbox {
    /// A worker's poll, and the inbox whose waker ends its waits.
    pub fn new<R: Net>(rt: &R, alloc: Global) -> io::Result<(Poll, Inbox)> {
        let poll = Poll::new(rt)?;
        let waker = Waker::new(poll.registry(), WAKER)?;
        let inbox = Inbox {
            came: Mutex::new(VecDeque::new(alloc)),
            waker,
            most: AtomicU64::new(0),
        };
        Ok((poll, inbox))
    }

    /// Hands a connection over, and says whether there was memory for that. Else it is closed.
    pub fn put<R: Wait>(&self, rt: &R, stream: TcpStream) -> bool {
        let is_put = self.came.lock(rt).push_back(stream).is_ok();
        self.wake();
        is_put
    }

    /// The one that was handed over first of those that are there.
    pub fn take<R: Wait>(&self, rt: &R) -> Option<TcpStream> {
        self.came.lock(rt).pop_front()
    }

    /// Whether none is there.
    pub fn is_empty<R: Wait>(&self, rt: &R) -> bool {
        self.came.lock(rt).is_empty()
    }

    /// Ends the worker's wait.
    pub fn wake(&self) {
        let _ = self.waker.wake();
    }

    /// Tells others that no connection of the worker is owed more bytes than this.
    pub fn tell_most(&self, most: u64) {
        self.most.store(most, Ordering::SeqCst);
    }

    /// What was told last.
    pub fn most(&self) -> u64 {
        self.most.load(Ordering::SeqCst)
    }
}
