//! What a connection has of its own: who it is, and what it has begun to ask as one.

ghost use Rattle.std.specs.Option.{option_copied};
ghost use Rattle.std.specs.Prelude.{IsTrue, OnErr, OnOk, [], if◌then◌else◌, ◌≡◌};
ghost use Rattle.zq_resp.specs.Reply.{is_writable};
ghost use Rattle.zq_serve.specs.Callers as callers;
ghost use Rattle.zq_serve.specs.Queues.{IsPutOff, Open, line_of, spoiled};

use crate::queue::Queue;
use std::alloc::{AllocError, Global};
use std::marker::Model;
use zq_client::ClientState;
use zq_resp::Reply;
use zq_session::Queued;
use zq_spread::Watched;

/// What a connection watches.
#[derive(Drop)]
pub enum Watching {
    /// No key.
    Nothing,
    /// These keys.
    Keys(Watched),
    /// Keys of which one was changed since: what waits will not be answered.
    Touched,
}

/// What a connection has begun to ask as one.
#[derive(Drop)]
pub struct Begun {
    watching: Watching,
    queue: Queue,
}

/// A connection: who it is, what it watches, and what waits at it. One that has begun nothing takes
/// no memory of its own.
#[derive(Drop)]
pub struct CallerState {
    pub(crate) client: ClientState,
    begun: Option<Box<Begun>>,
}

impl Model for CallerState {
    ghost use Rattle.zq_serve.specs.Callers.{Caller, queue_in, watching_in};

    ghost Value = { Caller };

    ghost view = { λ c. record {
      client = c.client;
      watching = watching_in c.begun;
      queue = queue_in c.begun;
    } };
}

impl CallerState {
    /// A connection that has begun nothing.
    pub fn new(client: ClientState) -> CallerState
        ensures { result ≡ callers.resting client }
    {
        CallerState {
            client,
            begun: None,
        }
    }

    /// Whether nothing waits, and each request is answered at once.
    pub fn is_idle(&self) -> bool
        ensures { result ≡ callers.is_idle self.now.queue }
    {
        match &self.begun {
            None => true,
            Some(begun) => matches!(begun.queue, Queue::Idle),
        }
    }

    /// What it watches, where it has begun something.
    pub fn watching(&self) -> Option<&Watching>
        ensures { callers.watching_or (option_copied result) ≡ self.now.watching }
    {
        match &self.begun {
            None => None,
            Some(begun) => Some(&begun.watching),
        }
    }

    /// Nothing is watched, and nothing waits.
    pub fn clear(&mut self)
        ensures { self.new ≡ callers.resting self.old.client }
    {
        self.begun = None;
    }

    /// Forgets what it has begun, where it is so.
    pub fn forget(&mut self, is_so: bool)
        ensures { self.new ≡ (if is_so then callers.resting self.old.client else self.old) }
    {
        if is_so {
            self.clear();
        }
    }

    /// What it watched and what waited, where nothing is watched and nothing waits any more.
    pub fn take(&mut self) -> (Watching, Queue)
        ensures watching { result.0 ≡ self.old.watching }
        ensures queue { line_of result.1 ≡ self.old.queue }
        ensures cleared { self.new ≡ callers.resting self.old.client }
    {
        match self.begun.take() {
            None => (Watching::Nothing, Queue::Idle),
            Some(begun) => {
                let Begun { watching, queue } = Box::into_inner(begun);
                (watching, queue)
            }
        }
    }

    /// This is watched from now on. Where there is no memory for that, what was watched still is.
    pub fn watch(&mut self, alloc: Global, watching: Watching) -> Result<(), AllocError>
        ensures watched { OnOk result (self.new ≡ callers.watching watching self.old) }
        ensures refused { OnErr result (self.new ≡ self.old) }
    {
        if let Some(begun) = &mut self.begun {
            begun.watching = watching;
            return Ok(());
        }
        let queue = Queue::Idle;
        self.begun = Some(Box::new(alloc, Begun { watching, queue })?);
        Ok(())
    }

    /// Requests wait from now on. Where there is no memory for that, none do, and all is as it was.
    pub fn open(&mut self, alloc: Global) -> Result<(), AllocError>
        ensures opened { OnOk result (self.new ≡ callers.queueing (Open []) self.old) }
        ensures refused { OnErr result (self.new ≡ self.old) }
    {
        let queue = Queue::Open(Vec::new(alloc), 0);
        if let Some(begun) = &mut self.begun {
            begun.queue = queue;
            return Ok(());
        }
        let watching = Watching::Nothing;
        self.begun = Some(Box::new(alloc, Begun { watching, queue })?);
        Ok(())
    }

    /// A request of this weight waits behind the others, and is answered QUEUED: or it is refused,
    /// since there is no room or no memory for it, and then none of them will be answered.
    pub fn put_off(&mut self, queued: Queued, weight: usize) -> Reply
        ensures put { IsPutOff self.old.queue queued result self.new.queue }
        ensures others { self.new ≡ callers.queueing self.new.queue self.old }
        ensures writable { IsTrue (is_writable result) }
    {
        match &mut self.begun {
            Some(begun) => begun.queue.put_off(queued, weight),
            None => Reply::Simple("QUEUED"),
        }
    }

    /// None of those that wait will be answered.
    pub fn spoil(&mut self)
        ensures { self.new ≡ callers.queueing (spoiled self.old.queue) self.old }
    {
        if let Some(begun) = &mut self.begun {
            begun.queue.spoil();
        }
    }
}
