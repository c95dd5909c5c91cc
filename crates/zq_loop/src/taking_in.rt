//! How a worker takes in the connections that were handed over to it.

ghost use Rattle.std.specs.Prelude.{◌≡◌, None};
ghost use Rattle.zq_loop.specs.Life.{Rests};
ghost use Rattle.zq_session.specs.Connection.{IsNew};

use crate::client::Client;
use crate::places::put_in;
use crate::watch::{PortFault, Watch};
use crate::worker::Worker;
use mio::net::TcpStream;
use mio::{Interest, Token};
use std::alloc::AllocError;
use std::sync::Wait;

// As many connections are taken in before the others have a turn.
const TAKEN_IN: u32 = 32;

impl<'a, 'p, 'w, W: Watch, C: Drop> Worker<'a, 'p, 'w, W, C> {
    /// Takes in connections that were handed over. One for which there is no memory is closed; one
    /// that cannot be watched has failed.
    pub(crate) fn take_in<R: Wait>(&mut self, rt: &R, now: u64)
        ensures { Rests self.old.clients.items self.new.clients.items }
    {
        for _ in 0..TAKEN_IN {
            let Some(stream) = self.inbox.take(rt) else {
                self.has_mail = false;
                break;
            };
            self.take_in_one(stream, now);
        }
    }

    /// Takes in a connection.
    fn take_in_one(&mut self, stream: TcpStream, now: u64)
        ensures { Rests self.old.clients.items self.new.clients.items }
    {
        match self.free_place() {
            Ok(place) => self.place(place, stream, now),
            Err(AllocError) => self.port.counts.leave(self.port.limits.strangers > 0),
        }
    }

    /// A place that no connection has.
    fn free_place(&mut self) -> Result<usize, AllocError>
        ensures { Rests self.old.clients.items self.new.clients.items }
    {
        if let Some(place) = self.free.pop() {
            return Ok(place);
        }
        let place = self.clients.len();
        let places = place.saturating_add(1);
        self.free.reserve(places)?;
        self.queue.reserve(places)?;
        self.spare.reserve(places)?;
        self.clients.push(None)?;
        Ok(place)
    }

    /// Puts a connection at a free place, and has its socket watched. Where that cannot be done it
    /// has failed.
    fn place(&mut self, place: usize, stream: TcpStream, now: u64)
        ensures { Rests self.old.clients.items self.new.clients.items }
    {
        let mut stream = stream;
        let token = Token(place.saturating_add(1));
        let both = Interest::READABLE | Interest::WRITABLE;
        let registry = self.poller.poll.registry();
        let is_watched = registry.register(&mut stream, token, both).is_ok();
        let is_stranger = self.port.limits.strangers > 0;
        let mut client = Client::new(self.alloc, stream, is_stranger, now);
        if self.ends_at.is_some() {
            client.finish();
        }
        if is_watched && self.put(place, client) {
            self.count = self.count.saturating_add(1);
        } else {
            let _ = self.free.push(place);
            self.watch.tell(PortFault::Device);
            self.port.counts.leave(is_stranger);
        }
    }

    /// Puts a new client at a place, where none is there, and says whether it did.
    fn put(&mut self, place: usize, client: Client<TcpStream, C>) -> bool
        requires connection { IsNew client.connection }
        requires own { client.own ≡ None }
        ensures { Rests self.old.clients.items self.new.clients.items }
    {
        put_in(&mut self.clients, &mut self.queue, place, client)
    }
}
