//! How a worker looks after its connections between their turns, and which of them it closes.

ghost use Rattle.std.specs.Prelude.{◌≡◌, None, slice_set};
ghost use Rattle.zq_loop.specs.Life.{AreNone, Rests};

use crate::client::Client;
use crate::places::{Looked, finish_at, look_at, take_out};
use crate::watch::{PortFault, Watch};
use crate::worker::Worker;
use mio::net::TcpStream;

// How many seconds what is owed is still written when the port is stopped.
const GRACE: u64 = 5;

impl<'a, 'p, 'w, W: Watch, C: Drop> Worker<'a, 'p, 'w, W, C> {
    /// Where the port is stopped, has each connection finish.
    pub(crate) fn finish(&mut self, now: u64)
        ensures { Rests self.old.clients.items self.new.clients.items }
    {
        if self.ends_at.is_some() || !self.port.counts.is_stopped() {
            return;
        }
        self.ends_at = Some(now.saturating_add(GRACE));
        for place in 0..self.clients.len() {
            self.finish_one(place);
        }
    }

    /// Has the connection at a place finish.
    fn finish_one(&mut self, place: usize)
        ensures { Rests self.old.clients.items self.new.clients.items }
    {
        finish_at(&mut self.clients, &mut self.queue, place);
    }

    /// Looks after the connections at these places.
    pub(crate) fn look_after_all(&mut self, places: &[usize])
        ensures { Rests self.old.clients.items self.new.clients.items }
    {
        for place in places {
            self.look_after(*place);
        }
    }

    /// Counts what a connection is owed after its turn, and ends it or queues it again.
    fn look_after(&mut self, place: usize)
        ensures { Rests self.old.clients.items self.new.clients.items }
    {
        let Some(looked) = self.look(place) else {
            return;
        };
        let owed = looked.owed as u64;
        self.port.counts.count(looked.before, looked.owed);
        self.port
            .counts
            .turn(looked.was_stranger, looked.is_stranger);
        if owed > self.most {
            self.inbox.tell_most(owed);
        }
        self.most = self.most.max(owed);
        self.owes |= owed > 0;
        if looked.is_over {
            self.remove(place);
        }
    }

    /// What there is to say of the connection at a place after its turn.
    fn look(&mut self, place: usize) -> Option<Looked>
        ensures { Rests self.old.clients.items self.new.clients.items }
    {
        look_at(&mut self.clients, &mut self.queue, place)
    }

    /// Closes the connections that were silent, took nothing, or have been strangers for too long;
    /// and all where the port is stopped and its time is over.
    pub(crate) fn sweep(&mut self, now: u64)
        ensures { Rests self.old.clients.items self.new.clients.items }
    {
        let is_end = match self.ends_at {
            Some(end) => now >= end,
            None => false,
        };
        self.owes = false;
        for place in 0..self.clients.len() {
            self.sweep_at(place, is_end, now);
        }
    }

    /// Closes the connection at a place where it was silent, took nothing, or has been a stranger
    /// for too long; and where the end has come.
    fn sweep_at(&mut self, place: usize, is_end: bool, now: u64)
        ensures { Rests self.old.clients.items self.new.clients.items }
    {
        let limits = self.port.limits;
        let Some(Some(client)) = self.clients.get(place) else {
            return;
        };
        self.owes |= client.counted > 0;
        let is_stuck = client.is_stuck(limits.write_timeout, now);
        let is_silent = client.is_silent(limits.timeout, now);
        let is_late = client.standing.is_late(now);
        if is_stuck {
            self.watch.tell(PortFault::Unread);
        } else if is_silent {
            self.port.counts.silence();
        }
        if is_stuck || is_silent || is_late || is_end {
            self.remove(place);
        }
    }

    /// Where all connections are owed too much together, closes the one that is owed most of all.
    /// Where another worker has that, it is woken to do so.
    pub(crate) fn relieve(&mut self)
        ensures { Rests self.old.clients.items self.new.clients.items }
    {
        if self.port.counts.owed() <= self.port.limits.output {
            return;
        }
        let (place, most) = self.greatest();
        self.most = most;
        self.inbox.tell_most(most);
        if let Some(other) = self.port.ahead_of(self.poller.place, most) {
            other.wake();
        } else if most > 0 && self.port.counts.owed() > self.port.limits.output {
            self.watch.tell(PortFault::Output);
            self.remove(place);
            // There may still be too much.
            self.inbox.wake();
        }
    }

    /// The place of the connection that is owed most, and how many bytes those are.
    fn greatest(&self) -> (usize, u64) {
        let mut greatest = (0, 0);
        for (place, there) in self.clients.iter().enumerate() {
            if let Some(client) = there {
                if client.counted as u64 > greatest.1 {
                    greatest = (place, client.counted as u64);
                }
            }
        }
        greatest
    }

    /// Closes all connections, whatever they are owed.
    pub(crate) fn close_all(&mut self)
        ensures rests { Rests self.old.clients.items self.new.clients.items }
        ensures none { AreNone self.new.clients.items }
    {
        for place in 0..self.clients.len() {
            self.remove(place);
        }
    }

    /// Closes a connection, and tells of its fault.
    fn remove(&mut self, place: usize)
        ensures rests { Rests self.old.clients.items self.new.clients.items }
        ensures gone { self.new.clients.items ≡ slice_set self.old.clients.items place None }
    {
        let Some(client) = self.take(place) else {
            return;
        };
        if let Some(fault) = client.fault() {
            self.watch.tell(fault);
        }
        self.port.counts.count(client.counted, 0);
        self.port.counts.leave(client.was_stranger);
        self.count = self.count.saturating_sub(1);
        let _ = self.free.push(place);
    }

    /// Takes the client at a place out.
    fn take(&mut self, place: usize) -> Option<Client<TcpStream, C>>
        ensures { self.new.clients.items ≡ slice_set self.old.clients.items place None }
    {
        take_out(&mut self.clients, place)
    }
}
