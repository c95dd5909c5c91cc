//! A worker: the connections of one thread, and the loop that serves them.

ghost use Rattle.std.specs.Prelude.{◌<◌, ◌≡◌, ◌≤◌, [], length};
ghost use Rattle.zq_loop.specs.Life.{IsTurn, Lives, Rests, moment};
ghost use Rattle.zq_loop.specs.Turns.{AreOthers};

use crate::attending::{Attended, Attends};
use crate::client::Client;
use crate::ending::is_done;
use crate::inbox::Inbox;
use crate::poller::Poller;
use crate::port::Port;
use crate::socket::Socket;
use crate::turns::turn;
use crate::watch::{PortFault, Watch};
use mio::net::TcpStream;
use std::alloc::Global;
use std::mem;
use std::rt::Clock;
use std::sync::Wait;
use std::time::Duration;

// As many bytes are read at once.
const PIECE: usize = 16_384;

/// A worker's connections, and what it waits with.
#[derive(Drop)]
pub struct Worker<'a, 'p, 'w, W, C: Drop> {
    pub(crate) alloc: Global,
    pub(crate) poller: &'p mut Poller,
    pub(crate) inbox: &'a Inbox,
    pub(crate) port: &'a Port,
    pub(crate) watch: &'w W,
    pub(crate) clients: Vec<Option<Client<TcpStream, C>>>,
    /// The places that no connection has.
    pub(crate) free: Vec<usize>,
    /// The places of those that have something to do, and memory for the next such list. Both have
    /// room for all places.
    pub(crate) queue: Vec<usize>,
    pub(crate) spare: Vec<usize>,
    pub(crate) count: usize,
    /// Whether the inbox may have more.
    pub(crate) has_mail: bool,
    /// Whether a connection may be owed something.
    pub(crate) owes: bool,
    /// No connection is owed more bytes.
    pub(crate) most: u64,
    /// When it ends, where the port is stopped.
    pub(crate) ends_at: Option<u64>,
}

impl<'a, 'p, 'w, W: Watch, C: Drop> Worker<'a, 'p, 'w, W, C> {
    /// A worker with no connections.
    pub fn new(
        alloc: Global,
        poller: &'p mut Poller,
        inbox: &'a Inbox,
        port: &'a Port,
        watch: &'w W,
    ) -> Worker<'a, 'p, 'w, W, C>
        ensures { result.clients.items ≡ [] }
    {
        Worker {
            alloc,
            poller,
            inbox,
            port,
            watch,
            clients: Vec::new(alloc),
            free: Vec::new(alloc),
            queue: Vec::new(alloc),
            spare: Vec::new(alloc),
            count: 0,
            has_mail: true,
            owes: false,
            most: 0,
            ends_at: None,
        }
    }

    /// Serves connections until all have come and none is left, or the port is cut. Then those that
    /// are left are closed with what they are owed.
    pub fn run<R: Wait + Clock, A: Attends<C>>(&mut self, rt: &R, attending: &mut Attended<A, C>)
        requires others { AreOthers A.others A.answers }
        ensures { Lives ⟦<TcpStream as Socket>⟧.does A.others A.answers
            (moment attending.old.answerer self.old.clients.items)
            (moment attending.new.answerer self.new.clients.items) }
    {
        let mut buffer = [0u8; PIECE];
        let mut swept = 0;
        for _ in rt.forever() {
            if self.is_done(rt) {
                break;
            }
            let most = self.wait();
            if !self.poller.wait(most) {
                self.watch.tell(PortFault::Device);
                break;
            }
            let began = time(rt);
            let now = began.as_secs();
            self.prepare(rt, now);
            self.turn(attending, &mut buffer, now);
            self.watch.end(began);
            self.relieve();
            if now > swept {
                swept = now;
                self.sweep(now);
            }
        }
        self.close_all();
    }

    /// Whether it has nothing more to do.
    fn is_done<R: Wait>(&self, rt: &R) -> bool {
        let counts = &self.port.counts;
        let is_left = self.count > 0 || !self.inbox.is_empty(rt);
        is_done(counts.is_cut(), counts.has_all(), is_left)
    }

    /// What is done before a turn: it is noted what the system told, connections that came are
    /// taken in, and where the port is stopped all finish.
    fn prepare<R: Wait>(&mut self, rt: &R, now: u64)
        ensures { Rests self.old.clients.items self.new.clients.items }
    {
        self.note();
        self.take_in(rt, now);
        self.finish(now);
    }

    /// How long to wait for events.
    fn wait(&self) -> Option<Duration> {
        let limits = &self.port.limits;
        if self.has_mail || !self.queue.is_empty() {
            Some(Duration::from_millis(0))
        } else if self.ends_at.is_some()
            || self.count > 0 && (limits.timeout > 0 || limits.strangers > 0)
            || self.count > 0 && self.owes && limits.write_timeout > 0
        {
            Some(Duration::from_millis(1_000))
        } else {
            None
        }
    }

    /// Notes what the system told.
    fn note(&mut self)
        ensures { Rests self.old.clients.items self.new.clients.items }
    {
        let has_mail = self.poller.note(&mut self.clients, &mut self.queue);
        self.has_mail |= has_mail;
    }

    /// A turn of the connections that have something to do, after which each of them is looked
    /// after.
    fn turn<A: Attends<C>>(&mut self, attending: &mut Attended<A, C>, buffer: &mut [u8], now: u64)
        requires others { AreOthers A.others A.answers }
        requires some { 0 < length buffer.old }
        requires one_read { length buffer.old ≤ 65536 }
        ensures lives { Lives ⟦<TcpStream as Socket>⟧.does A.others A.answers
            (moment attending.old.answerer self.old.clients.items)
            (moment attending.new.answerer self.new.clients.items) }
        ensures buffer { length buffer.new ≡ length buffer.old }
    {
        let next = mem::replace(&mut self.spare, Vec::new(self.alloc));
        let mut queue = mem::replace(&mut self.queue, next);
        self.turn_of(&queue, attending, buffer, now);
        self.look_after_all(&queue);
        queue.clear();
        self.spare = queue;
    }

    /// A turn of the connections at these places.
    fn turn_of<A: Attends<C>>(
        &mut self,
        places: &[usize],
        attending: &mut Attended<A, C>,
        buffer: &mut [u8],
        now: u64,
    )
        requires others { AreOthers A.others A.answers }
        requires some { 0 < length buffer.old }
        requires one_read { length buffer.old ≤ 65536 }
        ensures { IsTurn ⟦<TcpStream as Socket>⟧.does A.others A.answers
            (moment attending.old.answerer self.old.clients.items)
            (moment attending.new.answerer self.new.clients.items) }
    {
        let watch = self.watch;
        turn(
            &mut self.clients,
            places,
            self.alloc,
            attending,
            buffer,
            now,
            watch,
        );
    }
}

/// The time that the clock shows.
fn time<R: Clock>(rt: &R) -> Duration {
    match rt.monotonic() {
        Ok(now) => now,
        Err(_) => Duration::from_millis(0),
    }
}
