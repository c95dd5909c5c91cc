//! A port: where connections come, and what its threads share.

ghost use Rattle.std.specs.Prelude.{IfOk, length, ◌≡◌};

use crate::accepting::Acceptor;
use crate::counts::{Counts, PortFigures};
use crate::inbox::Inbox;
use crate::limits::Limits;
use crate::poller::Poller;
use mio::Waker;
use mio::net::TcpListener;
use std::alloc::{AllocError, Global};
use std::io;
use std::net::{Net, SocketAddr};

/// A port: where connections come, and what its threads share. One thread accepts connections, by
/// the port's [`Acceptor`], and hands them in turn to workers, each a thread with a [`Poller`] and
/// what answers there. All of them end once as many connections as the limits say have come and are
/// served, or once they are told to stop, or cut.
#[derive(Drop)]
pub struct Port {
    pub(crate) listener: TcpListener,
    pub(crate) bell: Waker,
    pub(crate) inboxes: Vec<Inbox>,
    pub(crate) counts: Counts,
    pub(crate) limits: Limits,
}

impl Port {
    /// Listens on an address: the port, what accepts there, and pollers for so many workers.
    ///
    /// `Err`: the address could not be listened on, or there was no memory or no descriptor.
    pub fn open<R: Net>(
        rt: &R,
        alloc: Global,
        address: SocketAddr,
        workers: usize,
        limits: Limits,
    ) -> io::Result<(Port, Acceptor, Vec<Poller>)>
        ensures { IfOk result (λ opened. length opened.2.items ≡ workers) }
    {
        let mut listener = TcpListener::bind(rt, address)?;
        let (acceptor, bell) = Acceptor::new(rt, alloc, &mut listener)?;
        let mut pollers = Vec::new(alloc);
        let mut inboxes = Vec::new(alloc);
        for place in 0..workers {
            let (poller, inbox) = Poller::new(rt, alloc, place)?;
            pollers.push(poller).map_err(AllocError::from)?;
            inboxes.push(inbox).map_err(AllocError::from)?;
        }
        let port = Port {
            listener,
            bell,
            inboxes,
            counts: Counts::new(),
            limits,
        };
        Ok((port, acceptor, pollers))
    }

    /// The address that is listened on.
    pub fn address(&self) -> io::Result<SocketAddr> {
        self.listener.local_addr()
    }

    /// How many connections it has and had.
    pub fn figures(&self) -> PortFigures {
        self.counts.figures()
    }

    /// Ends the port: no connection is accepted and no request is read any more. What was read is
    /// answered, and what is owed is written, for some five seconds.
    pub fn stop(&self) {
        self.counts.stop();
        let _ = self.bell.wake();
        self.wake_all();
    }

    /// Ends the port at once: no connection is accepted, nothing more is read or written, and
    /// connections are closed with what they are owed. Each worker ends once its turn is over, in
    /// which it waits for no socket.
    pub fn cut(&self) {
        self.counts.cut();
        let _ = self.bell.wake();
        self.wake_all();
    }

    /// The worker of which a connection may be owed more bytes than this one, which is the most
    /// that one of the worker at this place is owed. Of two with as many the first goes before.
    pub(crate) fn ahead_of(&self, place: usize, most: u64) -> Option<&Inbox> {
        let mut ahead = None;
        let (mut greatest, mut at) = (most, place);
        for (other, inbox) in self.inboxes.iter().enumerate() {
            let told = inbox.most();
            if other != place && (told > greatest || told == greatest && other < at) {
                greatest = told;
                at = other;
                ahead = Some(inbox);
            }
        }
        ahead
    }

    /// Ends the waits of all workers.
    pub(crate) fn wake_all(&self) {
        for inbox in &self.inboxes {
            inbox.wake();
        }
    }
}
