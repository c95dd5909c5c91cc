//! The thread that accepts connections, and hands them to the workers in turn.

use crate::inbox::WAKER;
use crate::port::Port;
use crate::watch::{PortFault, Watch};
use mio::net::{TcpListener, TcpStream};
use mio::{Events, Interest, Poll, Token, Waker};
use std::alloc::Global;
use std::io;
use std::io::{ErrorKind, Write};
use std::net::Net;
use std::sync::Wait;
use std::time::Duration;

// As many events are taken at once: there are two sources.
const EVENTS: usize = 4;

// How many milliseconds nothing is accepted where descriptors or memory ran out.
const PAUSE: u64 = 100;

// The token of the listener.
const LISTENER: Token = Token(1);

const REFUSAL: &[u8] = b"-ERR max number of clients reached\r\n";

// The system's numbers of errors: no memory, too many open files in all, and in this process, and
// no room for buffers.
const SHORT: [i32; 4] = [12, 23, 24, 105];

/// What accepts the connections of a port.
#[derive(Drop)]
pub struct Acceptor {
    poll: Poll,
    events: Events,
    // The worker whose turn it is.
    next: usize,
    // How many connections were accepted or failed.
    done: u64,
}

/// How an attempt to accept went.
#[derive(Clone, Copy, Debug, PartialEq, Eq)]
enum Attempt {
    /// There may be more.
    More,
    /// None is there now.
    None,
    /// Descriptors or memory ran out.
    Short,
}

impl Acceptor {
    /// What waits for the listener's connections, and what ends its waits.
    pub(crate) fn new<R: Net>(
        rt: &R,
        alloc: Global,
        listener: &mut TcpListener,
    ) -> io::Result<(Acceptor, Waker)> {
        let poll = Poll::new(rt)?;
        let bell = Waker::new(poll.registry(), WAKER)?;
        poll.registry()
            .register(listener, LISTENER, Interest::READABLE)?;
        let acceptor = Acceptor {
            poll,
            events: Events::with_capacity(alloc, EVENTS)?,
            next: 0,
            done: 0,
        };
        Ok((acceptor, bell))
    }

    /// Accepts the connections of its port, until as many have come as the limits say, or it is
    /// told to stop. One that fails counts among them, and is told of. Where descriptors or memory
    /// run out it waits for more of these, and nothing is counted. The port has to be the one that
    /// it was opened with.
    pub fn run<R: Wait, W: Watch>(&mut self, rt: &R, port: &Port, watch: &W) {
        let most = port.limits.connections;
        for _ in rt.forever() {
            if port.counts.is_stopped() || most != 0 && self.done >= most {
                break;
            }
            let attempt = self.accept(rt, port, watch);
            if !self.wait_after(attempt) {
                watch.tell(PortFault::Device);
                break;
            }
        }
        port.counts.close();
        port.wake_all();
    }

    /// Waits until there may be a connection, where there was none, and says whether it could.
    fn wait_after(&mut self, attempt: Attempt) -> bool {
        let wait = match attempt {
            Attempt::More => return true,
            Attempt::None => None,
            Attempt::Short => Some(Duration::from_millis(PAUSE)),
        };
        self.poll.poll(&mut self.events, wait).is_ok()
    }

    /// Accepts one connection, and hands it over.
    fn accept<R: Wait, W: Watch>(&mut self, rt: &R, port: &Port, watch: &W) -> Attempt {
        match port.listener.accept() {
            Ok((stream, _)) => {
                self.done = self.done.saturating_add(1);
                self.hand(rt, port, stream);
                Attempt::More
            }
            Err(error) => match attempt_of(&error) {
                Some(attempt) => attempt,
                None => {
                    self.done = self.done.saturating_add(1);
                    watch.tell(PortFault::Device);
                    Attempt::More
                }
            },
        }
    }

    /// Hands a connection to the worker whose turn it is, or refuses it where there are as many as
    /// there may be.
    fn hand<R: Wait>(&mut self, rt: &R, port: &Port, stream: TcpStream) {
        if !port.counts.enter(&port.limits) {
            let mut writer = &stream;
            let _ = writer.write(REFUSAL);
            return;
        }
        let _ = stream.set_nodelay(true);
        if self.next >= port.inboxes.len() {
            self.next = 0;
        }
        let is_put = match port.inboxes.get(self.next) {
            Some(inbox) => inbox.put(rt, stream),
            None => false,
        };
        self.next = self.next.saturating_add(1);
        if !is_put {
            port.counts.leave(port.limits.strangers > 0);
        }
    }
}

/// How an attempt went that ended so, if no connection failed by that.
fn attempt_of(error: &io::Error) -> Option<Attempt> {
    let is_short = match error.raw_os_error() {
        Some(number) => SHORT.contains(&number),
        None => false,
    };
    match error.kind() {
        ErrorKind::WouldBlock => Some(Attempt::None),
        ErrorKind::Interrupted => Some(Attempt::More),
        _ if is_short => Some(Attempt::Short),
        _ => None,
    }
}

#[cfg(test)]
mod tests {
    use super::*;

    /// How an attempt went that ended with this error of the system.
    fn after(number: i32) -> Option<Attempt> {
        attempt_of(&io::Error::from_raw_os_error(number))
    }

    #[test]
    fn an_accept_that_fails_for_want_of_room_is_tried_again(rt: HostRuntime) {
        // No memory, too many files in all, too many of this process, no room for buffers.
        for number in [12, 23, 24, 105] {
            assert_eq!(rt; after(number), Some(Attempt::Short));
        }
        // Nothing to accept now, and a signal.
        assert_eq!(rt; after(11), Some(Attempt::None));
        assert_eq!(rt; after(4), Some(Attempt::More));
    }

    #[test]
    fn an_accept_that_fails_otherwise_is_a_connection_that_failed(rt: HostRuntime) {
        // A connection that was given up, and an error of the device.
        for number in [103, 5] {
            assert_eq!(rt; after(number), None);
        }
    }
}
