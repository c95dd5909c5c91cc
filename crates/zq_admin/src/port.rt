//! The port where a site is asked.

use crate::clerk::Clerk;
use crate::desk::Desk;
use crate::visit::Visit;
use http_server::{Config, Connection};
use mio::net::{TcpListener, TcpStream};
use mio::{Events, Interest, Poll, Token};
use std::alloc::{AllocError, Global};
use std::hash::RandomState;
use std::io;
use std::io::ErrorKind;
use std::net::{Net, SocketAddr};
use std::random::RandomSource;
use std::rt::Clock;
use std::sync::Wait;
use std::time::Duration;

/// How many connections there are at once at most. One that comes then waits until another ends.
const MOST_VISITS: usize = 32;

/// How many seconds a connection lasts at most.
const VISIT: u64 = 10;

/// How many bytes the body of a request has at most, which is asked of no page.
const MOST_BODY: usize = 4_096;

/// How many milliseconds it waits at most before it looks for connections that last too long, and
/// for those that could not be accepted before.
const TURN: u64 = 500;

const LISTENER: Token = Token(0);

const VISITOR: Token = Token(1);

const EVENTS: usize = 64;

/// A port where a site is asked, and told to end.
#[derive(Drop)]
pub struct AdminPort {
    alloc: Global,
    listener: TcpListener,
    poll: Poll,
    keys: RandomState,
}

impl AdminPort {
    /// Listens at this address.
    ///
    /// # Errors
    ///
    /// The address could not be listened on, or there were no random bytes or no descriptors.
    pub fn open<N: Net, R: RandomSource>(
        net: &N,
        rt: &R,
        alloc: Global,
        address: SocketAddr,
    ) -> io::Result<AdminPort> {
        let mut listener = TcpListener::bind(net, address)?;
        let poll = Poll::new(net)?;
        poll.registry()
            .register(&mut listener, LISTENER, Interest::READABLE)?;
        Ok(AdminPort {
            alloc,
            listener,
            poll,
            keys: RandomState::new(rt)?,
        })
    }

    /// Answers who comes, at this desk, until the site does not go on. What fails ends a connection
    /// alone. Where nothing can be waited for it ends, and answers `false`.
    pub fn run<R: Clock + Wait, D: Desk>(&mut self, rt: &R, desk: &D) -> bool {
        let alloc = self.alloc;
        let Ok(mut events) = Events::with_capacity(alloc, EVENTS) else {
            return false;
        };
        let mut visits = Vec::new(alloc);
        let mut stops = false;
        for _ in rt.forever() {
            if !desk.goes_on() {
                break;
            }
            if self
                .poll
                .poll(&mut events, Some(Duration::from_millis(TURN)))
                .is_err()
            {
                return false;
            }
            let now = seconds(rt);
            self.accept_all(&mut visits, now);
            let mut clerk = Clerk {
                desk,
                token: desk.token(),
                readiness: desk.readiness(),
                stops,
            };
            serve_all(&mut visits, &mut clerk, now);
            if clerk.stops && !stops {
                desk.stop();
            }
            stops = clerk.stops;
        }
        true
    }

    /// Accepts those who have come, as many as there is room for.
    fn accept_all(&self, visits: &mut Vec<Visit>, now: u64) {
        for _ in visits.len()..MOST_VISITS {
            match self.listener.accept() {
                Ok((stream, _)) => {
                    let _ = self.admit(visits, stream, now);
                }
                Err(error) if error.kind() == ErrorKind::Interrupted => {}
                Err(_) => break,
            }
        }
    }

    /// A connection is answered from now on.
    fn admit(&self, visits: &mut Vec<Visit>, mut stream: TcpStream, now: u64) -> io::Result<()> {
        self.poll.registry().register(
            &mut stream,
            VISITOR,
            Interest::READABLE | Interest::WRITABLE,
        )?;
        let config = Config {
            max_body_len: MOST_BODY,
            ..Config::default()
        };
        let connection = Connection::new(self.alloc, self.keys, config);
        let visit = Visit::new(stream, connection, now.saturating_add(VISIT));
        visits.push(visit).map_err(AllocError::from)?;
        Ok(())
    }
}

/// Serves all connections as far as their sockets go, and lets those go that have ended, or last
/// too long.
fn serve_all<D: Desk>(visits: &mut Vec<Visit>, clerk: &mut Clerk<'_, D>, now: u64) {
    for place in (0..visits.len()).rev() {
        let goes_on = match visits.get_mut(place) {
            Some(visit) => visit.go_on(clerk) && visit.may_last(now),
            None => true,
        };
        if !goes_on && place < visits.len() {
            visits.swap_remove(place);
        }
    }
}

/// The seconds that the clock shows.
fn seconds<R: Clock>(rt: &R) -> u64 {
    match rt.monotonic() {
        Ok(now) => now.as_secs(),
        Err(_) => 0,
    }
}
